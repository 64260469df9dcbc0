//! Fields: set, take, get.
//!
//! The fields of an object that a handle keeps, or of the value that it holds itself.
ghost use Rattle.trace_types.specs.declared.kinds.Kind.TheVariants as kind;
ghost use Rattle.ownership_model.specs.Rows.{row_in, Tells};

use crate::room::Room;
use crate::wants::{fields_in, held, unheld};
use object_heap::Heap;
use ownership_model::questions::{field_at, slot_in};
use ownership_model::{Plan, Stop};
use trace_types::outcomes::Answer;
use trace_types::slots::{Change, Holding, Item, Slot};

/// A field takes what a handle holds
pub fn set(
    room: &mut Room,
    heap: &Heap,
    label: u32,
    h: u32,
    i: u32,
    from: u32,
) -> Result<Plan, Stop>
    ensures { Tells result (row_in heap.now label 0 (kind.Set h i from)) }
{
    let owner_held = held(heap, h)?;
    let source = held(heap, from)?;
    let fields = fields_in(heap, h, owner_held)?;
    let slot = slot_in(from, source)?;
    let old = field_at(i, fields.slots)?;
    let written = fields.write(room.alloc(), label, h, i, slot)?;
    let changes = room.both(Change::EndHandle(from), written)?;
    let pending = room.item(Item::Slot(old))?;
    Ok(Plan::act(Answer::Done, changes, pending, fields.owner))
}

/// A field is moved out, and an empty pointer is left
pub fn take(room: &mut Room, heap: &Heap, label: u32, h: u32, i: u32, to: u32) -> Result<Plan, Stop>
    ensures { Tells result (row_in heap.now label 0 (kind.Take h i to)) }
{
    let fields = fields_in(heap, h, held(heap, h)?)?;
    let slot = field_at(i, fields.slots)?;
    unheld(heap, to)?;
    let written = fields.write(room.alloc(), label, h, i, Slot::Nothing)?;
    let changes = room.both(Change::SetHandle(label, to, Holding::Slot(slot)), written)?;
    Ok(Plan::act(Answer::Done, changes, room.nothing(), fields.owner))
}

/// A field is cloned
pub fn get(room: &mut Room, heap: &Heap, label: u32, h: u32, i: u32, to: u32) -> Result<Plan, Stop>
    ensures { Tells result (row_in heap.now label 0 (kind.Get h i to)) }
{
    let fields = fields_in(heap, h, held(heap, h)?)?;
    let slot = field_at(i, fields.slots)?;
    unheld(heap, to)?;
    Ok(Plan::hold(room.changes(), label, Answer::Done, to, slot, fields.owner)?)
}
