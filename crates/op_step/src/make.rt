//! Objects and pointers that are made: new, new_cyclic, new_from, weak_new, null.
ghost use Rattle.std.specs.Prelude.{◌≡◌, IfOk};
ghost use Rattle.std.specs.FinMap.{get};
ghost use Rattle.trace_types.specs.declared.kinds.Kind.TheVariants as kind;
ghost use Rattle.ownership_model.specs.View.{elements_of};
ghost use Rattle.ownership_model.specs.Table.{new_row, ending};
ghost use Rattle.ownership_model.specs.Table as Table;
ghost use Rattle.ownership_model.specs.Rows.{row_in, Tells};

use crate::room::Room;
use crate::wants::{all_held, all_slots, held, unheld};
use object_heap::Heap;
use ownership_model::effects::{copy_fields, push_make};
use ownership_model::questions::bare_in;
use ownership_model::{Plan, Stop};
use std::alloc::{AllocError, Global};
use trace_types::kinds::Field;
use trace_types::outcomes::Answer;
use trace_types::sequence::Sequence;
use trace_types::slots::{Change, Holding, Slot};

/// `Arc::new`, `Arc::new_cyclic`
pub fn new(
    room: &mut Room,
    heap: &Heap,
    label: u32,
    id: u32,
    to: u32,
    fields: &[Field],
) -> Result<Plan, Stop>
    ensures { Tells result (new_row label id to (elements_of heap.now fields.now)
        (get heap.now.handles to)) }
{
    all_held(heap, fields)?;
    all_slots(heap, fields)?;
    unheld(heap, to)?;
    let changes = making(room, heap, label, id, fields, to)?;
    Ok(Plan::act(Answer::Made, changes, room.nothing(), Some(id)))
}

/// `Arc::new` of a value that was moved out of another `Arc`
pub fn new_from(
    room: &mut Room,
    heap: &Heap,
    label: u32,
    id: u32,
    from: u32,
    to: u32,
) -> Result<Plan, Stop>
    ensures { Tells result (row_in heap.now label id (kind.NewFrom from to)) }
{
    let fields = bare_in(from, held(heap, from)?)?;
    unheld(heap, to)?;
    let mut changes = room.change(Change::EndHandle(from))?;
    let fields = copy_fields(room.alloc(), fields)?;
    push_make(&mut changes, label, id, fields, to)?;
    Ok(Plan::act(Answer::Made, changes, room.nothing(), Some(id)))
}

/// `Weak::new`
pub fn weak_new(room: &mut Room, heap: &Heap, label: u32, to: u32) -> Result<Plan, Stop>
    ensures { Tells result (row_in heap.now label 0 (kind.WeakNew to)) }
{
    unheld(heap, to)?;
    Ok(Plan::hold(
        room.changes(),
        label,
        Answer::Done,
        to,
        Slot::Dangling,
        None,
    )?)
}

/// An empty pointer.
pub fn null(room: &mut Room, heap: &Heap, label: u32, to: u32) -> Result<Plan, Stop>
    ensures { Tells result (row_in heap.now label 0 (kind.Null to)) }
{
    unheld(heap, to)?;
    Ok(Plan::hold(room.changes(), label, Answer::Done, to, Slot::Nothing, None)?)
}

// What the handles hold, in order.
fn made_fields(
    alloc: Global,
    heap: &Heap,
    id: u32,
    fields: &[Field],
) -> Result<Vec<Slot>, AllocError>
    ensures { IfOk result (λ v. v.items ≡ Table.made_fields id (elements_of heap.now fields.now)) }
{
    let mut made = Vec::new(alloc);
    for field in fields {
        made.push(match field {
            Field::Held(h) => slot_of(heap, *h),
            Field::Null => Slot::Nothing,
            Field::Me => Slot::Weak(id),
        })?;
    }
    Ok(made)
}

fn slot_of(heap: &Heap, h: u32) -> Slot
    ensures { result ≡ Table.slot_of (get heap.now.handles h) }
{
    match heap.holding(h) {
        Some(Holding::Slot(slot)) => *slot,
        Some(Holding::Bare(_)) | None => Slot::Nothing,
    }
}

// The handles of the fields end, and the object comes to be.
fn making(
    room: &mut Room,
    heap: &Heap,
    label: u32,
    id: u32,
    fields: &[Field],
    to: u32,
) -> Result<Vec<Change>, AllocError>
    ensures { IfOk result (λ v. let es = elements_of heap.now fields.now in v.items
        ≡ ending es (Table.make label id (Table.made_fields id es) to)) }
{
    let made = made_fields(room.alloc(), heap, id, fields)?;
    let mut changes = room.changes();
    for field in fields {
        if let Field::Held(h) = field {
            changes.push(Change::EndHandle(*h))?;
        }
    }
    push_make(&mut changes, label, id, Sequence::from_vec(made), to)?;
    Ok(changes)
}
