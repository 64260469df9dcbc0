//! Handles: clone, drop, downgrade, upgrade, counts, ptr_eq.
ghost use Rattle.trace_types.specs.declared.kinds.Kind.TheVariants as kind;
ghost use Rattle.ownership_model.specs.Rows.{row_in, Tells};

use crate::room::Room;
use crate::wants::{held, is_alive, unheld};
use object_heap::Heap;
use ownership_model::effects::drops;
use ownership_model::plan::yes_if;
use ownership_model::questions::{counted_in, slot_in, strong_in, weak_in};
use ownership_model::{Plan, Stop};
use std::alloc::Global;
use trace_types::outcomes::Answer;
use trace_types::slots::{Change, Holding, Item, Slot};

/// `Arc::clone`, `Weak::clone`
pub fn clone(room: &mut Room, heap: &Heap, label: u32, from: u32, to: u32) -> Result<Plan, Stop>
    ensures { Tells result (row_in heap.now label 0 (kind.Clone from to)) }
{
    let slot = slot_in(from, held(heap, from)?)?;
    unheld(heap, to)?;
    Ok(Plan::hold(room.changes(), label, Answer::Done, to, slot, slot.object())?)
}

/// `drop`
pub fn drop(room: &mut Room, heap: &Heap, h: u32) -> Result<Plan, Stop>
    ensures { Tells result (row_in heap.now 0 0 (kind.Drop h)) }
{
    let held = held(heap, h)?;
    let changes = room.change(Change::EndHandle(h))?;
    match held {
        Holding::Slot(slot) => {
            let pending = room.item(Item::Slot(*slot))?;
            Ok(Plan::act(Answer::Done, changes, pending, slot.object()))
        }
        Holding::Bare(fields) => {
            let pending = drops(room.alloc(), fields.as_slice(), &[])?;
            Ok(Plan::act(Answer::Done, changes, pending, None))
        }
    }
}

/// `Arc::downgrade`
pub fn downgrade(room: &mut Room, heap: &Heap, label: u32, from: u32, to: u32) -> Result<Plan, Stop>
    ensures { Tells result (row_in heap.now label 0 (kind.Downgrade from to)) }
{
    let object = strong_in(from, held(heap, from)?)?;
    unheld(heap, to)?;
    Ok(Plan::hold(
        room.changes(),
        label,
        Answer::Done,
        to,
        Slot::Weak(object),
        Some(object),
    )?)
}

/// `Weak::upgrade`
pub fn upgrade(room: &mut Room, heap: &Heap, label: u32, from: u32, to: u32) -> Result<Plan, Stop>
    ensures { Tells result (row_in heap.now label 0 (kind.Upgrade from to)) }
{
    let object = weak_in(from, held(heap, from)?)?;
    unheld(heap, to)?;
    match object {
        Some(named) if is_alive(heap, named) => {
            Ok(Plan::hold(
                room.changes(),
                label,
                Answer::Yes,
                to,
                Slot::Strong(named),
                object,
            )?)
        }
        _ => Ok(Plan::hold(room.changes(), label, Answer::No, to, Slot::Nothing, object)?),
    }
}

/// `Arc::strong_count` and `Arc::weak_count`, or those of `Weak`
pub fn counts(alloc: Global, heap: &Heap, h: u32) -> Result<Plan, Stop>
    ensures { Tells result (row_in heap.now 0 0 (kind.Counts h)) }
{
    let object = counted_in(h, held(heap, h)?)?;
    Ok(Plan::say(alloc, Answer::Done, object))
}

/// `Arc::ptr_eq`
pub fn ptr_eq(alloc: Global, heap: &Heap, a: u32, b: u32) -> Result<Plan, Stop>
    ensures { Tells result (row_in heap.now 0 0 (kind.PtrEq a b)) }
{
    let one = held(heap, a)?;
    let other = held(heap, b)?;
    let object = strong_in(a, one)?;
    let another = strong_in(b, other)?;
    Ok(Plan::say(alloc, yes_if(object == another), Some(object)))
}
