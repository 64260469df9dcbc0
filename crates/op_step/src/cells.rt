//! Cells: cell_new, cell_load, cell_swap, cell_cas, cell_drop.
ghost use Rattle.trace_types.specs.declared.kinds.Kind.TheVariants as kind;
ghost use Rattle.ownership_model.specs.Rows.{row_in, Tells};

use crate::room::Room;
use crate::wants::{absent_cell, held, in_cell, unheld};
use object_heap::Heap;
use ownership_model::questions::{is_same_pointer, pointer_in};
use ownership_model::{Plan, Stop};
use trace_types::outcomes::Answer;
use trace_types::slots::{Change, Holding, Item};

/// `atomic<shared_ptr<T>>`'s constructor
pub fn cell_new(room: &mut Room, heap: &Heap, c: u32, from: u32) -> Result<Plan, Stop>
    ensures { Tells result (row_in heap.now 0 0 (kind.CellNew c from)) }
{
    let slot = pointer_in(from, held(heap, from)?)?;
    absent_cell(heap, c)?;
    let changes = room.both(Change::EndHandle(from), Change::SetCell(c, slot))?;
    Ok(Plan::act(Answer::Done, changes, room.nothing(), slot.object()))
}

/// `atomic<shared_ptr<T>>::load`
pub fn cell_load(room: &mut Room, heap: &Heap, label: u32, c: u32, to: u32) -> Result<Plan, Stop>
    ensures { Tells result (row_in heap.now label 0 (kind.CellLoad c to)) }
{
    let slot = in_cell(heap, c)?;
    unheld(heap, to)?;
    Ok(Plan::hold(room.changes(), label, Answer::Done, to, slot, slot.object())?)
}

/// `atomic<shared_ptr<T>>::exchange`, or `store` where there is no `to`
pub fn cell_swap(
    room: &mut Room,
    heap: &Heap,
    label: u32,
    c: u32,
    from: u32,
    to: Option<u32>,
) -> Result<Plan, Stop>
    ensures { Tells result (row_in heap.now label 0 (kind.CellSwap c from to)) }
{
    let old = in_cell(heap, c)?;
    let slot = pointer_in(from, held(heap, from)?)?;
    match to {
        None => {
            let changes = room.both(Change::EndHandle(from), Change::SetCell(c, slot))?;
            let pending = room.item(Item::Slot(old))?;
            Ok(Plan::act(Answer::Done, changes, pending, slot.object()))
        }
        Some(to) => {
            unheld(heap, to)?;
            let mut changes = room.both(Change::EndHandle(from), Change::SetCell(c, slot))?;
            changes.push(Change::SetHandle(label, to, Holding::Slot(old)))?;
            Ok(Plan::act(Answer::Done, changes, room.nothing(), slot.object()))
        }
    }
}

/// `atomic<shared_ptr<T>>::compare_exchange_strong`
pub fn cell_cas(
    room: &mut Room,
    heap: &Heap,
    label: u32,
    c: u32,
    expected: u32,
    desired: u32,
) -> Result<Plan, Stop>
    ensures { Tells result (row_in heap.now label 0 (kind.CellCas c expected desired)) }
{
    let old = in_cell(heap, c)?;
    let expected_held = held(heap, expected)?;
    let desired_held = held(heap, desired)?;
    let guess = pointer_in(expected, expected_held)?;
    let slot = pointer_in(desired, desired_held)?;
    // Where the guess is right, the cell takes the new pointer; else the guess becomes what the cell holds.
    if is_same_pointer(old, guess) {
        let changes = room.both(Change::EndHandle(desired), Change::SetCell(c, slot))?;
        let pending = room.item(Item::Slot(old))?;
        return Ok(Plan::act(Answer::Yes, changes, pending, slot.object()));
    }
    let taken = Change::SetHandle(label, expected, Holding::Slot(old));
    let changes = room.both(taken, Change::EndHandle(desired))?;
    let mut pending = room.item(Item::Slot(guess))?;
    pending.push(Item::Slot(slot))?;
    Ok(Plan::act(Answer::No, changes, pending, old.object()))
}

/// `atomic<shared_ptr<T>>`'s destructor
pub fn cell_drop(room: &mut Room, heap: &Heap, c: u32) -> Result<Plan, Stop>
    ensures { Tells result (row_in heap.now 0 0 (kind.CellDrop c)) }
{
    let slot = in_cell(heap, c)?;
    let changes = room.change(Change::EndCell(c))?;
    let pending = room.item(Item::Slot(slot))?;
    Ok(Plan::act(Answer::Done, changes, pending, slot.object()))
}
