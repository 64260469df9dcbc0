//! Cells: cell_new, cell_load, cell_swap, cell_cas, cell_drop.
ghost use Rattle.trace_types.specs.declared.kinds.Kind.TheVariants as kind;
ghost use Rattle.ownership_model.specs.Rows.{row_in, Tells};
ghost use Rattle.ownership_model.specs.Plain.{state_of};

use crate::plain::state::PlainState;
use crate::plain::wants::{absent_cell, held, in_cell, unheld};
use crate::plan::{Plan, Stop};
use crate::questions::{is_same_pointer, pointer_in};
use std::alloc::Global;
use trace_types::outcomes::Answer;
use trace_types::slots::{Change, Holding, Item, Slot};

/// `atomic<shared_ptr<T>>`'s constructor
pub fn cell_new(alloc: Global, state: &PlainState, c: u32, from: u32) -> Result<Plan, Stop>
    ensures { Tells result (row_in (state_of state.now) 0 0 (kind.CellNew c from)) }
{
    let slot = pointer_in(from, held(state, from)?)?;
    absent_cell(state, c)?;
    let changes = vec![in alloc; Change::EndHandle(from), Change::SetCell(c, slot)]?;
    Ok(Plan::act(Answer::Done, changes, Vec::new(alloc), slot.object()))
}

/// `atomic<shared_ptr<T>>::load`
pub fn cell_load(
    alloc: Global,
    state: &PlainState,
    label: u32,
    c: u32,
    to: u32,
) -> Result<Plan, Stop>
    ensures { Tells result (row_in (state_of state.now) label 0 (kind.CellLoad c to)) }
{
    let slot = in_cell(state, c)?;
    unheld(state, to)?;
    Ok(Plan::hold(
        Vec::new(alloc),
        label,
        Answer::Done,
        to,
        slot,
        slot.object(),
    )?)
}

/// `atomic<shared_ptr<T>>::exchange`, or `store` where there is no `to`
pub fn cell_swap(
    alloc: Global,
    state: &PlainState,
    label: u32,
    c: u32,
    from: u32,
    to: Option<u32>,
) -> Result<Plan, Stop>
    ensures { Tells result (row_in (state_of state.now) label 0 (kind.CellSwap c from to)) }
{
    let old = in_cell(state, c)?;
    let slot = pointer_in(from, held(state, from)?)?;
    let mut changes = vec![in alloc; Change::EndHandle(from), Change::SetCell(c, slot)]?;
    match to {
        None => {
            let pending = vec![in alloc; Item::Slot(old)]?;
            Ok(Plan::act(Answer::Done, changes, pending, slot.object()))
        }
        Some(to) => {
            unheld(state, to)?;
            changes.push(Change::SetHandle(label, to, Holding::Slot(old)))?;
            Ok(Plan::act(Answer::Done, changes, Vec::new(alloc), slot.object()))
        }
    }
}

/// `atomic<shared_ptr<T>>::compare_exchange_strong`
pub fn cell_cas(
    alloc: Global,
    state: &PlainState,
    label: u32,
    c: u32,
    expected: u32,
    desired: u32,
) -> Result<Plan, Stop>
    ensures { Tells result (row_in (state_of state.now) label 0 (kind.CellCas c expected desired)) }
{
    let old = in_cell(state, c)?;
    let expected_held = held(state, expected)?;
    let desired_held = held(state, desired)?;
    let guess = pointer_in(expected, expected_held)?;
    let slot = pointer_in(desired, desired_held)?;
    // Where the guess is right, the cell takes the new pointer; else the guess becomes what the cell holds.
    if is_same_pointer(old, guess) {
        let changes = vec![in alloc; Change::EndHandle(desired), Change::SetCell(c, slot)]?;
        let pending = vec![in alloc; Item::Slot(old)]?;
        return Ok(Plan::act(Answer::Yes, changes, pending, slot.object()));
    }
    let changes = vec![in alloc;
        Change::SetHandle(label, expected, Holding::Slot(old)),
        Change::EndHandle(desired),
    ]?;
    let pending = vec![in alloc; Item::Slot(guess), Item::Slot(slot)]?;
    Ok(Plan::act(Answer::No, changes, pending, old.object()))
}

/// `atomic<shared_ptr<T>>`'s destructor
pub fn cell_drop(alloc: Global, state: &PlainState, c: u32) -> Result<Plan, Stop>
    ensures { Tells result (row_in (state_of state.now) 0 0 (kind.CellDrop c)) }
{
    let slot = in_cell(state, c)?;
    let changes = vec![in alloc; Change::EndCell(c)]?;
    let pending = vec![in alloc; Item::Slot(slot)]?;
    Ok(Plan::act(Answer::Done, changes, pending, slot.object()))
}
