//! Fields: set, take, get.
//!
//! The fields of an object that a handle keeps, or of the value that it holds itself.
ghost use Rattle.trace_types.specs.declared.kinds.Kind.TheVariants as kind;
ghost use Rattle.ownership_model.specs.Rows.{row_in, Tells};
ghost use Rattle.ownership_model.specs.Plain.{state_of};

use crate::plain::state::PlainState;
use crate::plain::wants::{fields_in, held, unheld};
use crate::plan::{Plan, Stop};
use crate::questions::{field_at, slot_in};
use std::alloc::Global;
use trace_types::outcomes::Answer;
use trace_types::slots::{Change, Holding, Item, Slot};

/// A field takes what a handle holds
pub fn set(
    alloc: Global,
    state: &PlainState,
    label: u32,
    h: u32,
    i: u32,
    from: u32,
) -> Result<Plan, Stop>
    ensures { Tells result (row_in (state_of state.now) label 0 (kind.Set h i from)) }
{
    let owner_held = held(state, h)?;
    let source = held(state, from)?;
    let fields = fields_in(state, h, owner_held)?;
    let slot = slot_in(from, source)?;
    let old = field_at(i, fields.slots)?;
    let written = fields.write(alloc, label, h, i, slot)?;
    let changes = vec![in alloc; Change::EndHandle(from), written]?;
    let pending = vec![in alloc; Item::Slot(old)]?;
    Ok(Plan::act(Answer::Done, changes, pending, fields.owner))
}

/// A field is moved out, and an empty pointer is left
pub fn take(
    alloc: Global,
    state: &PlainState,
    label: u32,
    h: u32,
    i: u32,
    to: u32,
) -> Result<Plan, Stop>
    ensures { Tells result (row_in (state_of state.now) label 0 (kind.Take h i to)) }
{
    let fields = fields_in(state, h, held(state, h)?)?;
    let slot = field_at(i, fields.slots)?;
    unheld(state, to)?;
    let written = fields.write(alloc, label, h, i, Slot::Nothing)?;
    let changes = vec![in alloc; Change::SetHandle(label, to, Holding::Slot(slot)), written]?;
    Ok(Plan::act(Answer::Done, changes, Vec::new(alloc), fields.owner))
}

/// A field is cloned
pub fn get(
    alloc: Global,
    state: &PlainState,
    label: u32,
    h: u32,
    i: u32,
    to: u32,
) -> Result<Plan, Stop>
    ensures { Tells result (row_in (state_of state.now) label 0 (kind.Get h i to)) }
{
    let fields = fields_in(state, h, held(state, h)?)?;
    let slot = field_at(i, fields.slots)?;
    unheld(state, to)?;
    Ok(Plan::hold(Vec::new(alloc), label, Answer::Done, to, slot, fields.owner)?)
}
