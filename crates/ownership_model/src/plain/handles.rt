//! Handles: clone, drop, downgrade, upgrade, counts, ptr_eq.
ghost use Rattle.trace_types.specs.declared.kinds.Kind.TheVariants as kind;
ghost use Rattle.ownership_model.specs.Rows.{row_in, Tells};
ghost use Rattle.ownership_model.specs.Plain.{state_of};

use crate::effects::drops;
use crate::plain::state::PlainState;
use crate::plain::view::is_alive_named;
use crate::plain::wants::{held, unheld};
use crate::plan::{Plan, Stop, yes_if};
use crate::questions::{counted_in, slot_in, strong_in, weak_in};
use std::alloc::Global;
use trace_types::outcomes::Answer;
use trace_types::slots::{Change, Holding, Item, Slot};

/// `Arc::clone`, `Weak::clone`
pub fn clone(
    alloc: Global,
    state: &PlainState,
    label: u32,
    from: u32,
    to: u32,
) -> Result<Plan, Stop>
    ensures { Tells result (row_in (state_of state.now) label 0 (kind.Clone from to)) }
{
    let slot = slot_in(from, held(state, from)?)?;
    unheld(state, to)?;
    Ok(Plan::hold(
        Vec::new(alloc),
        label,
        Answer::Done,
        to,
        slot,
        slot.object(),
    )?)
}

/// `drop`
pub fn drop(alloc: Global, state: &PlainState, h: u32) -> Result<Plan, Stop>
    ensures { Tells result (row_in (state_of state.now) 0 0 (kind.Drop h)) }
{
    let held = held(state, h)?;
    let changes = vec![in alloc; Change::EndHandle(h)]?;
    match held {
        Holding::Slot(slot) => {
            let pending = vec![in alloc; Item::Slot(*slot)]?;
            Ok(Plan::act(Answer::Done, changes, pending, slot.object()))
        }
        Holding::Bare(fields) => {
            let pending = drops(alloc, fields.as_slice(), &[])?;
            Ok(Plan::act(Answer::Done, changes, pending, None))
        }
    }
}

/// `Arc::downgrade`
pub fn downgrade(
    alloc: Global,
    state: &PlainState,
    label: u32,
    from: u32,
    to: u32,
) -> Result<Plan, Stop>
    ensures { Tells result (row_in (state_of state.now) label 0 (kind.Downgrade from to)) }
{
    let object = strong_in(from, held(state, from)?)?;
    unheld(state, to)?;
    Ok(Plan::hold(
        Vec::new(alloc),
        label,
        Answer::Done,
        to,
        Slot::Weak(object),
        Some(object),
    )?)
}

/// `Weak::upgrade`
pub fn upgrade(
    alloc: Global,
    state: &PlainState,
    label: u32,
    from: u32,
    to: u32,
) -> Result<Plan, Stop>
    ensures { Tells result (row_in (state_of state.now) label 0 (kind.Upgrade from to)) }
{
    let object = weak_in(from, held(state, from)?)?;
    unheld(state, to)?;
    match object {
        Some(named) if is_alive_named(state, from) => {
            Ok(Plan::hold(
                Vec::new(alloc),
                label,
                Answer::Yes,
                to,
                Slot::Strong(named),
                object,
            )?)
        }
        _ => Ok(Plan::hold(
            Vec::new(alloc),
            label,
            Answer::No,
            to,
            Slot::Nothing,
            object,
        )?),
    }
}

/// `Arc::strong_count` and `Arc::weak_count`, or those of `Weak`
pub fn counts(alloc: Global, state: &PlainState, h: u32) -> Result<Plan, Stop>
    ensures { Tells result (row_in (state_of state.now) 0 0 (kind.Counts h)) }
{
    let object = counted_in(h, held(state, h)?)?;
    Ok(Plan::say(alloc, Answer::Done, object))
}

/// `Arc::ptr_eq`
pub fn ptr_eq(alloc: Global, state: &PlainState, a: u32, b: u32) -> Result<Plan, Stop>
    ensures { Tells result (row_in (state_of state.now) 0 0 (kind.PtrEq a b)) }
{
    let one = held(state, a)?;
    let other = held(state, b)?;
    let object = strong_in(a, one)?;
    let another = strong_in(b, other)?;
    Ok(Plan::say(alloc, yes_if(object == another), Some(object)))
}
