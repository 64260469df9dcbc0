//! Values that one handle alone keeps: try_unwrap, into_inner, get_mut, make_mut.
ghost use Rattle.trace_types.specs.declared.kinds.Kind.TheVariants as kind;
ghost use Rattle.ownership_model.specs.Bounds.{IsBounded};
ghost use Rattle.ownership_model.specs.Rows.{row_in, Tells};
ghost use Rattle.ownership_model.specs.Plain.{state_of};

use crate::effects::{copy_fields, push_make, unwrapped};
use crate::plain::state::PlainState;
use crate::plain::view::{fields_named, strong_named, weak_named};
use crate::plain::wants::held;
use crate::plan::{Plan, Stop, yes_if};
use crate::questions::strong_in;
use std::alloc::Global;
use trace_types::outcomes::{Answer, Event};
use trace_types::slots::{Change, Holding, Item, Slot};

/// `Arc::try_unwrap`
pub fn try_unwrap(alloc: Global, state: &PlainState, label: u32, h: u32) -> Result<Plan, Stop>
    requires { IsBounded (state_of state.now) }
    ensures { Tells result (row_in (state_of state.now) label 0 (kind.TryUnwrap h)) }
{
    let object = strong_in(h, held(state, h)?)?;
    if strong_named(state, h) != 1 {
        return Ok(Plan::say(alloc, Answer::No, Some(object)));
    }
    Ok(unwrapped(alloc, label, h, object, fields_named(state, h))?)
}

/// `Arc::into_inner`
pub fn into_inner(alloc: Global, state: &PlainState, label: u32, h: u32) -> Result<Plan, Stop>
    requires { IsBounded (state_of state.now) }
    ensures { Tells result (row_in (state_of state.now) label 0 (kind.IntoInner h)) }
{
    let object = strong_in(h, held(state, h)?)?;
    if strong_named(state, h) != 1 {
        let changes = vec![in alloc; Change::SetHandle(label, h, Holding::Slot(Slot::Nothing))]?;
        let pending = vec![in alloc; Item::Slot(Slot::Strong(object))]?;
        return Ok(Plan::act(Answer::No, changes, pending, Some(object)));
    }
    Ok(unwrapped(alloc, label, h, object, fields_named(state, h))?)
}

/// `Arc::get_mut`
pub fn get_mut(alloc: Global, state: &PlainState, h: u32) -> Result<Plan, Stop>
    requires { IsBounded (state_of state.now) }
    ensures { Tells result (row_in (state_of state.now) 0 0 (kind.GetMut h)) }
{
    let object = strong_in(h, held(state, h)?)?;
    let is_only = strong_named(state, h) == 1 && weak_named(state, h) == 0;
    Ok(Plan::say(alloc, yes_if(is_only), Some(object)))
}

/// `Arc::make_mut`
pub fn make_mut(
    alloc: Global,
    state: &PlainState,
    label: u32,
    id: u32,
    h: u32,
) -> Result<Plan, Stop>
    requires { IsBounded (state_of state.now) }
    ensures { Tells result (row_in (state_of state.now) label id (kind.MakeMut h)) }
{
    let object = strong_in(h, held(state, h)?)?;
    let fields = fields_named(state, h);
    if strong_named(state, h) != 1 {
        let mut changes = Vec::new(alloc);
        push_make(&mut changes, label, id, copy_fields(alloc, fields)?, h)?;
        let pending = vec![in alloc; Item::Slot(Slot::Strong(object))]?;
        return Ok(Plan::act(Answer::Cloned, changes, pending, Some(id)));
    }
    if weak_named(state, h) != 0 {
        let mut changes = vec![in alloc; Change::TurnHusk(object)]?;
        push_make(&mut changes, label, id, copy_fields(alloc, fields)?, h)?;
        return Ok(Plan::act_naming(
            Answer::Moved,
            changes,
            Event::Moved(object),
            Vec::new(alloc),
            id,
        ));
    }
    Ok(Plan::say(alloc, Answer::Unique, Some(object)))
}
