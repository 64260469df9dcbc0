//! The scopes of threads, as a plain list, and the end of one: scope_end.
ghost use Rattle.std.specs.Prelude.{◌≡◌, ◌++◌, [], ◌∷◌, OnOk, IfOk, map};
ghost use Rattle.std.specs.Option.{option_copied};
ghost use Rattle.trace_types.specs.declared.kinds.Field.TheVariants as field;
ghost use Rattle.trace_types.specs.declared.kinds.Kind.TheVariants as kind;
ghost use Rattle.ownership_model.specs.Scopes.{scope_of, entered, left};
ghost use Rattle.ownership_model.specs.Places.{label_from};
ghost use Rattle.ownership_model.specs.View.{element_of, elements_of};
ghost use Rattle.ownership_model.specs.Table.{ending, holding_drops, held_drops};
ghost use Rattle.ownership_model.specs.Rows.{row_in, Tells};
ghost use Rattle.ownership_model.specs.Plain.{state_of};

use crate::effects::drops;
use crate::plain::state::PlainState;
use crate::plan::{Plan, Stop};
use std::alloc::{AllocError, Global};
use trace_types::kinds::Field;
use trace_types::outcomes::Answer;
use trace_types::slots::{Change, Holding, Item, Scoped};

/// A handle that is made enters the scope of the label, as the first to be dropped.
#[tactic(auto, using(crate::proofs::PlainScopes::entering))]
pub fn enter(scopes: &mut Vec<Scoped>, label: u32, handle: u32) -> Result<(), AllocError>
    ensures { OnOk result (scopes.new.items ≡ entered label handle scopes.old.items) }
{
    match place_in(scopes.as_slice(), label) {
        None => Ok(scopes.push(Scoped { label, handle })?),
        Some(place) => Ok(scopes.insert(place, Scoped { label, handle })?),
    }
}

// The first place with a label that is not below.
fn place_in(scopes: &[Scoped], label: u32) -> Option<usize>
    ensures { result ≡ label_from label 0 scopes.now }
{
    scopes.iter().position(|scoped| label <= scoped.label)
}

/// A handle that ends leaves its scope.
pub fn leave(scopes: &mut Vec<Scoped>, handle: u32)
    ensures { scopes.new.items ≡ left handle scopes.old.items }
{
    scopes.retain(|scoped| scoped.handle != handle);
}

/// The end of the label's scope.
pub fn scope_end(alloc: Global, state: &PlainState, label: u32) -> Result<Plan, Stop>
    ensures { Tells result (row_in (state_of state.now) label 0 kind.ScopeEnd) }
{
    let fields = scope_fields(alloc, state.scopes.as_slice(), label)?;
    let changes = ends(alloc, state, fields.as_slice())?;
    let pending = held_by(alloc, state, fields.as_slice())?;
    Ok(Plan::act(Answer::Done, changes, pending, None))
}

// The handles of the label's scope, the last made first, as an operation names handles.
fn scope_fields(alloc: Global, scopes: &[Scoped], label: u32) -> Result<Vec<Field>, AllocError>
    ensures { IfOk result (λ v. v.items ≡ map field.Held (scope_of label scopes.now)) }
{
    let mut fields = Vec::new(alloc);
    for scoped in scopes {
        if scoped.label == label {
            fields.push(Field::Held(scoped.handle))?;
        }
    }
    Ok(fields)
}

// The handles that are named end.
fn ends(alloc: Global, state: &PlainState, fields: &[Field]) -> Result<Vec<Change>, AllocError>
    ensures { IfOk result (λ v. v.items ≡ ending (elements_of (state_of state.now) fields.now) []) }
{
    let mut changes = Vec::new(alloc);
    for field in fields {
        if let Field::Held(h) = field {
            changes.push(Change::EndHandle(*h))?;
        }
    }
    Ok(changes)
}

// What the handles that are named hold, in order.
#[tactic(auto, using(crate::proofs::PlainScopes::held_next))]
fn held_by(alloc: Global, state: &PlainState, fields: &[Field]) -> Result<Vec<Item>, AllocError>
    ensures { IfOk result (λ v. v.items
        ≡ held_drops (elements_of (state_of state.now) fields.now)) }
{
    let mut pending = Vec::new(alloc);
    for field in fields {
        push_field(alloc, &mut pending, state, *field)?;
    }
    Ok(pending)
}

fn push_field(
    alloc: Global,
    pending: &mut Vec<Item>,
    state: &PlainState,
    field: Field,
) -> Result<(), AllocError>
    ensures { OnOk result (pending.new.items ≡ pending.old.items
        ++ held_drops (element_of (state_of state.now) field ∷ [])) }
{
    match field {
        Field::Held(h) => push_held(alloc, pending, state.handles.get(h)),
        Field::Null | Field::Me => Ok(()),
    }
}

// What a handle holds is to be dropped: its slot, or all fields of the value, in order.
fn push_held(
    alloc: Global,
    pending: &mut Vec<Item>,
    held: Option<&Holding>,
) -> Result<(), AllocError>
    ensures { OnOk result (pending.new.items ≡ pending.old.items
        ++ holding_drops (option_copied held.entry) []) }
{
    match held {
        Some(Holding::Slot(slot)) => Ok(pending.push(Item::Slot(*slot))?),
        Some(Holding::Bare(fields)) => {
            Ok(pending.extend_from_slice(&drops(alloc, fields.as_slice(), &[])?)?)
        }
        None => Ok(()),
    }
}
