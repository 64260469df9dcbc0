//! Objects and pointers that are made: new, new_cyclic, new_from, weak_new, null.
ghost use Rattle.std.specs.Prelude.{◌≡◌, IfOk};
ghost use Rattle.std.specs.FinMap as map;
ghost use Rattle.trace_types.specs.declared.kinds.Kind.TheVariants as kind;
ghost use Rattle.ownership_model.specs.View.{elements_of};
ghost use Rattle.ownership_model.specs.Table.{new_row, ending};
ghost use Rattle.ownership_model.specs.Table as Table;
ghost use Rattle.ownership_model.specs.Rows.{row_in, Tells};
ghost use Rattle.ownership_model.specs.Plain.{state_of};

use crate::effects::{copy_fields, push_make};
use crate::plain::state::PlainState;
use crate::plain::wants::{all_held, all_slots, held, unheld};
use crate::plan::{Plan, Stop};
use crate::questions::bare_in;
use std::alloc::{AllocError, Global};
use trace_types::kinds::Field;
use trace_types::outcomes::Answer;
use trace_types::sequence::Sequence;
use trace_types::slots::{Change, Holding, Slot};

/// `Arc::new`, `Arc::new_cyclic`
pub fn new(
    alloc: Global,
    state: &PlainState,
    label: u32,
    id: u32,
    to: u32,
    fields: &[Field],
) -> Result<Plan, Stop>
    ensures { Tells result (new_row label id to (elements_of (state_of state.now) fields.now)
        (map.get state.now.handles to)) }
{
    all_held(state, fields)?;
    all_slots(state, fields)?;
    unheld(state, to)?;
    let changes = making(alloc, state, label, id, fields, to)?;
    Ok(Plan::act(Answer::Made, changes, Vec::new(alloc), Some(id)))
}

/// `Arc::new` of a value that was moved out of another `Arc`
pub fn new_from(
    alloc: Global,
    state: &PlainState,
    label: u32,
    id: u32,
    from: u32,
    to: u32,
) -> Result<Plan, Stop>
    ensures { Tells result (row_in (state_of state.now) label id (kind.NewFrom from to)) }
{
    let fields = bare_in(from, held(state, from)?)?;
    unheld(state, to)?;
    let mut changes = vec![in alloc; Change::EndHandle(from)]?;
    push_make(&mut changes, label, id, copy_fields(alloc, fields)?, to)?;
    Ok(Plan::act(Answer::Made, changes, Vec::new(alloc), Some(id)))
}

/// `Weak::new`
pub fn weak_new(alloc: Global, state: &PlainState, label: u32, to: u32) -> Result<Plan, Stop>
    ensures { Tells result (row_in (state_of state.now) label 0 (kind.WeakNew to)) }
{
    unheld(state, to)?;
    Ok(Plan::hold(
        Vec::new(alloc),
        label,
        Answer::Done,
        to,
        Slot::Dangling,
        None,
    )?)
}

/// An empty pointer.
pub fn null(alloc: Global, state: &PlainState, label: u32, to: u32) -> Result<Plan, Stop>
    ensures { Tells result (row_in (state_of state.now) label 0 (kind.Null to)) }
{
    unheld(state, to)?;
    Ok(Plan::hold(
        Vec::new(alloc),
        label,
        Answer::Done,
        to,
        Slot::Nothing,
        None,
    )?)
}

// What the handles hold, in order.
fn made_fields(
    alloc: Global,
    state: &PlainState,
    id: u32,
    fields: &[Field],
) -> Result<Vec<Slot>, AllocError>
    ensures { IfOk result (λ v. v.items
        ≡ Table.made_fields id (elements_of (state_of state.now) fields.now)) }
{
    let mut made = Vec::new(alloc);
    for field in fields {
        made.push(match field {
            Field::Held(h) => slot_of(state, *h),
            Field::Null => Slot::Nothing,
            Field::Me => Slot::Weak(id),
        })?;
    }
    Ok(made)
}

fn slot_of(state: &PlainState, h: u32) -> Slot
    ensures { result ≡ Table.slot_of (map.get state.now.handles h) }
{
    match state.handles.get(h) {
        Some(Holding::Slot(slot)) => *slot,
        Some(Holding::Bare(_)) | None => Slot::Nothing,
    }
}

// The handles of the fields end, and the object comes to be.
fn making(
    alloc: Global,
    state: &PlainState,
    label: u32,
    id: u32,
    fields: &[Field],
    to: u32,
) -> Result<Vec<Change>, AllocError>
    ensures { IfOk result (λ v. let es = elements_of (state_of state.now) fields.now in v.items
        ≡ ending es (Table.make label id (Table.made_fields id es) to)) }
{
    let made = made_fields(alloc, state, id, fields)?;
    let mut changes = Vec::new(alloc);
    for field in fields {
        if let Field::Held(h) = field {
            changes.push(Change::EndHandle(*h))?;
        }
    }
    push_make(&mut changes, label, id, Sequence::from_vec(made), to)?;
    Ok(changes)
}
