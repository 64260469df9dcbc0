//! What the members of an operation want of what is held: each question of the table, asked of plain lists.
ghost use Rattle.std.specs.FinMap as map;
ghost use Rattle.ownership_model.specs.View.{seen, elements_of};
ghost use Rattle.ownership_model.specs.View as View;
ghost use Rattle.ownership_model.specs.Table as Table;
ghost use Rattle.ownership_model.specs.Rows.{Asks, AsksBoth, Allows, found, found_fields};
ghost use Rattle.ownership_model.specs.Plain.{state_of};

use crate::plain::state::PlainState;
use crate::plain::view::fields_named;
use crate::plan::Stop;
use crate::questions::Fields;
use trace_types::kinds::Field;
use trace_types::outcomes::Reason;
use trace_types::slots::{Holding, Slot};

/// What the handle holds.
pub fn held(state: &PlainState, h: u32) -> Result<&Holding, Stop>
    ensures { Asks (found result) (Table.held h (map.get state.now.handles h)) }
{
    match state.handles.get(h) {
        Some(held) => Ok(held),
        None => Err(Stop::Skip(Reason::NotHeld(h))),
    }
}

/// The handle that is to be made is not held.
pub fn unheld(state: &PlainState, to: u32) -> Result<(), Stop>
    ensures { Allows result (Table.unheld to (map.get state.now.handles to)) }
{
    match state.handles.get(to) {
        None => Ok(()),
        Some(_) => Err(Stop::Skip(Reason::AlreadyHeld(to))),
    }
}

/// What the cell holds.
pub fn in_cell(state: &PlainState, c: u32) -> Result<Slot, Stop>
    ensures { Asks result (Table.in_cell c (map.get state.now.cells c)) }
{
    match state.cells.get(c) {
        Some(slot) => Ok(*slot),
        None => Err(Stop::Skip(Reason::NoCell(c))),
    }
}

/// The cell that is to be made is not there.
pub fn absent_cell(state: &PlainState, c: u32) -> Result<(), Stop>
    ensures { Allows result (Table.absent_cell c (map.get state.now.cells c)) }
{
    match state.cells.get(c) {
        None => Ok(()),
        Some(_) => Err(Stop::Skip(Reason::CellHeld(c))),
    }
}

/// The fields of the value that the handle's `Arc` keeps, with its object, or of the value that the handle holds itself.
pub fn fields_in<'a>(state: &'a PlainState, h: u32, held: &'a Holding) -> Result<Fields<'a>, Stop>
    ensures { AsksBoth (found_fields result)
        (Table.fields_in h held.now
        (seen (state_of state.now) (View.named_in (map.get state.now.handles h))).entry) }
{
    match held {
        Holding::Slot(Slot::Strong(object)) => Ok(Fields {
            owner: Some(*object),
            slots: fields_named(state, h),
        }),
        Holding::Bare(fields) => Ok(Fields {
            owner: None,
            slots: fields.as_slice(),
        }),
        Holding::Slot(Slot::Nothing | Slot::Weak(_) | Slot::Dangling) => {
            Err(Stop::Skip(Reason::WrongKind(h)))
        }
    }
}

/// All handles among the fields of a new object are held.
pub fn all_held(state: &PlainState, fields: &[Field]) -> Result<(), Stop>
    ensures { Allows result (Table.all_held
        (Table.first_unheld (elements_of (state_of state.now) fields.now))) }
{
    for field in fields {
        if let Field::Held(h) = field {
            if state.handles.get(*h).is_none() {
                return Err(Stop::Skip(Reason::NotHeld(*h)));
            }
        }
    }
    Ok(())
}

/// None of them holds a value outside any allocation.
pub fn all_slots(state: &PlainState, fields: &[Field]) -> Result<(), Stop>
    ensures { Allows result (Table.all_slots
        (Table.first_bare (elements_of (state_of state.now) fields.now))) }
{
    for field in fields {
        if let Field::Held(h) = field {
            if let Some(Holding::Bare(_)) = state.handles.get(*h) {
                return Err(Stop::Skip(Reason::WrongKind(*h)));
            }
        }
    }
    Ok(())
}
