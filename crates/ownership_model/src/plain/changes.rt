//! The changes of an operation, made on plain lists.
ghost use Rattle.std.specs.Prelude.{◌≡◌, IfOk, OnOk, slice_set};
ghost use Rattle.std.specs.Option.{option_copied};
ghost use Rattle.ownership_model.specs.Changes.{changed_by, changed};
ghost use Rattle.ownership_model.specs.Changes as Changes;
ghost use Rattle.ownership_model.specs.Plain.{state_of};

use crate::plain::scopes::{enter, leave};
use crate::plain::state::PlainState;
use std::alloc::AllocError;
use trace_types::sequence::Sequence;
use trace_types::slots::{Change, Entry, Slot};

impl PlainState {
    /// Makes the changes in order. Where memory runs out the state is unspecified: let it go.
    pub(crate) fn apply(&mut self, changes: &[Change]) -> Result<(), AllocError>
        ensures { OnOk result (state_of self.new ≡ changed (state_of self.old) changes.now) }
    {
        for change in changes {
            self.change(change)?;
        }
        Ok(())
    }

    fn change(&mut self, change: &Change) -> Result<(), AllocError>
        ensures { OnOk result (state_of self.new ≡ changed_by (state_of self.old) change.now) }
    {
        match change {
            Change::SetHandle(label, handle, held) => {
                if self.handles.get(*handle).is_none() {
                    enter(&mut self.scopes, *label, *handle)?;
                }
                self.handles.insert(*handle, held.clone()?)
            }
            Change::EndHandle(handle) => {
                leave(&mut self.scopes, *handle);
                Ok(self.handles.remove(*handle))
            }
            Change::SetCell(cell, slot) => self.cells.insert(*cell, *slot),
            Change::EndCell(cell) => Ok(self.cells.remove(*cell)),
            Change::SetField(object, index, slot) => {
                let entry = with_field(self.objects.get(*object), *index, *slot)?;
                self.objects.insert(*object, entry)
            }
            Change::Make(object, fields) => {
                self.objects.insert(*object, Entry::Alive(fields.clone()?))
            }
            Change::TurnHusk(object) => self.objects.insert(*object, Entry::Husk),
        }
    }
}

// The object with another slot in a field.
fn with_field(entry: Option<&Entry>, index: u32, slot: Slot) -> Result<Entry, AllocError>
    ensures { IfOk result (λ e. e ≡ Changes.with_field (option_copied entry.entry) index slot) }
{
    match entry {
        Some(Entry::Alive(fields)) => Ok(Entry::Alive(with_slot(fields.clone()?, index, slot))),
        Some(Entry::Husk) | None => Ok(Entry::Husk),
    }
}

// The fields, with another slot at an index, from 0, where there is one.
fn with_slot(fields: Sequence<Slot>, i: u32, slot: Slot) -> Sequence<Slot>
    ensures { result ≡ slice_set fields i slot }
{
    let mut items = fields.into_vec();
    if let Some(place) = items.get_mut(i as usize) {
        *place = slot;
    }
    Sequence::from_vec(items)
}
