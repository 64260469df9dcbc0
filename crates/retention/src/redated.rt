//! How slots get their dates.
ghost use Rattle.std.specs.Prelude.{◌≡◌, ℕ, Some, None, [], slice_get};
ghost use Rattle.retention_model.specs.Since.{is_same_slot};
ghost use Rattle.retention.specs.Dates.{dated_in, dated_field, field_place};
ghost use Rattle.retention.specs.Dates as definition;

use crate::dated::{Dated, DatedFields, DatedHolding, Owner};
use retention_model::Place;
use std::alloc::Global;
use trace_types::slots::Slot;

impl Owner {
    pub fn field(self, index: u32) -> Place
        ensures { result ≡ field_place self index }
    {
        match self {
            Owner::Handle(handle) => Place::Handle(handle, Some(index)),
            Owner::Object(object) => Place::Field(object, index),
        }
    }
}

impl DatedFields {
    /// No field. Takes no memory.
    pub fn none(alloc: Global) -> DatedFields
        ensures { result.slots.items ≡ [] }
    {
        DatedFields {
            slots: Vec::new(alloc),
        }
    }

    /// The fields of an object, which are none where nothing was kept of it.
    pub fn of(alloc: Global, fields: Option<DatedFields>) -> DatedFields
        ensures { (i : ℕ) → slice_get result.slots.items i ≡ dated_field fields i }
    {
        match fields {
            Some(fields) => fields,
            None => DatedFields::none(alloc),
        }
    }

    /// The field with an index, if it is there.
    pub fn get(&self, index: usize) -> Option<Dated>
        ensures { result ≡ slice_get self.now.slots.items index }
    {
        self.slots.get(index).copied()
    }
}

impl DatedHolding {
    /// What a handle held, which is nothing where nothing was kept of it.
    pub fn of(alloc: Global, holding: Option<DatedHolding>) -> DatedHolding
        ensures slot { result.slot ≡ dated_in holding None }
        ensures fields { (i : ℕ) →
            slice_get result.fields.slots.items i ≡ dated_in holding (Some i) }
    {
        match holding {
            Some(holding) => holding,
            None => DatedHolding {
                slot: None,
                fields: DatedFields::none(alloc),
            },
        }
    }
}

/// Whether both are the same slot.
pub fn is_same(slot: Slot, other: Slot) -> bool
    ensures { result ≡ is_same_slot slot other }
{
    match (slot, other) {
        (Slot::Nothing, Slot::Nothing) | (Slot::Dangling, Slot::Dangling) => true,
        (Slot::Strong(object), Slot::Strong(another)) | (Slot::Weak(object), Slot::Weak(another)) =>
            object == another,
        (Slot::Nothing | Slot::Strong(_) | Slot::Weak(_) | Slot::Dangling, _) => false,
    }
}

/// A slot in its place after an operation with this number: where it stood there before, the date stays.
pub fn redated(old: Option<Dated>, slot: Slot, id: u32) -> Dated
    ensures { result ≡ definition.redated old id slot }
{
    match old {
        Some(dated) if is_same(dated.slot, slot) => dated,
        Some(_) | None => Dated { slot, since: id },
    }
}

/// The same where there may be none.
pub fn redated_if(old: Option<Dated>, slot: Option<Slot>, id: u32) -> Option<Dated>
    ensures { result ≡ definition.redated_if old id slot }
{
    match slot {
        Some(slot) => Some(redated(old, slot, id)),
        None => None,
    }
}

/// The slot of a place, which holds nothing where it isn't there.
pub fn slot_of(dated: Option<Dated>) -> Slot
    ensures { result ≡ definition.slot_in dated }
{
    match dated {
        Some(dated) => dated.slot,
        None => Slot::Nothing,
    }
}
