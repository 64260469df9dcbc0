//! Where a slot can stand.
ghost use Rattle.std.specs.Prelude.{◌≡◌};
ghost use Rattle.retention_model.specs.Places.{kind_of, owner_of, rank_of};

use trace_types::slots::Slot;

/// A place that may hold a slot.
#[derive(Clone, Copy, Debug, PartialEq, Eq)]
pub enum Place {
    /// A handle, or with an index, from 0, a field of the value that the handle itself holds.
    Handle(u32, Option<u32>),
    Cell(u32),
    /// A field of an object whose value lives, by object and index from 0.
    Field(u32, u32),
}

/// A place with the slot that it holds, and the operation since which it does.
#[derive(Clone, Copy, Debug, PartialEq, Eq)]
pub struct Held {
    pub place: Place,
    pub slot: Slot,
    pub since: u32,
}

impl Place {
    /// What places are ordered by: handles before cells before fields, then their numbers, and then the field, behind the slot itself.
    pub fn order(self) -> (u8, u32, u64)
        ensures { result ≡ (kind_of self, owner_of self, rank_of self) }
    {
        match self {
            Place::Handle(handle, None) => (0, handle, 0),
            Place::Handle(handle, Some(index)) => (0, handle, index as u64 + 1),
            Place::Cell(cell) => (1, cell, 0),
            Place::Field(object, index) => (2, object, index as u64),
        }
    }
}
