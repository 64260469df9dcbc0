//! Slots with their dates.
ghost use Rattle.std.specs.Prelude.{◌≤◌, length};
ghost use Rattle.trace_types.specs.declared.limits.TheConstants.{MAX_FIELDS};

use trace_types::limits::MAX_FIELDS;
use trace_types::slots::Slot;

/// A slot with the operation since which its place holds it.
#[derive(Clone, Copy, Debug, PartialEq, Eq)]
pub struct Dated {
    pub slot: Slot,
    pub since: u32,
}

/// The fields of a value, in order.
#[derive(Drop)]
pub struct DatedFields {
    pub slots: Vec<Dated>,
    ghost few: { length slots.items ≤ MAX_FIELDS },
}

/// What a handle holds: the slot itself, or the fields of a value.
#[derive(Drop)]
pub struct DatedHolding {
    pub slot: Option<Dated>,
    pub fields: DatedFields,
}

/// Whose fields are meant.
#[derive(Clone, Copy)]
pub enum Owner {
    Handle(u32),
    Object(u32),
}
