//! What leaked: objects that no retain path leads to, and husks that weak slots keep.
use trace_types::sequence::Sequence;

/// A field that holds an object by a strong slot.
#[derive(Clone, Copy, Debug, PartialEq, Eq)]
pub struct Holder {
    /// The object that has the field.
    pub object: u32,
    /// The field's index, from 0.
    pub field: u32,
}

/// An object that is alive though no retain path leads to it.
#[derive(Debug, Drop)]
pub struct Leak {
    pub object: u32,
    /// All fields that hold it, rising by object and then by field.
    pub holders: Sequence<Holder>,
}

/// An allocation that is left though its value is gone.
#[derive(Clone, Copy, Debug, PartialEq, Eq)]
pub struct HuskLeft {
    pub object: u32,
    /// How many weak slots keep the allocation.
    pub weak: u64,
}

/// What a heap shows at the end of a replay.
#[derive(Debug, Drop)]
pub struct Leaks {
    /// Rising by object.
    pub leaked: Sequence<Leak>,
    /// Rising by object.
    pub husks: Sequence<HuskLeft>,
}
