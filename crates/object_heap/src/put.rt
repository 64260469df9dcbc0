//! Handles that are put into the middle of a scope, and fields that are set.
use trace_types::slots::{Holding, Slot};

/// A handle that is put into its scope, just above the first handle under it of those that are there then, or at the end.
#[derive(Debug, Drop)]
pub struct Put {
    pub label: u32,
    pub handle: u32,
    pub under: Option<u32>,
    pub holding: Holding,
}

/// A field of an object that is alive holds this.
#[derive(Clone, Copy, Debug, PartialEq, Eq)]
pub struct FieldPut {
    pub object: u32,
    pub index: u32,
    pub slot: Slot,
}
