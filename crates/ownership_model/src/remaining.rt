//! Objects that nothing can reach any more.
use trace_types::slots::Entry;

/// What stands for an object that can't be reached, and how often slots name it.
#[derive(Debug, Drop)]
pub struct Remaining {
    pub entry: Entry,
    pub strong: u64,
    pub weak: u64,
}
