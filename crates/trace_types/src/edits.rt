//! Changes of a trace.
use crate::ops::Op;
use crate::sequence::Sequence;

/// One change of a trace. Operations go by their numbers.
#[derive(Clone, Debug, Drop)]
pub enum Edit {
    /// The operation comes right after operation `after`, or at the front where that is 0.
    Insert { after: u32, op: Op },
    /// The operation goes.
    Remove { id: u32 },
    /// The operation stands in the place of operation `id`. It may have another number.
    Change { id: u32, op: Op },
}

/// Changes that are made in order, each to the result of those before it.
pub type Batch = Sequence<Edit>;
