//! Why a batch of edits is refused.
ghost use Rattle.std.specs.Prelude.{◌≡◌};
ghost use Rattle.run_engine.specs.declared.editing.faults.RunFault.TheVariants.{Memory};
ghost use Rattle.run_engine.specs.Edited.{refusal_of};

use std::alloc::AllocError;
use thiserror::Error;

/// Why a batch of edits is refused. The first three have the edit's index, from 0.
///
/// The size of the batch is tried first. Then the edits are tried in order.
#[derive(Clone, Copy, Debug, PartialEq, Eq)]
pub enum Refusal {
    NoSuchOp(u64),
    IdTaken(u64),
    TooMany(u64),
    EmptyBatch,
    TooManyEdits,
}

/// Why a batch of edits is not made: it is refused, or memory ran out. The first three have the edit's index, from 0.
///
/// The size of the batch is tried first, which takes no memory. Then the edits are tried in order.
#[derive(Clone, Copy, Debug, PartialEq, Eq, Error)]
pub enum RunFault {
    #[error("edit {0}: no operation has this number")]
    NoSuchOp(u64),
    #[error("edit {0}: an operation has this number")]
    IdTaken(u64),
    #[error("edit {0}: the trace is full")]
    TooMany(u64),
    #[error("the batch has no edit")]
    EmptyBatch,
    #[error("the batch has too many edits")]
    TooManyEdits,
    #[error("out of memory")]
    Memory,
}

impl RunFault {
    /// The refusal that it tells; none where memory ran out.
    pub fn refusal(&self) -> Option<Refusal>
        ensures { result ≡ refusal_of self.now }
    {
        match self {
            RunFault::NoSuchOp(edit) => Some(Refusal::NoSuchOp(*edit)),
            RunFault::IdTaken(edit) => Some(Refusal::IdTaken(*edit)),
            RunFault::TooMany(edit) => Some(Refusal::TooMany(*edit)),
            RunFault::EmptyBatch => Some(Refusal::EmptyBatch),
            RunFault::TooManyEdits => Some(Refusal::TooManyEdits),
            RunFault::Memory => None,
        }
    }
}

impl From<AllocError> for RunFault {
    ghost from_gives = { λ _ fault. fault ≡ Memory };

    fn from(_error: AllocError) -> RunFault {
        RunFault::Memory
    }
}
