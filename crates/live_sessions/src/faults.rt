//! Why a call on a `Live` failed.
ghost use Rattle.std.specs.Prelude.{◌≡◌};
ghost use Rattle.live_sessions.specs.declared.faults.OpenFault.TheVariants as opening;
ghost use Rattle.live_sessions.specs.declared.faults.SubmitFault.TheVariants as asking;

use std::alloc::AllocError;
use thiserror::Error;

/// Why a `Live` was not opened.
#[derive(Clone, Copy, Debug, PartialEq, Eq, Error)]
pub enum OpenFault {
    #[error("no reader can be had for a place")]
    NoReader,
    #[error("out of memory")]
    Memory,
}

impl From<AllocError> for OpenFault {
    ghost from_gives = { λ _ fault. fault ≡ opening.Memory };

    fn from(_error: AllocError) -> OpenFault {
        OpenFault::Memory
    }
}

/// Why a request was not answered. Neither the pass nor the history has changed then.
#[derive(Clone, Copy, Debug, PartialEq, Eq, Error)]
pub enum SubmitFault {
    #[error("what the pass has seen does not begin the history")]
    NoMeeting,
    #[error("out of memory")]
    Memory,
}

impl From<AllocError> for SubmitFault {
    ghost from_gives = { λ _ fault. fault ≡ asking.Memory };

    fn from(_error: AllocError) -> SubmitFault {
        SubmitFault::Memory
    }
}

/// What was seen does not begin the history.
#[derive(Clone, Copy, Debug, PartialEq, Eq, Error)]
#[error("what was seen does not begin the history")]
pub struct NoMeeting;

/// All places are out.
#[derive(Clone, Copy, Debug, PartialEq, Eq, Error)]
#[error("all places are out")]
pub struct NoPlace;
