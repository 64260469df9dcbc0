//! What can be wrong with a line, and the text that tells it.
ghost use Rattle.std.specs.Prelude.{◌≡◌, ◌++◌, ◌∷◌, [], Some, IfOk, string_bytes};
ghost use Rattle.trace_reader.specs.declared.fault.LineCause.TheVariants.{Memory};
ghost use Rattle.trace_reader.specs.FaultText.{cause_text, fault_text};

use std::alloc::{AllocError, Global};
use std::fmt;
use thiserror::Error;

/// What is wrong with a line. The causes of a line are tried in this order, save that `Missing`, `WrongType`,
/// `OutOfRange` and `UnknownOp` are tried for one member after the other, and that memory may run out at any point.
#[derive(Clone, Copy, Debug, PartialEq, Eq, Error)]
pub enum LineCause {
    /// more than `MAX_LINE` bytes without the newline
    LineTooLong,
    /// no JSON text, or no UTF-8
    NotJson,
    /// another value than an object
    NotObject,
    /// a member isn't there
    Missing,
    /// a member, or an element of `fields` or `edits`, is of another type than is wanted
    WrongType,
    /// `op` or `edit` is a text, but names no operation or edit
    UnknownOp,
    /// a number is outside its range, or there are more than `MAX_FIELDS` fields
    OutOfRange,
    /// an earlier operation has the number
    IdTaken,
    /// the trace is full, or a request is one too many
    TooMany,
    /// memory ran out
    Memory,
}

impl From<AllocError> for LineCause {
    ghost from_gives = { λ _ cause. cause ≡ Memory };

    fn from(_error: AllocError) -> LineCause {
        LineCause::Memory
    }
}

impl fmt::Display for LineCause {
    ghost output = { λ c. Some (cause_text c) };

    fn fmt<W: fmt::Write>(&self, f: &mut fmt::Formatter<W>) -> fmt::Result {
        f.write_str(match self {
            LineCause::LineTooLong => "LineTooLong",
            LineCause::NotJson => "NotJson",
            LineCause::NotObject => "NotObject",
            LineCause::Missing => "Missing",
            LineCause::WrongType => "WrongType",
            LineCause::UnknownOp => "UnknownOp",
            LineCause::OutOfRange => "OutOfRange",
            LineCause::IdTaken => "IdTaken",
            LineCause::TooMany => "TooMany",
            LineCause::Memory => "Memory",
        })
    }
}

/// The first faulty line, counted from 1, blank lines too, and its cause.
#[derive(Clone, Copy, Debug, PartialEq, Eq, Error)]
pub struct LineFault {
    pub line: usize,
    pub cause: LineCause,
}

impl fmt::Display for LineFault {
    ghost output = { λ f. Some (fault_text f) };

    fn fmt<W: fmt::Write>(&self, f: &mut fmt::Formatter<W>) -> fmt::Result {
        let line = self.line;
        let cause = self.cause;
        write!(f, "fault line {line} {cause}")
    }
}

/// The line that tells the fault, with its newline: `fault line <line> <cause>`.
pub fn fault_line(alloc: Global, fault: &LineFault) -> Result<String, AllocError>
    ensures { IfOk result (λ s. string_bytes s ≡ fault_text fault.now ++ 10 ∷ []) }
{
    format!(in alloc; "{fault}\n")
}
