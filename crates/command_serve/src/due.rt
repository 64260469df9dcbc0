//! What a command has to write for an input.
ghost use Rattle.std.specs.Prelude.{◌≡◌, ◌≢◌, false, true, string_bytes, IfOk, OnOk};
ghost use Rattle.command_serve.specs.Serve.{exit_of, fault_due, too_long};

use crate::exits::Exit;
use retention_report::Answer;
use std::alloc::{AllocError, Global};
use trace_reader::{LineCause, LineFault, fault_line};
use trace_types::sequence::Sequence;

/// The whole text for an input, and whether it tells a fault: of the input, or of what was asked of it.
#[derive(Drop)]
pub struct Due {
    pub text: Sequence<u8>,
    pub is_fault: bool,
}

impl Due {
    /// The text that answers the input.
    pub fn answer(text: Vec<u8>) -> Due
        ensures { result ≡ record { text = text.items; is_fault = false } }
    {
        Due {
            text: Sequence::from_vec(text),
            is_fault: false,
        }
    }

    /// The text that tells a fault of the input.
    pub fn fault(text: Vec<u8>) -> Due
        ensures { result ≡ record { text = text.items; is_fault = true } }
    {
        Due {
            text: Sequence::from_vec(text),
            is_fault: true,
        }
    }

    /// The text that answers the input, or the line that tells an object that isn't there.
    pub fn of_answer(answer: Answer) -> Due
        ensures { result ≡ record {
          text = string_bytes answer.text;
          is_fault = answer.is_missing;
        } }
    {
        Due {
            text: Sequence::from_vec(answer.text.into_bytes()),
            is_fault: answer.is_missing,
        }
    }

    /// How a command ends that has written it.
    pub fn exit(&self) -> Exit
        ensures { result ≡ exit_of self.now }
    {
        if self.is_fault {
            Exit::Trace
        } else {
            Exit::Fine
        }
    }
}

/// The line that tells the first faulty line, unless memory ran out there.
pub fn fault_due(alloc: Global, fault: &LineFault) -> Result<Due, AllocError>
    ensures cause { OnOk result (fault.now.cause ≢ LineCause.Memory) }
    ensures due { IfOk result (λ d. d ≡ fault_due fault.now) }
{
    if fault.cause == LineCause::Memory {
        return Err(AllocError);
    }
    let line = fault_line(alloc, fault)?;
    Ok(Due::fault(line.into_bytes()))
}

/// The line that tells that the input is too long.
pub fn too_long(alloc: Global) -> Result<Due, AllocError>
    ensures { IfOk result (λ d. d ≡ too_long) }
{
    Ok(Due::fault(Vec::from_slice(alloc, b"fault input TooLong\n")?))
}
