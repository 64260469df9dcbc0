//! Serving a command: all of the input in, and then the whole text that is due out.
ghost use Rattle.std.specs.Prelude.{◌≡◌, ◌≢◌, ℕ, List, [], true, IfOk, IsErr};
ghost use Rattle.std.specs.Io.KnownBytes.{Appends};
ghost use Rattle.command_serve.specs.declared.due.Due.{Due};
ghost use Rattle.command_serve.specs.Serve.{Serves, IsWritten};

use crate::due::{Due, too_long};
use crate::exits::Exit;
use crate::input::{InputFault, read_all};
use std::alloc::{AllocError, Global};
use trace_types::devices::{Sink, Source, write_all};

/// What a command writes for an input.
pub trait Answers {
    /// This is due for an input that is not too long.
    ghost IsDue: { Self → List ℕ → Due → Type 0 };

    /// Makes what is due for an input, which may be let go once it is read.
    fn answer(&self, alloc: Global, input: Vec<u8>) -> Result<Due, AllocError>
        ensures { IfOk result (IsDue self.now input.items) };
}

/// Reads all input, and writes what the command has due for it.
///
/// The whole text is made before any of it is written, so that nothing is written where the source fails or memory is
/// wanting.
#[tactic(auto, using(crate::proofs::Served::unread, crate::proofs::Served::unmade))]
pub fn serve<C: Answers, S: Source, K: Sink>(
    command: &C,
    alloc: Global,
    source: &mut S,
    sink: &mut K,
) -> Exit
    ensures { Serves (C.IsDue command.now) S.Source source.old source.new
        K.Sink sink.old sink.new result }
{
    match read_all(alloc, source) {
        Ok(input) => write_due(sink, command.answer(alloc, input)),
        Err(InputFault::TooLong) => write_due(sink, too_long(alloc)),
        Err(InputFault::Device) => Exit::Device,
        Err(InputFault::Memory) => Exit::Memory,
    }
}

/// Writes the whole text, or nothing where there was no memory for it, and tells how the command ends.
pub fn write_due<K: Sink>(sink: &mut K, due: Result<Due, AllocError>) -> Exit
    ensures written { IfOk due (λ d. IsWritten d (K.held sink.old) (K.held sink.new) result) }
    ensures memory { IsErr due
        → (result ≡ Exit.Memory) × Appends (K.held sink.old) (K.held sink.new) [] }
    ensures device { result ≡ Exit.Device → K.failed sink.new ≡ true }
    ensures other { result ≢ Exit.Device → K.failed sink.new ≡ K.failed sink.old }
{
    let Ok(due) = due else {
        return Exit::Memory;
    };
    match write_all(sink, due.text.as_slice()) {
        Ok(()) => due.exit(),
        Err(_) => Exit::Device,
    }
}
