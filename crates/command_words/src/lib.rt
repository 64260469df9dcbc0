//! The command that the words of the command line name.
#![tactic(auto)]

ghost use Rattle.std.specs.Prelude.{◌≡◌, map, string_bytes, IfOk, IfErr};
ghost use Rattle.clap.specs.Words.{app_of, subcommand_of};
ghost use Rattle.command_words.specs.Named.{Names, HasWorkers, IsRefused, IsFaultOf, scope_app};
ghost use Rattle.clap.specs.Values.{kind_of};

mod app;
mod matches;

use app::scope_command;
use clap::error::ErrorKind;
use matches::named;
use std::alloc::Global;
use thiserror::Error;
use trace_types::sequence::Sequence;

/// What the program is to do.
#[derive(Debug, PartialEq, Drop)]
pub enum Command {
    /// reads a trace and writes its report
    Replay,
    /// reads a trace and requests to edit it, and writes the replies and the report of the last version
    Script,
    /// reads a trace and one request to edit it, and writes the edited trace and its report
    Whatif,
    /// reads a trace and requests to edit it, submits those of each session on a thread of its own, and writes the replies and
    /// the report of the last version; two workers or more replay ahead what a request changes
    Race(u32),
    /// reads a trace and writes why objects are still there at its end: those with these numbers, or where there are none each cycle's
    /// least one and each husk; and whether the operations of their lives are told too
    Explain(Sequence<u32>, bool),
    /// reads a trace and writes its end as a graph in DOT: the objects with these numbers and what leads to them, or where there are none
    /// what leaked; and whether every object is shown
    Picture(Sequence<u32>, bool),
}

/// Why the words name no command.
#[derive(Debug, Drop, Error)]
pub enum WordsFault {
    /// The words are none that the program takes, or ask for help: the error's text is what is to be shown.
    #[error("{0}")]
    Usage(clap::Error),
    #[error("out of memory")]
    Memory,
}

/// The command that the words name, the first of which is the program's own name.
pub fn read_words(alloc: Global, words: &[String]) -> Result<Command, WordsFault>
    ensures named { IfOk result (Names (subcommand_of scope_app (map string_bytes words.now))) }
    ensures workers { IfOk result HasWorkers }
    ensures refused { IfErr result (IsRefused (map string_bytes words.now)) }
{
    match scope_command(alloc) {
        Ok(mut command) => command_among(alloc, &mut command, words),
        Err(_) => Err(WordsFault::Memory),
    }
}

// The command that clap finds in the words.
fn command_among<'a>(
    alloc: Global,
    command: &mut clap::Command<'a>,
    words: &'a [String],
) -> Result<Command, WordsFault>
    requires { app_of command.old ≡ scope_app }
    ensures named { IfOk result (Names (subcommand_of scope_app (map string_bytes words.now))) }
    ensures workers { IfOk result HasWorkers }
    ensures refused { IfErr result (IsRefused (map string_bytes words.now)) }
{
    let matches = match command.try_get_matches_from_mut(words) {
        Ok(matches) => matches,
        Err(error) => return Err(refusal(error)),
    };
    match named(alloc, &matches) {
        Ok(Some(named)) => Ok(named),
        Ok(None) => Err(unnamed(command)),
        Err(_) => Err(WordsFault::Memory),
    }
}

fn refusal(error: clap::Error) -> WordsFault
    ensures { IsFaultOf result (kind_of error) }
{
    match error.kind() {
        ErrorKind::OutOfMemory => WordsFault::Memory,
        _ => WordsFault::Usage(error),
    }
}

// The words name no command.
fn unnamed(command: &mut clap::Command<'_>) -> WordsFault {
    match command.error(ErrorKind::InvalidSubcommand, "no such command") {
        Ok(error) => WordsFault::Usage(error),
        Err(_) => WordsFault::Memory,
    }
}
