//! The debugger: runs the command that the words of the command line name, over standard input and output.
#![tactic(auto)]

ghost use Rattle.std.specs.Prelude.{◌≡◌, map, string_bytes, IfOk, IfErr, OnErr};
ghost use Rattle.clap.specs.Words.{subcommand_of};
ghost use Rattle.command_words.specs.Named.{Names, IsRefused, scope_app};
ghost use Rattle.command_words.specs.declared.Command.{Command};
ghost use Rattle.command_serve.specs.Serve.{Serves};
ghost use Rattle.arc_scope.specs.Commands.{IsDueBy};

mod commands;

use command_serve::Exit;
use command_words::{WordsFault, read_words};
use commands::serve_command;
use std::alloc::Global;
use std::process::ExitCode;
use std::sync::Wait;
use std::thread::Threads;
use std::{env, io};
use trace_types::devices::{Sink, Source, StdSink, StdSource};

fn main(rt: HostRuntime) -> ExitCode {
    ExitCode::from(run(&rt, &rt).status())
}

// `threads` is the runtime too, as the one that may start threads.
fn run<R: Threads + Wait + Sync>(rt: &HostRuntime, threads: &R) -> Exit {
    let words = match words(rt) {
        Ok(words) => words,
        Err(exit) => return exit,
    };
    let mut source = StdSource::new(rt.reader());
    let mut sink = StdSink::new(io::writer(rt));
    match serve(
        threads,
        rt.alloc(),
        words.as_slice(),
        &mut source,
        &mut sink,
    ) {
        Ok(exit) => exit,
        Err(WordsFault::Usage(error)) => {
            // The status says it too, so a standard error that can't be written to changes nothing.
            let _ = eprint!(rt; "{error}");
            Exit::Usage
        }
        Err(WordsFault::Memory) => Exit::Memory,
    }
}

fn words(rt: &HostRuntime) -> Result<Vec<String>, Exit> {
    match env::args(rt) {
        Ok(args) => args.collect(rt.alloc()).map_err(|_| Exit::Memory),
        Err(error) => Err(if error.kind() == io::ErrorKind::OutOfMemory {
            Exit::Memory
        } else {
            Exit::Usage
        }),
    }
}

// Serves the command that the words name; words that name none touch neither device.
fn serve<R: Threads + Wait + Sync, S: Source, K: Sink>(
    rt: &R,
    alloc: Global,
    words: &[String],
    source: &mut S,
    sink: &mut K,
) -> Result<Exit, WordsFault>
    ensures served { IfOk result (λ exit. (command : Command)
        × Names (subcommand_of scope_app (map string_bytes words.now)) command
        × Serves (IsDueBy command) S.Source source.old source.new K.Sink sink.old sink.new exit) }
    ensures refused { IfErr result (IsRefused (map string_bytes words.now)) }
    ensures unread { OnErr result (source.new ≡ source.old) }
    ensures unwritten { OnErr result (sink.new ≡ sink.old) }
{
    let command = read_words(alloc, words)?;
    Ok(serve_command(rt, alloc, &command, source, sink))
}
