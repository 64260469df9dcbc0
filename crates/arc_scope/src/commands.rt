//! The commands, each by its name.
ghost use Rattle.command_words.specs.Named.{HasWorkers};
ghost use Rattle.command_serve.specs.Serve.{Serves};
ghost use Rattle.arc_scope.specs.Commands.{IsDueBy};

use command_race::serve_race;
use command_serve::{Exit, serve_explain, serve_picture, serve_replay, serve_script, serve_whatif};
use command_words::Command;
use std::alloc::Global;
use std::sync::Wait;
use std::thread::Threads;
use trace_types::devices::{Sink, Source};

/// Reads all input, and writes what this command has due for it. Only `race` starts threads.
pub fn serve_command<R: Threads + Wait + Sync, S: Source, K: Sink>(
    rt: &R,
    alloc: Global,
    command: &Command,
    source: &mut S,
    sink: &mut K,
) -> Exit
    requires { HasWorkers command.now }
    ensures { Serves (IsDueBy command.now)
        S.Source source.old source.new K.Sink sink.old sink.new result }
{
    match command {
        Command::Replay => serve_replay(alloc, source, sink),
        Command::Script => serve_script(alloc, source, sink),
        Command::Whatif => serve_whatif(alloc, source, sink),
        Command::Race(workers) => serve_race(rt, alloc, source, sink, *workers),
        Command::Explain(objects, with_lives) => {
            serve_explain(alloc, source, sink, objects.as_slice(), *with_lives)
        }
        Command::Picture(objects, with_all) => {
            serve_picture(alloc, source, sink, objects.as_slice(), *with_all)
        }
    }
}
