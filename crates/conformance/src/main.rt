//! Runs each case of `data/` through the commands, over memory, and prints its words with the file of its input, its exit status and its
//! output. Replays each trace as the plain program, too, and tells how many outcomes were the same.
#![tactic(auto)]

ghost use Rattle.std.specs.Prelude.{◌≢◌, IfOk};
ghost use Rattle.command_words.specs.Named.{HasWorkers};
ghost use Rattle.command_serve.specs.declared.exits.Exit.TheVariants.{Usage};

use command_race::serve_race;
use command_serve::{Exit, serve_explain, serve_picture, serve_replay, serve_script, serve_whatif};
use command_words::{Command, WordsFault, read_words};
use op_step::Meter;
use op_step::replay::replay;
use ownership_model::plain::plain_replay;
use std::alloc::{AllocError, Global};
use std::fs;
use std::io::{self, Write};
use std::sync::Wait;
use std::thread::Threads;
use trace_reader::read_script;
use trace_types::devices::{StdSink, StdSource};

fn main(rt: HostRuntime) -> io::Result<()> {
    let index = fs::read_to_string(&rt, "index")?;
    let mut told = 0u64;
    let mut same = 0u64;
    for line in index.lines() {
        let counts = run_case(&rt, &rt, line)?;
        told = told.saturating_add(counts.0);
        same = same.saturating_add(counts.1);
    }
    println!(rt; "== of {told} outcomes the plain program gives {same}")
}

// A line of the index is the words of a command and then the file of its input; `threads` is the runtime too, as the one that may start
// threads. Answers how many outcomes its trace has, and how many of these the plain program gives; none where the words are refused.
fn run_case<S: Threads + Wait + Sync>(
    rt: &HostRuntime,
    threads: &S,
    line: &str,
) -> io::Result<(u64, u64)> {
    let Some((words, name)) = line.rsplit_once(' ') else {
        println!(rt; "no case: {line}")?;
        return Ok((0, 0));
    };
    let command = match command_in(rt.alloc(), words) {
        Ok(command) => command,
        Err(exit) => {
            let status = exit.status();
            println!(rt; "== {line} {status}")?;
            return Ok((0, 0));
        }
    };
    let input = fs::read(rt, name)?;
    let mut output = Vec::new(rt.alloc());
    let exit = serve(threads, rt.alloc(), &command, input.as_slice(), &mut output);
    let status = exit.status();
    println!(rt; "== {line} {status}")?;
    io::writer(rt).write_all(output.as_slice())?;
    Ok(beside_plain(rt.alloc(), input.as_slice())?)
}

// The command that words name, or how the program ends that is given them.
fn command_in(alloc: Global, words: &str) -> Result<Command, Exit>
    ensures { IfOk result HasWorkers }
{
    let words = split(alloc, words).map_err(|_| Exit::Memory)?;
    match read_words(alloc, words.as_slice()) {
        Ok(command) => Ok(command),
        Err(WordsFault::Usage(_)) => Err(Exit::Usage),
        Err(WordsFault::Memory) => Err(Exit::Memory),
    }
}

// The program's name, and the words between blanks.
fn split(alloc: Global, words: &str) -> Result<Vec<String>, AllocError> {
    let mut all = Vec::new(alloc);
    all.push(String::from_str(alloc, "arc_scope")?)?;
    for word in words.split(' ') {
        all.push(String::from_str(alloc, word)?)?;
    }
    Ok(all)
}

// How many outcomes the replay of an input's trace has, and how many of these the plain program gives in their places.
fn beside_plain(alloc: Global, input: &[u8]) -> Result<(u64, u64), AllocError> {
    let Ok(script) = read_script(alloc, input, false) else {
        return Ok((0, 0));
    };
    let (outcomes, _) = replay(alloc, &script.trace, &mut Meter::new())?;
    let (plain, _) = plain_replay(alloc, &script.trace)?;
    let same = outcomes
        .as_slice()
        .iter()
        .zip(plain.as_slice())
        .filter(|(a, b)| a.same(b))
        .count();
    Ok((outcomes.len() as u64, same as u64))
}

// Runs a command over an input.
fn serve<S: Threads + Wait + Sync>(
    threads: &S,
    alloc: Global,
    command: &Command,
    input: &[u8],
    output: &mut Vec<u8>,
) -> Exit
    requires { HasWorkers command.now }
    ensures { result ≢ Usage }
{
    let mut source = StdSource::new(input);
    let mut sink = StdSink::new(output);
    match command {
        Command::Replay => serve_replay(alloc, &mut source, &mut sink),
        Command::Script => serve_script(alloc, &mut source, &mut sink),
        Command::Whatif => serve_whatif(alloc, &mut source, &mut sink),
        Command::Race(workers) => serve_race(threads, alloc, &mut source, &mut sink, *workers),
        Command::Explain(objects, with_lives) => serve_explain(
            alloc,
            &mut source,
            &mut sink,
            objects.as_slice(),
            *with_lives,
        ),
        Command::Picture(objects, with_all) => serve_picture(
            alloc,
            &mut source,
            &mut sink,
            objects.as_slice(),
            *with_all,
        ),
    }
}
