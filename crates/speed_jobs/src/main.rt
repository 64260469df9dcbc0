//! Jobs that a user of arc_scope waits for, to be timed: makes traces and requests from a seed, calls the commands on them over
//! memory, and prints a digest of all that they answered.
#![tactic(auto)]

mod cells;
mod chain;
mod digest;
mod jobs;
mod leaks;
mod lines;
mod mixed;
mod names;
mod objects;
mod places;
mod random;
mod recorder;
mod requests;
mod server;
mod text;
mod wide;
mod words;
mod writer;

use std::process::ExitCode;
use std::{env, io};
use words::read_words;

fn main(rt: HostRuntime) -> io::Result<ExitCode> {
    let words: Vec<String> = env::args(&rt)?.collect(rt.alloc())?;
    // The first word is the program's name.
    let Some((_, words)) = words.as_slice().split_first() else {
        return Ok(ExitCode::from(2));
    };
    let Some((job, sizes)) = read_words(words) else {
        eprintln!(rt; "usage: speed_jobs JOB OPERATIONS TRACES REQUESTS SEED")?;
        return Ok(ExitCode::from(2));
    };
    let digest = jobs::run(rt.alloc(), job, sizes)?;
    let calls = digest.calls;
    let fine = digest.fine;
    let hash = digest.hash;
    println!(rt; "{calls} calls, {fine} of them fine, digest {hash:016x}")?;
    Ok(ExitCode::SUCCESS)
}
