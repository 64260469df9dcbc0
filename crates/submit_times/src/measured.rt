//! A desk that answers requests, with the time that each takes.

use crate::words::Asked;
use edit_desk::{Desk, Published, Request};
use live_sessions::Workers;
use op_step::ChunkRun;
use std::alloc::Global;
use std::io;
use std::thread::Threads;
use std::time::Instant;
use trace_reader::{RequestLine, Script};

/// Answers all requests in order and writes a line for each. `threads` is the runtime too, as the one that may start threads.
pub fn answer_all<S: Threads + Sync>(
    rt: &HostRuntime,
    threads: &S,
    script: Script,
    asked: &Asked,
) -> io::Result<()> {
    let Script { trace, requests } = script;
    let mut desk = Desk::open(rt.alloc(), trace)?;
    let first = desk.published().share()?;
    for line in requests.into_vec() {
        if asked.from_first {
            answer(rt, threads, &mut desk, &first, &asked.workers, line)?;
        } else {
            let standing = desk.published().share()?;
            answer(rt, threads, &mut desk, &standing, &asked.workers, line)?;
        }
    }
    Ok(())
}

// Answers one request, which workers guess from a version, as a submit does.
fn answer<S: Threads + Sync>(
    rt: &HostRuntime,
    threads: &S,
    desk: &mut Desk,
    from: &Published,
    workers: &Workers,
    line: RequestLine,
) -> io::Result<()> {
    let RequestLine {
        base,
        session,
        batch,
    } = line;
    let request = Request { base, batch };
    let begin = Instant::now(rt)?;
    let guesses = guessed(threads, rt.alloc(), from, workers, &request);
    let outside = begin.elapsed(rt)?.as_micros();
    let count = guesses.len();
    let before = desk.meter().count();
    let begin = Instant::now(rt)?;
    let _reply = desk.answer(rt.alloc(), session, request, guesses)?;
    let under = begin.elapsed(rt)?.as_micros();
    let steps = desk.meter().count().saturating_sub(before);
    println!(rt;
        "{count} guesses, {steps} steps, {outside} us before the lock, {under} us under it"
    )
}

fn guessed<S: Threads + Sync>(
    threads: &S,
    alloc: Global,
    from: &Published,
    workers: &Workers,
    request: &Request,
) -> Vec<ChunkRun> {
    if workers.do_guess() {
        workers.guesses(threads, alloc, from, request)
    } else {
        Vec::new(alloc)
    }
}
