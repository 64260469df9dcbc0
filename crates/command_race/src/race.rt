//! The command `race`: a trace and requests in, each stored entry's reply and the last version's report out.
ghost use Rattle.std.specs.Prelude.{◌≡◌, ◌≤◌, List, [], IfOk, IfSome, vec_len};
ghost use Rattle.edit_desk.specs.declared.entries.Entry.{Entry};
ghost use Rattle.live_sessions.specs.Events.{opening_of};
ghost use Rattle.command_serve.specs.Serve.{Serves};
ghost use Rattle.command_race.specs.Race.{IsRaced, IsRaceDue, IsRaceText, race_text};

use crate::history::text_on;
use crate::split::by_session;
use command_serve::{Due, Exit, InputFault, fault_due, read_all, too_long, write_due};
use edit_desk::Request;
use live_sessions::race::race;
use live_sessions::{Live, Naming, PLACES, Publisher, Shown, Started, open};
use std::alloc::{AllocError, Global};
use std::marker::Brand;
use std::sync::Wait;
use std::thread::Threads;
use trace_reader::{Script, read_script};
use trace_types::devices::{Sink, Source};
use trace_types::limits::MAX_WORKERS;
use trace_types::sequence::Sequence;
use trace_types::trace::Trace;

/// Reads a trace and requests to edit it, submits each session's requests in order on a thread of its own, and writes
/// each stored entry's session and reply and the report of the last version, or the line that tells the first fault.
///
/// Which replies there are depends on the order in which the threads came to the lock. There are 1 to 16 workers. From two on they replay
/// ahead what a request changes, before its turn at the lock, which changes no reply. The exit `Memory` comes also where a session found no
/// place, was not answered, or where the sessions' numbers of entries don't add up.
#[tactic(auto, using(command_serve::proofs::Served::unread, command_serve::proofs::Served::unmade))]
pub fn serve_race<R: Threads + Wait + Sync, S: Source, K: Sink>(
    rt: &R,
    alloc: Global,
    source: &mut S,
    sink: &mut K,
    workers: u32,
) -> Exit
    requires { (1 ≤ workers) × (workers ≤ MAX_WORKERS) }
    ensures { Serves IsRaceDue S.Source source.old source.new K.Sink sink.old sink.new result }
{
    match read_all(alloc, source) {
        Ok(input) => write_due(sink, race_due(rt, alloc, input.as_slice(), workers)),
        Err(InputFault::TooLong) => write_due(sink, too_long(alloc)),
        Err(InputFault::Device) => Exit::Device,
        Err(InputFault::Memory) => Exit::Memory,
    }
}

// What may be due for an input that is not too long.
fn race_due<R: Threads + Wait + Sync>(
    rt: &R,
    alloc: Global,
    input: &[u8],
    workers: u32,
) -> Result<Due, AllocError>
    requires { (1 ≤ workers) × (workers ≤ MAX_WORKERS) }
    ensures { IfOk result (IsRaceDue input.now) }
{
    match read_script(alloc, input, false) {
        Ok(script) => match raced(rt, alloc, script, workers) {
            Some(text) => Ok(Due::answer(text)),
            None => Err(AllocError),
        },
        Err(fault) => fault_due(alloc, &fault),
    }
}

// The text of a race over what was read.
fn raced<R: Threads + Wait + Sync>(
    rt: &R,
    alloc: Global,
    script: Script,
    workers: u32,
) -> Option<Vec<u8>>
    requires { (1 ≤ workers) × (workers ≤ MAX_WORKERS) }
    ensures { IfSome result (λ text. (h : List Entry) × IsRaced script.trace script.requests h
        × (text.items ≡ race_text script.trace h)) }
{
    let Script { trace, requests } = script;
    match by_session(alloc, requests.into_vec()) {
        Some(requests) => race_from(rt, alloc, trace, requests, workers),
        None => None,
    }
}

// The text of a race of requests that are sorted by session.
fn race_from<R: Threads + Wait + Sync>(
    rt: &R,
    alloc: Global,
    trace: Trace,
    requests: Vec<Sequence<Request>>,
    workers: u32,
) -> Option<Vec<u8>>
    requires sessions { vec_len requests ≡ PLACES }
    requires workers { (1 ≤ workers) × (workers ≤ MAX_WORKERS) }
    ensures { IfSome result (λ text. IsRaceText trace requests.items text.items) }
{
    match Started::new(alloc, trace) {
        Ok(started) => race_on::<Brand, R>(rt, alloc, started, requests, workers),
        Err(_) => None,
    }
}

// The text of a race over what was started.
fn race_on<J: Naming + Send + Sync, R: Threads + Wait + Sync>(
    rt: &R,
    alloc: Global,
    started: Started,
    requests: Vec<Sequence<Request>>,
    workers: u32,
) -> Option<Vec<u8>>
    requires book { started.begun.seen.book ≡ J.book }
    requires opening { opening_of started.begun.seen.log ≡ J.opening }
    requires fresh { (started.desk.standing.opening ≡ J.opening)
        × (started.desk.standing.history ≡ []) }
    requires sessions { vec_len requests ≡ PLACES }
    requires workers { (1 ≤ workers) × (workers ≤ MAX_WORKERS) }
    ensures { IfSome result (λ text. IsRaceText J.opening requests.items text.items) }
{
    match open::<J, &R>(rt, alloc, started, workers) {
        Ok(live) => race_over(rt, alloc, live, requests),
        Err(_) => None,
    }
}

// The text of a race over a `Live` that was just opened.
fn race_over<
    J: Naming + Send + Sync,
    W: Publisher<Value = Shown<J>> + Send,
    R: Threads + Wait + Sync,
>(rt: &R, alloc: Global, live: Live<J, W>, requests: Vec<Sequence<Request>>) -> Option<Vec<u8>>
    requires { vec_len requests ≡ PLACES }
    ensures { IfSome result (λ text. IsRaceText J.opening requests.items text.items) }
{
    let desk = race(rt, alloc, live, requests)?;
    match text_on(alloc, &desk) {
        Ok(text) => Some(text),
        Err(_) => None,
    }
}
