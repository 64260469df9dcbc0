//! Guesses that a submit makes outside the lock and hands down to the desk.
ghost use Rattle.std.specs.Prelude.{◌≡◌, ◌≤◌, []};
ghost use Rattle.live_sessions.specs.Events.{opening_of};

use crate::steps::submits_each;
use live_sessions::{Naming, Started, open};
use std::alloc::{AllocError, Global};
use std::marker::Brand;
use std::sync::Wait;
use std::test::Fail;
use std::thread::Threads;
use trace_reader::{RequestLine, Script, read_script};
use trace_types::limits::MAX_WORKERS;
use trace_types::sequence::Sequence;

// Two objects that hold each other. The cycle is broken, and both handles are dropped.
const BROKEN_CYCLE: &str = "\
{\"id\":1,\"t\":0,\"op\":\"new\",\"to\":0,\"fields\":[null]}
{\"id\":2,\"t\":0,\"op\":\"new\",\"to\":1,\"fields\":[null]}
{\"id\":3,\"t\":0,\"op\":\"clone\",\"from\":0,\"to\":2}
{\"id\":4,\"t\":0,\"op\":\"clone\",\"from\":1,\"to\":3}
{\"id\":5,\"t\":0,\"op\":\"set\",\"h\":0,\"i\":0,\"from\":3}
{\"id\":6,\"t\":0,\"op\":\"set\",\"h\":1,\"i\":0,\"from\":2}
{\"id\":7,\"t\":0,\"op\":\"null\",\"to\":4}
{\"id\":8,\"t\":0,\"op\":\"set\",\"h\":0,\"i\":0,\"from\":4}
{\"id\":9,\"t\":0,\"op\":\"drop\",\"h\":4}
{\"id\":10,\"t\":0,\"op\":\"drop\",\"h\":0}
{\"id\":11,\"t\":0,\"op\":\"drop\",\"h\":1}
";

// Another label for operation 3, and a null pointer behind operation 1000.
const LABELLED_AND_MORE: &str = "\
--
{\"base\":0,\"session\":0,\"edits\":[{\"edit\":\"change\",\"id\":3,\"op\":{\"id\":3,\"t\":1,\"op\":\"clone\",\"from\":0,\"to\":2}},{\"edit\":\"insert\",\"after\":1000,\"op\":{\"id\":3000,\"t\":0,\"op\":\"null\",\"to\":30}}]}
";

// How many operations opening replays.
const OPENING: u64 = 1011;

// The broken cycle, then operations up to 1011 that make an object and drop it in turn, and the request.
fn input(alloc: Global) -> Result<String, AllocError> {
    let mut text = String::from_str(alloc, BROKEN_CYCLE)?;
    for half in 6..506u32 {
        let id = 2 * half;
        write!(
            text,
            "{{\"id\":{id},\"t\":0,\"op\":\"new\",\"to\":9,\"fields\":[]}}\n"
        )?;
        let id = id + 1;
        write!(text, "{{\"id\":{id},\"t\":0,\"op\":\"drop\",\"h\":9}}\n")?;
    }
    text.push_str(LABELLED_AND_MORE)?;
    Ok(text)
}

// How many operations the desk has replayed after one session's requests, each of which is accepted.
fn replayed<J: Naming, S: Threads + Wait + Sync>(
    rt: &S,
    alloc: Global,
    started: Started,
    lines: Sequence<RequestLine>,
    workers: u32,
) -> Option<u64>
    requires book { started.begun.seen.book ≡ J.book }
    requires opening { opening_of started.begun.seen.log ≡ J.opening }
    requires fresh { (started.desk.standing.opening ≡ J.opening) × (started.desk.standing.history ≡ []) }
    requires workers { (1 ≤ workers) × (workers ≤ MAX_WORKERS) }
{
    let live = open::<J, &S>(rt, alloc, started, workers).ok()?;
    let _pass = submits_each(rt, &live, lines)?;
    let desk = live.close(Vec::new(alloc)).ok()?;
    Some(desk.meter().count())
}

fn replayed_by<S: Threads + Wait + Sync>(rt: &S, alloc: Global, workers: u32) -> Option<u64>
    requires { (1 ≤ workers) × (workers ≤ MAX_WORKERS) }
{
    let text = input(alloc).ok()?;
    let Script { trace, requests } = read_script(alloc, text.as_bytes(), false).ok()?;
    let started = Started::new(alloc, trace).ok()?;
    replayed::<Brand, S>(rt, alloc, started, requests, workers)
}

// By two workers the desk itself replays nothing of the request; by one it replays the 64 and 52 operations that differ.
#[test]
fn guesses_reach_the_desk(rt: HostRuntime) -> Result<(), Fail> {
    let alloc = rt.alloc();
    assert_eq!(rt;
        replayed_by(&rt, alloc, 1).ok_or("accepted")?,
        OPENING + 116
    );
    assert_eq!(rt; replayed_by(&rt, alloc, 2).ok_or("accepted")?, OPENING);
    assert_eq!(rt; replayed_by(&rt, alloc, 16).ok_or("accepted")?, OPENING);
    Ok(())
}
