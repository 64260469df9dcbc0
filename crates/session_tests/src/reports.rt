//! The reports of what a session reads, and of the desk that sessions leave.
ghost use Rattle.std.specs.Prelude.{◌≡◌, []};
ghost use Rattle.live_sessions.specs.Events.{opening_of};

use crate::steps::submits_each;
use command_race::{report_of_desk, report_of_front};
use live_sessions::{Live, Naming, Pass, Publisher, Shown, Started, open};
use std::alloc::Global;
use std::marker::Brand;
use std::sync::Wait;
use std::test::Fail;
use std::thread::Threads;
use trace_reader::{RequestLine, Script, read_script};
use trace_types::sequence::Sequence;

const INPUT: &str = "\
{\"id\":1,\"t\":0,\"op\":\"new\",\"to\":0,\"fields\":[]}
--
{\"base\":0,\"session\":0,\"edits\":[{\"edit\":\"insert\",\"after\":1,\"op\":{\"id\":2,\"t\":0,\"op\":\"clone\",\"from\":0,\"to\":1}}]}
";

const REPORT: &str = "\
1 new made #1 1/0
2 clone done #1 2/0
object 1 alive
total 2 ops 0 skipped 1 objects 1 alive 0 leaks 0 husks
";

// What another session reads. It keeps its pass.
fn read_by_another<J: Naming, W: Publisher<Value = Shown<J>>, S: Threads + Wait + Sync>(
    rt: &S,
    alloc: Global,
    live: &Live<J, W>,
) -> Option<(Pass<J>, Vec<u8>)> {
    let mut other = live.join(rt).ok()?;
    let read = report_of_front(alloc, &mut other).ok()?;
    Some((other, read))
}

// What the desk shows once it is closed, while passes are still there.
fn shown_at_last<J: Naming, W: Publisher<Value = Shown<J>>>(
    alloc: Global,
    live: Live<J, W>,
    _passes: (Pass<J>, Pass<J>),
) -> Option<Vec<u8>> {
    let desk = live.close(Vec::new(alloc)).ok()?;
    report_of_desk(alloc, &desk).ok()
}

// What another session reads after one has submitted the requests, and what the closed desk shows.
fn reports<J: Naming, S: Threads + Wait + Sync>(
    rt: &S,
    alloc: Global,
    started: Started,
    lines: Sequence<RequestLine>,
) -> Option<(Vec<u8>, Vec<u8>)>
    requires book { started.begun.seen.book ≡ J.book }
    requires opening { opening_of started.begun.seen.log ≡ J.opening }
    requires fresh { (started.desk.standing.opening ≡ J.opening) × (started.desk.standing.history ≡ []) }
{
    let live = open::<J, &S>(rt, alloc, started, 1).ok()?;
    let pass = submits_each(rt, &live, lines)?;
    let (other, read) = read_by_another(rt, alloc, &live)?;
    let shown = shown_at_last(alloc, live, (pass, other))?;
    Some((read, shown))
}

fn reports_on<S: Threads + Wait + Sync>(rt: &S, alloc: Global) -> Option<(Vec<u8>, Vec<u8>)> {
    let Script { trace, requests } = read_script(alloc, INPUT.as_bytes(), false).ok()?;
    let started = Started::new(alloc, trace).ok()?;
    reports::<Brand, S>(rt, alloc, started, requests)
}

#[test]
fn report_follows_what_another_session_submitted(rt: HostRuntime) -> Result<(), Fail> {
    let (read, shown) = reports_on(&rt, rt.alloc()).ok_or("the request is accepted")?;
    assert!(rt; read.as_slice() == REPORT.as_bytes());
    assert!(rt; shown.as_slice() == REPORT.as_bytes());
    Ok(())
}
