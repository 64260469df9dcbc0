//! Sixteen threads that edit one trace at once.
use crate::cases::{Case, desk_after};
use crate::requests::{insertion, one_new};
use crate::steps::leaves;
use command_race::report_of_desk;
use command_serve::report_on;
use edit_desk::{Desk, Entry, Reply};
use live_sessions::{Live, Naming, PLACES, Pass, Publisher, Receipt, Shown};
use op_step::Meter;
use op_step::replay::replay;
use ownership_model::plain::plain_replay;
use run_engine::{Run, apply};
use std::alloc::Global;
use std::process::Abort;
use std::sync::Wait;
use std::test::Fail;
use std::thread;
use std::thread::Threads;
use trace_types::kinds::Kind;
use trace_types::trace::Trace;

// Whether this reply may come to a request for version `base`, which was read: the next version, or stale where a later one
// stands.
fn is_fitting(base: u32, reply: Reply) -> bool {
    match reply {
        Reply::Accepted(version) => Some(version) == base.checked_add(1),
        Reply::Stale(version) => base < version,
        Reply::Refused(_) => false,
        Reply::HistoryFull => false,
    }
}

// Twenty insertions of a session, with numbers of its own, each for the version that it read last.
fn insert_twenty<J: Naming, W: Publisher<Value = Shown<J>>, S: Threads + Wait + Abort + Sync>(
    rt: &S,
    alloc: Global,
    live: &Live<J, W>,
    mut pass: Pass<J>,
) -> Option<Receipt<J>> {
    let own = pass.session() * 20;
    for at in own..own + 20 {
        let base = pass.read().version();
        let request = insertion(alloc, base, 1, at + 2, Kind::Null { to: at + 1 })?;
        let reply = live.submit(rt, &mut pass, request).ok()?;
        assert!(rt; is_fitting(base, reply));
    }
    leaves(rt, live, pass, 20)
}

pub fn twenty_each<
    J: Naming + Send + Sync,
    W: Publisher<Value = Shown<J>> + Send,
    S: Threads + Wait + Abort + Sync + Send,
>(rt: &S, alloc: Global, live: &Live<J, W>) -> Option<Vec<Receipt<J>>> {
    let mut passes = Vec::new(alloc);
    for _ in 0..PLACES {
        passes.push(live.join(rt).ok()?).ok()?;
    }
    let left = thread::map_vec(rt, passes, &|pass| insert_twenty(rt, alloc, live, pass)).ok()?;
    let mut receipts = Vec::new(alloc);
    for receipt in left {
        receipts.push(receipt?).ok()?;
    }
    Some(receipts)
}

// How many entries of a session the history has.
fn entries_of(desk: &Desk, session: u32) -> usize {
    let mut own = 0usize;
    for place in 0..desk.len() {
        if desk
            .entry(place)
            .is_some_and(|entry| entry.session == session)
        {
            own = own.saturating_add(1);
        }
    }
    own
}

// The trace and its version after an entry, where the reply is the one that is due.
fn after(alloc: Global, trace: Trace, version: u32, entry: &Entry) -> Option<(Trace, u32)> {
    if entry.request.base != version {
        return if entry.reply == Reply::Stale(version) {
            Some((trace, version))
        } else {
            None
        };
    }
    let next = version.checked_add(1)?;
    if entry.reply != Reply::Accepted(next) {
        return None;
    }
    let edited = apply(alloc, &trace, &entry.request.batch).ok()?;
    Some((edited, next))
}

// The trace and its version after all entries, one after another.
fn folded(alloc: Global, desk: &Desk) -> Option<(Trace, u32)> {
    let mut trace = one_new(alloc)?;
    let mut version = 0;
    for place in 0..desk.len() {
        (trace, version) = after(alloc, trace, version, desk.entry(place)?)?;
    }
    Some((trace, version))
}

// Whether the run shows what the replay of the trace by the plain program gives, and ends with the same heap as a replay from
// nothing.
fn is_replay(alloc: Global, run: &Run, trace: &Trace) -> Option<bool> {
    let (outcomes, _) = plain_replay(alloc, trace).ok()?;
    let (_, end) = replay(alloc, trace, &mut Meter::new()).ok()?;
    if !run.end().same(&end) {
        return Some(false);
    }
    if run.len() != trace.len() || outcomes.len() != trace.len() {
        return Some(false);
    }
    for (place, outcome) in outcomes.as_slice().iter().enumerate() {
        if !run.op(place)?.same(trace.op(place)?) || !run.outcome(place)?.same(outcome) {
            return Some(false);
        }
    }
    Some(true)
}

// Each session has twenty entries in the history.
fn assert_all_entered(rt: &impl Abort, desk: &Desk) {
    assert_eq!(rt; desk.len(), 320);
    for session in 0..PLACES {
        assert_eq!(rt; entries_of(desk, session), 20);
    }
}

// The report of the desk is that of the trace.
fn assert_reported(rt: &impl Abort, alloc: Global, desk: &Desk, trace: &Trace) -> Result<(), Fail> {
    let told = report_of_desk(alloc, desk)?;
    let due = report_on(alloc, trace)?;
    assert!(rt; told.as_slice() == due.as_slice());
    Ok(())
}

// What the desk shows is the replay of the trace that its entries make, one after another.
fn assert_is_replay(rt: &impl Abort, alloc: Global, desk: &Desk) -> Result<(), Fail> {
    let (trace, version) = folded(alloc, desk).ok_or("each reply is the one that is due")?;
    assert_eq!(rt; desk.version(), version);
    let alike = is_replay(alloc, desk.published().run(), &trace).ok_or("memory")?;
    assert!(rt; alike);
    assert_reported(rt, alloc, desk, &trace)
}

#[test]
fn sixteen_threads_submit_twenty_each(rt: HostRuntime) -> Result<(), Fail> {
    let alloc = rt.alloc();
    let trace = one_new(alloc).ok_or("memory")?;
    let desk = desk_after(&rt, alloc, trace, Case::Sixteen).ok_or("all sessions leave")?;
    assert_all_entered(&rt, &desk);
    assert_is_replay(&rt, alloc, &desk)
}
