//! Two sessions whose requests meet.
use crate::cases::{Case, both, desk_after};
use crate::requests::{insertion, new_and_clone, one_new, removal, wait_for};
use crate::steps::{leaves, submits};
use edit_desk::{Published, Reply};
use live_sessions::{Live, Naming, Pass, Publisher, Receipt, Shown};
use run_engine::{Refusal, Run};
use std::alloc::Global;
use std::process::Abort;
use std::sync::Wait;
use std::sync::atomic::{AtomicU64, Ordering};
use std::test::Fail;
use std::thread;
use std::thread::Threads;
use trace_types::kinds::Kind;
use trace_types::outcomes::{Answer, Counts, Verdict};

fn is_done(run: &Run, place: usize, id: u32, strong: u64, weak: u64) -> bool {
    let Some(outcome) = run.outcome(place) else {
        return false;
    };
    let counts = Some(Counts {
        object: 1,
        strong,
        weak,
    });
    outcome.id == id && outcome.verdict == Verdict::Did(Answer::Done) && outcome.counts == counts
}

// Whether both insertions stand, the second before the first.
fn shows_both(published: &Published) -> bool {
    let run = published.run();
    published.version() == 2
        && run.len() == 3
        && is_done(run, 1, 3, 1, 1)
        && is_done(run, 2, 2, 2, 1)
}

// Session 0 inserts a clone, and reads when session 1 is done.
fn clones<J: Naming, W: Publisher<Value = Shown<J>>, S: Threads + Wait + Abort + Sync>(
    rt: &S,
    alloc: Global,
    live: &Live<J, W>,
    mut pass: Pass<J>,
    turn: &AtomicU64,
) -> Option<Receipt<J>> {
    let clone = insertion(alloc, 0, 1, 2, Kind::Clone { from: 0, to: 1 });
    submits(rt, live, &mut pass, clone, Reply::Accepted(1))?;
    turn.store(1, Ordering::SeqCst);
    wait_for(rt, turn, 2);
    assert!(rt; shows_both(pass.read()));
    leaves(rt, live, pass, 1)
}

// Session 1 inserts a downgrade, which is stale at first.
fn downgrades<J: Naming, W: Publisher<Value = Shown<J>>, S: Threads + Wait + Abort + Sync>(
    rt: &S,
    alloc: Global,
    live: &Live<J, W>,
    mut pass: Pass<J>,
    turn: &AtomicU64,
) -> Option<Receipt<J>> {
    wait_for(rt, turn, 1);
    let early = insertion(alloc, 0, 1, 3, Kind::Downgrade { from: 0, to: 2 });
    submits(rt, live, &mut pass, early, Reply::Stale(1))?;
    let late = insertion(alloc, 1, 1, 3, Kind::Downgrade { from: 0, to: 2 });
    submits(rt, live, &mut pass, late, Reply::Accepted(2))?;
    assert!(rt; shows_both(pass.read()));
    turn.store(2, Ordering::SeqCst);
    leaves(rt, live, pass, 2)
}

pub fn two_sessions<
    J: Naming + Send + Sync,
    W: Publisher<Value = Shown<J>> + Send,
    S: Threads + Wait + Abort + Sync + Send,
>(rt: &S, alloc: Global, live: &Live<J, W>) -> Option<Vec<Receipt<J>>> {
    let a = live.join(rt).ok()?;
    let b = live.join(rt).ok()?;
    let turn = AtomicU64::new(0);
    let flag = &turn;
    let (a, b) = thread::join(
        rt,
        move || clones(rt, alloc, live, a, flag),
        move || downgrades(rt, alloc, live, b, flag),
    );
    both(alloc, a?, b?)
}

// Submits the removal of operation 2 for version 0, and where that is stale for the version that stands.
fn removes<J: Naming, W: Publisher<Value = Shown<J>>, S: Threads + Wait + Abort + Sync>(
    rt: &S,
    alloc: Global,
    live: &Live<J, W>,
    mut pass: Pass<J>,
) -> Option<Receipt<J>> {
    let first = live.submit(rt, &mut pass, removal(alloc, 0, 2)?).ok()?;
    let is_second = first != Reply::Accepted(1);
    if is_second {
        assert!(rt; first == Reply::Stale(1));
        let none = Reply::Refused(Refusal::NoSuchOp(0));
        submits(rt, live, &mut pass, removal(alloc, 1, 2), none)?;
    }
    assert!(rt; pass.read().version() == 1);
    leaves(rt, live, pass, if is_second { 2 } else { 1 })
}

pub fn both_remove<
    J: Naming + Send + Sync,
    W: Publisher<Value = Shown<J>> + Send,
    S: Threads + Wait + Abort + Sync + Send,
>(rt: &S, alloc: Global, live: &Live<J, W>) -> Option<Vec<Receipt<J>>> {
    let a = live.join(rt).ok()?;
    let b = live.join(rt).ok()?;
    let (a, b) = thread::join(
        rt,
        move || removes(rt, alloc, live, a),
        move || removes(rt, alloc, live, b),
    );
    both(alloc, a?, b?)
}

#[test]
fn two_sessions_edit_in_turn(rt: HostRuntime) -> Result<(), Fail> {
    let alloc = rt.alloc();
    let trace = one_new(alloc).ok_or("memory")?;
    let desk = desk_after(&rt, alloc, trace, Case::TwoSessions).ok_or("both sessions leave")?;
    assert_eq!(rt; desk.len(), 3);
    assert_eq!(rt; desk.version(), 2);
    Ok(())
}

#[test]
fn two_sessions_remove_one_operation(rt: HostRuntime) -> Result<(), Fail> {
    let alloc = rt.alloc();
    let trace = new_and_clone(alloc).ok_or("memory")?;
    let desk = desk_after(&rt, alloc, trace, Case::BothRemove).ok_or("both sessions leave")?;
    assert_eq!(rt; desk.len(), 3);
    assert_eq!(rt; desk.version(), 1);
    assert_eq!(rt; desk.published().run().len(), 1);
    Ok(())
}
