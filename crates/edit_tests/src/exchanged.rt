//! Edits of a run in whose later heaps something is exchanged: an edit before made objects to which nothing leads, or took them away.
use crate::layers::edit;
use crate::small_runs::{is_replay, run_of};
use crate::small_traces::{add, add_cycle, add_pairs, broken_cycle, change, insertion, new, set};
use run_engine::Run;
use std::alloc::Global;
use std::process::Abort;
use std::test::Fail;
use trace_types::edits::Edit;
use trace_types::kinds::{Field, Kind};
use trace_types::trace::Trace;

// So many operations are stepped for an edit, and the run is its replay.
fn assert_edit(
    rt: &impl Abort,
    alloc: Global,
    run: &mut Run,
    next: Edit,
    due: u64,
) -> Result<(), Fail> {
    let steps = edit(alloc, run, next)?;
    assert_eq!(rt; steps, due);
    assert!(rt; is_replay(alloc, run)?);
    Ok(())
}

// A cycle leaks that was broken: at the next checkpoint the heaps agree but for it. A handle more stays to the end: what lies behind is taken over,
// though the cycle was exchanged there. The cycle is broken again, and the handle goes.
fn assert_in_turn(rt: &impl Abort, alloc: Global, run: &mut Run) -> Result<(), Fail> {
    assert_edit(rt, alloc, run, Edit::Remove { id: 8 }, 63)?;
    let handle = insertion(11, 5_000, Kind::Null { to: 30 })?;
    assert_edit(rt, alloc, run, handle, 64)?;
    let broken = insertion(7, 5_001, set(0, 4))?;
    assert_edit(rt, alloc, run, broken, 65)?;
    assert_edit(rt, alloc, run, Edit::Remove { id: 5_000 }, 63)
}

#[test]
fn stretches_are_taken_over_behind_an_exchange(rt: HostRuntime) -> Result<(), Fail> {
    let alloc = rt.alloc();
    let mut run = run_of(alloc, broken_cycle(alloc)?)?;
    assert_in_turn(&rt, alloc, &mut run)
}

// A cycle, and an object by handle 20. Far behind, it is asked whether that is held once.
fn asked_behind(alloc: Global) -> Result<Trace, Fail> {
    let mut trace = Trace::new(alloc);
    add_cycle(alloc, &mut trace)?;
    add(&mut trace, 7, new(alloc, 20, &[])?)?;
    add(&mut trace, 8, Kind::Drop { h: 0 })?;
    add(&mut trace, 9, Kind::Drop { h: 1 })?;
    add_pairs(alloc, &mut trace, 10, 1_009)?;
    add(&mut trace, 1_010, Kind::GetMut { h: 20 })?;
    Ok(trace)
}

// The cycle isn't closed any more, and goes. Then the object gets one more holder: the last stretch, of 50 operations, is stepped as well.
fn assert_asked_behind(rt: &impl Abort, alloc: Global, run: &mut Run) -> Result<(), Fail> {
    let open = change(6, Kind::Drop { h: 2 })?;
    assert_edit(rt, alloc, run, open, 64)?;
    let holder = insertion(9, 5_000, Kind::Clone { from: 20, to: 21 })?;
    assert_edit(rt, alloc, run, holder, 115)
}

#[test]
fn what_differs_is_touched_behind_an_exchange(rt: HostRuntime) -> Result<(), Fail> {
    let alloc = rt.alloc();
    let mut run = run_of(alloc, asked_behind(alloc)?)?;
    assert_asked_behind(&rt, alloc, &mut run)
}

// Forty-one objects, each held by the next one, of which the last holds itself too: all leak. Pairs of operations follow.
fn much_leaks(alloc: Global) -> Result<Trace, Fail> {
    let mut trace = Trace::new(alloc);
    add(&mut trace, 1, new(alloc, 100, &[])?)?;
    for n in 0..39u32 {
        add(
            &mut trace,
            n + 2,
            new(alloc, n + 101, &[Field::Held(n + 100)])?,
        )?;
    }
    add(
        &mut trace,
        41,
        new(alloc, 0, &[Field::Null, Field::Held(139)])?,
    )?;
    add(&mut trace, 42, Kind::Clone { from: 0, to: 1 })?;
    add(&mut trace, 43, set(0, 1))?;
    add(&mut trace, 44, Kind::Drop { h: 0 })?;
    add_pairs(alloc, &mut trace, 45, 1_044)?;
    Ok(trace)
}

// The last one doesn't hold itself any more, and all go: more is exchanged than is put into heaps again and again. So an edit behind that steps all.
fn assert_much_is_exchanged(rt: &impl Abort, alloc: Global, run: &mut Run) -> Result<(), Fail> {
    let mended = change(43, Kind::Drop { h: 1 })?;
    assert_edit(rt, alloc, run, mended, 64)?;
    let handle = insertion(44, 5_000, Kind::Null { to: 30 })?;
    assert_edit(rt, alloc, run, handle, 1_045)
}

#[test]
fn all_is_stepped_where_much_is_exchanged(rt: HostRuntime) -> Result<(), Fail> {
    let alloc = rt.alloc();
    let mut run = run_of(alloc, much_leaks(alloc)?)?;
    assert_much_is_exchanged(&rt, alloc, &mut run)
}
