//! Runs of small traces, and what edits make of them.
use crate::small_runs::{
    are_marks, assert_refused, has_outcome, run_of, with_both, with_edited, with_run,
};
use crate::small_traces::{add_cycle, batch, broken_cycle, change, insertion, new, op_of, two};
use run_engine::{Run, RunFault, apply};
use std::alloc::Global;
use std::process::Abort;
use std::test::Fail;
use trace_types::edits::{Batch, Edit};
use trace_types::kinds::Kind;
use trace_types::sequence::Sequence;
use trace_types::trace::Trace;

// Whether the run tells as many outcomes as these, each of them the same.
fn assert_copied(rt: &impl Abort, alloc: Global, run: &Run) -> Result<(), Fail> {
    let copies = run.outcomes(alloc)?;
    assert_eq!(rt; copies.as_slice().len(), 6);
    for (place, copy) in copies.as_slice().iter().enumerate() {
        assert!(rt; has_outcome(run, place, copy));
    }
    Ok(())
}

// How many outcomes the last stretch lends.
fn lent(alloc: Global, run: &Run) -> Result<usize, Fail> {
    let mut lent = 0;
    for stretch in &run.stretches(alloc)? {
        lent = stretch.outcomes.len();
    }
    Ok(lent)
}

// The trace of a cycle that stays.
fn cycle(alloc: Global) -> Result<Trace, Fail> {
    let mut trace = Trace::new(alloc);
    add_cycle(alloc, &mut trace)?;
    Ok(trace)
}

#[test]
fn outcomes_are_copied_or_lent(rt: HostRuntime) -> Result<(), Fail> {
    let alloc = rt.alloc();
    with_run(alloc, cycle(alloc)?, |run| {
        assert_copied(&rt, alloc, run)?;
        assert_eq!(rt; lent(alloc, run)?, 6);
        Ok(())
    })
}

// Operation 3 with another label, whose outcome is the same.
fn labelled() -> Result<Edit, Fail> {
    let op = op_of(3, 1, Kind::Clone { from: 0, to: 2 })?;
    Ok(Edit::Change { id: 3, op })
}

// That, and a null pointer far behind.
pub fn labelled_and_more(alloc: Global) -> Result<Batch, Fail> {
    let null = insertion(1000, 3000, Kind::Null { to: 30 })?;
    two(alloc, labelled()?, null)
}

// An operation that comes and goes.
fn come_and_gone(alloc: Global) -> Result<Batch, Fail> {
    let null = insertion(0, 4000, Kind::Null { to: 31 })?;
    two(alloc, null, Edit::Remove { id: 4000 })
}

// Nothing is stepped for an operation that comes and goes.
fn assert_nothing_is_stepped(rt: &impl Abort, alloc: Global, run: &Run) -> Result<(), Fail> {
    let edits = come_and_gone(alloc)?;
    with_edited(alloc, run, edits, |edited, steps| {
        assert_eq!(rt; steps, 0);
        assert_eq!(rt; edited.len(), 1011);
        Ok(())
    })
}

#[test]
fn stretches_kept(rt: HostRuntime) -> Result<(), Fail> {
    let alloc = rt.alloc();
    let edits = labelled_and_more(alloc)?;
    let trace = broken_cycle(alloc)?;
    with_both(alloc, trace, edits, |run, edited, steps| {
        assert_eq!(rt; steps, 116);
        assert!(rt; are_marks(alloc, edited, &[], 0, 1012)?);
        assert_nothing_is_stepped(&rt, alloc, run)
    })
}

// The same label, and a null pointer behind the last operation.
fn labelled_and_last(alloc: Global) -> Result<Batch, Fail> {
    let null = insertion(1011, 3000, Kind::Null { to: 30 })?;
    two(alloc, labelled()?, null)
}

// The last stretch ends with the trace, and serves also where another operation follows.
#[test]
fn last_stretch_is_kept(rt: HostRuntime) -> Result<(), Fail> {
    let alloc = rt.alloc();
    let edits = labelled_and_last(alloc)?;
    let trace = broken_cycle(alloc)?;
    with_both(alloc, trace, edits, |_, edited, steps| {
        assert_eq!(rt; steps, 65);
        assert_eq!(rt; edited.len(), 1012);
        Ok(())
    })
}

// Only a checkpoint that stands, other than the first and the end, is given up.
fn assert_given_up(rt: &impl Abort, run: &mut Run) {
    assert!(rt; run.give_up(64));
    for place in [64usize, 0, 63, 1011] {
        assert!(rt; !run.give_up(place));
    }
}

// Then the run has that checkpoint no more, nor has the run after an edit that changes nothing.
fn assert_stays_given_up(rt: &impl Abort, alloc: Global, run: &mut Run) -> Result<(), Fail> {
    assert_given_up(rt, run);
    assert!(rt; are_marks(alloc, run, &[0], 128, 1011)?);
    let same = batch(alloc, change(70, new(alloc, 9, &[])?)?)?;
    with_edited(alloc, run, same, |edited, steps| {
        assert_eq!(rt; steps, 0);
        assert!(rt; are_marks(alloc, edited, &[0], 128, 1011)?);
        Ok(())
    })
}

#[test]
fn a_checkpoint_is_given_up(rt: HostRuntime) -> Result<(), Fail> {
    let alloc = rt.alloc();
    let trace = broken_cycle(alloc)?;
    let mut run = run_of(alloc, trace)?;
    assert_stays_given_up(&rt, alloc, &mut run)
}

// An operation goes, and one with a number that another has comes.
fn taken(alloc: Global) -> Result<Batch, Fail> {
    let taken = insertion(5, 12, Kind::Null { to: 30 })?;
    two(alloc, Edit::Remove { id: 11 }, taken)
}

#[test]
fn refusals_replay_nothing(rt: HostRuntime) -> Result<(), Fail> {
    let alloc = rt.alloc();
    with_run(alloc, broken_cycle(alloc)?, |run| {
        let unknown = batch(alloc, Edit::Remove { id: 5000 })?;
        assert_refused(&rt, alloc, run, unknown, RunFault::NoSuchOp(0));
        let edits = taken(alloc)?;
        assert_refused(&rt, alloc, run, edits, RunFault::IdTaken(1));
        let none = Sequence::empty(alloc);
        assert_refused(&rt, alloc, run, none, RunFault::EmptyBatch);
        Ok(())
    })
}

// The trace without its first operation, and with one more behind the last.
fn without_the_first(alloc: Global) -> Result<Trace, Fail> {
    let null = insertion(1011, 2000, Kind::Null { to: 30 })?;
    let edits = two(alloc, null, Edit::Remove { id: 1 })?;
    let trace = broken_cycle(alloc)?;
    Ok(apply(alloc, &trace, &edits)?)
}

#[test]
fn a_trace_is_edited(rt: HostRuntime) -> Result<(), Fail> {
    let edited = without_the_first(rt.alloc())?;
    assert_eq!(rt; edited.len(), 1011);
    assert_eq!(rt; edited.place(2), Some(0));
    assert_eq!(rt; edited.place(2000), Some(1010));
    assert_eq!(rt; edited.place(1), None);
    Ok(())
}

#[test]
fn faults_are_told(rt: HostRuntime) -> Result<(), Fail> {
    let table = [
        (
            RunFault::NoSuchOp(0),
            "edit 0: no operation has this number",
        ),
        (RunFault::IdTaken(7), "edit 7: an operation has this number"),
        (RunFault::TooMany(63), "edit 63: the trace is full"),
        (RunFault::EmptyBatch, "the batch has no edit"),
        (RunFault::TooManyEdits, "the batch has too many edits"),
        (RunFault::Memory, "out of memory"),
    ];
    for (fault, text) in table {
        let told = format!(in rt.alloc(); "{fault}")?;
        assert_eq!(rt; told.as_str(), text);
    }
    Ok(())
}
