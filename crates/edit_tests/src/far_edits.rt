//! Edits far apart, and a difference that lasts: what stands between is taken as it is, or over though the heaps differ.
use crate::meetings::{leaked_pairs, with_fields};
use crate::small_runs::{is_replay, with_both, with_edited, with_run};
use crate::small_traces::{add, add_pairs, batch, change, insertion, new, op_of, two};
use run_engine::{Run, apply};
use std::alloc::Global;
use std::process::Abort;
use std::test::Fail;
use trace_types::edits::{Batch, Edit};
use trace_types::kinds::{Field, Kind};
use trace_types::trace::Trace;

// Two thousand objects that live to the end, and pairs of operations behind them. Operation 100 asks for counts.
fn many_live(alloc: Global) -> Result<Trace, Fail> {
    let mut trace = Trace::new(alloc);
    for id in 1..=2_000u32 {
        let kind = if id == 100 {
            Kind::Counts { h: 1_001 }
        } else {
            new(alloc, 1_000 + id, &[])?
        };
        add(&mut trace, id, kind)?;
    }
    add_pairs(alloc, &mut trace, 2_001, 4_096)?;
    Ok(trace)
}

// Operation 100 asks for another object's counts, and so does one more near the end.
fn far_apart(alloc: Global) -> Result<Batch, Fail> {
    let asks = change(100, Kind::Counts { h: 1_002 })?;
    let more = insertion(3_900, 5_000, Kind::Counts { h: 1_003 })?;
    two(alloc, asks, more)
}

#[test]
fn stretches_between_far_edits_are_kept(rt: HostRuntime) -> Result<(), Fail> {
    let alloc = rt.alloc();
    let edits = far_apart(alloc)?;
    let trace = many_live(alloc)?;
    with_both(alloc, trace, edits, |_, edited, steps| {
        // 64 operations from 64 on, and 65 from 3840 on
        assert_eq!(rt; steps, 129);
        assert!(rt; is_replay(alloc, edited)?);
        Ok(())
    })
}

// The clone that this operation of leaking pairs makes, with another label: it ends two operations on.
fn labelled(id: u32) -> Result<Edit, Fail> {
    let op = op_of(id, 1, Kind::Clone { from: 0, to: 2 })?;
    Ok(Edit::Change { id, op })
}

// Two clones far apart get another label.
fn assert_kept_under_remains(rt: &impl Abort, alloc: Global, run: &Run) -> Result<(), Fail> {
    let edits = two(alloc, labelled(203)?, labelled(4_003)?)?;
    with_edited(alloc, run, edits, |edited, steps| {
        assert_eq!(rt; steps, 128);
        assert!(rt; is_replay(alloc, edited)?);
        Ok(())
    })
}

// The remains of the first edit are laid over all checkpoints that the second batch passes.
#[test]
fn stretches_under_remains_are_kept(rt: HostRuntime) -> Result<(), Fail> {
    let alloc = rt.alloc();
    with_run(alloc, leaked_pairs(alloc, 4_096)?, |first| {
        let (run, _) = with_fields(alloc, first, &[Field::Null, Field::Null])?;
        assert_kept_under_remains(&rt, alloc, &run)
    })
}

// Handle 30 is made by operation 5000, behind 64 others, and ends with operation 5001, at place 3001.
fn late_end(alloc: Global) -> Result<Batch, Fail> {
    let made = insertion(64, 5_000, Kind::Null { to: 30 })?;
    let ended = insertion(3_000, 5_001, Kind::Drop { h: 30 })?;
    two(alloc, made, ended)
}

// Leaking pairs, and that handle.
fn ended_late(alloc: Global) -> Result<Trace, Fail> {
    let edits = late_end(alloc)?;
    let trace = leaked_pairs(alloc, 4_096)?;
    Ok(apply(alloc, &trace, &edits)?)
}

// The handle holds a Weak to no allocation in place of a null pointer.
fn weak() -> Result<Edit, Fail> {
    change(5_000, Kind::WeakNew { to: 30 })
}

#[test]
fn heaps_meet_where_a_handle_ends(rt: HostRuntime) -> Result<(), Fail> {
    let alloc = rt.alloc();
    let edits = batch(alloc, weak()?)?;
    let trace = ended_late(alloc)?;
    with_both(alloc, trace, edits, |run, edited, steps| {
        // the stretch in which the handle is made, and the one in which it ends
        assert_eq!(rt; steps, 128);
        assert!(rt; edited.end().same(run.end()));
        assert!(rt; is_replay(alloc, edited)?);
        Ok(())
    })
}

// The same, and an object of a pair that leaks has one field more.
fn weak_and_longer(alloc: Global) -> Result<Batch, Fail> {
    let longer = change(98, new(alloc, 1, &[Field::Null, Field::Null])?)?;
    two(alloc, weak()?, longer)
}

// What the first operations change beside the handle is still known where it ends.
#[test]
fn leaked_pair_differs_while_a_handle_does(rt: HostRuntime) -> Result<(), Fail> {
    let alloc = rt.alloc();
    let edits = weak_and_longer(alloc)?;
    let trace = ended_late(alloc)?;
    with_both(alloc, trace, edits, |run, edited, steps| {
        assert_eq!(rt; steps, 128);
        assert!(rt; !edited.end().same(run.end()));
        assert!(rt; is_replay(alloc, edited)?);
        Ok(())
    })
}
