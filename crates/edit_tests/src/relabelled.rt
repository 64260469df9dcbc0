//! An operation of another label: where the replay stops, and what the report says.
use crate::small_runs::with_both;
use crate::small_traces::{add, add_of, add_pairs, batch, new, op_of};
use leak_report::report::report;
use leak_report::{report_of_stretches, text_of};
use object_heap::Heap;
use op_step::Meter;
use op_step::replay::replay;
use run_engine::Run;
use std::alloc::Global;
use std::process::Abort;
use std::test::Fail;
use trace_reader::read_trace;
use trace_types::edits::{Batch, Edit};
use trace_types::kinds::{Field, Kind};
use trace_types::ops::Op;
use trace_types::outcomes::Outcome;
use trace_types::trace::Trace;

// The report of a run.
fn run_shown(alloc: Global, run: &Run) -> Result<String, Fail> {
    let shown = report_of_stretches(alloc, run.stretches(alloc)?, run.end())?;
    Ok(text_of(alloc, &shown)?)
}

// An operation becomes another.
fn changed(alloc: Global, changed: Op) -> Result<Batch, Fail> {
    let id = changed.id();
    batch(alloc, Edit::Change { id, op: changed })
}

const TWO_LABELS: &str = "\
{\"fields\":[],\"id\":1,\"op\":\"new\",\"t\":0,\"to\":0}
{\"fields\":[],\"id\":2,\"op\":\"new\",\"t\":1,\"to\":1}
{\"from\":1,\"id\":3,\"op\":\"clone\",\"t\":0,\"to\":2}
{\"from\":0,\"id\":4,\"op\":\"downgrade\",\"t\":0,\"to\":3}
{\"fields\":[2],\"id\":5,\"op\":\"new\",\"t\":0,\"to\":4}
{\"id\":6,\"op\":\"scope_end\",\"t\":0}
{\"id\":7,\"op\":\"scope_end\",\"t\":1}
{\"id\":8,\"op\":\"scope_end\",\"t\":1}
";

const RELABELLED: &str = "\
1 new made #1 1/0
2 new made #2 1/0
3 clone done #2 2/0
4 downgrade done #1 1/1
5 new made #5 1/0
6 scope_end done destroyed #1 freed #1
7 scope_end done destroyed #5 freed #5 destroyed #2 freed #2
8 scope_end done
object 1 destroyed 6 freed 6
object 2 destroyed 7 freed 7
object 5 destroyed 7 freed 7
total 8 ops 0 skipped 3 objects 0 alive 0 leaks 0 husks
";

// Operation 5 with the other label.
fn fifth(alloc: Global) -> Result<Batch, Fail> {
    changed(alloc, op_of(5, 1, new(alloc, 4, &[Field::Held(2)])?)?)
}

#[test]
fn scope_end_relabelled(rt: HostRuntime) -> Result<(), Fail> {
    let alloc = rt.alloc();
    let edits = fifth(alloc)?;
    let trace = read_trace(alloc, TWO_LABELS.as_bytes())?;
    with_both(alloc, trace, edits, |_, edited, _| {
        let text = run_shown(alloc, edited)?;
        assert_eq!(rt; text.as_str(), RELABELLED);
        Ok(())
    })
}

// A handle of label 0 or 1, objects that come and go, and the end of the scope of label 1 far behind.
fn far_scope_end(alloc: Global, label: u32) -> Result<Trace, Fail> {
    let mut trace = Trace::new(alloc);
    add_of(&mut trace, 1, label, Kind::Null { to: 0 })?;
    add_pairs(alloc, &mut trace, 2, 129)?;
    add_of(&mut trace, 130, 1, Kind::ScopeEnd)?;
    add(&mut trace, 131, Kind::Drop { h: 0 })?;
    Ok(trace)
}

// The report of a trace, its outcomes and the heap that they end with.
fn shown(alloc: Global, trace: &Trace, outcomes: &[Outcome], end: &Heap) -> Result<String, Fail> {
    if outcomes.len() != trace.len() {
        return Err(Fail::from("as many outcomes as operations"));
    }
    let shown = report(alloc, trace, outcomes, end)?;
    Ok(text_of(alloc, &shown)?)
}

// The report of the replay of the trace from nothing.
fn reported(alloc: Global, trace: &Trace) -> Result<String, Fail> {
    let (outcomes, end) = replay(alloc, trace, &mut Meter::new())?;
    shown(alloc, trace, outcomes.as_slice(), &end)
}

// The report of such a trace whose handle has label 1.
fn wanted(alloc: Global) -> Result<String, Fail> {
    let trace = far_scope_end(alloc, 1)?;
    reported(alloc, &trace)
}

// The handle gets label 1 by an edit.
fn assert_relabelled(rt: &impl Abort, alloc: Global, edited: &Run) -> Result<(), Fail> {
    let text = run_shown(alloc, edited)?;
    let wanted = wanted(alloc)?;
    assert!(rt; text.as_str() == wanted.as_str());
    assert!(rt;
        text.as_str()
            .contains("\n130 scope_end done\n131 drop skipped NotHeld 0\n")
    );
    Ok(())
}

// Two states that differ in the label of a handle alone do not agree, so that the old checkpoints are not taken. The stretch between
// touches nothing that differs, and is taken over.
#[test]
fn scopes_differ(rt: HostRuntime) -> Result<(), Fail> {
    let alloc = rt.alloc();
    let edits = changed(alloc, op_of(1, 1, Kind::Null { to: 0 })?)?;
    let trace = far_scope_end(alloc, 0)?;
    with_both(alloc, trace, edits, |_, edited, steps| {
        assert_eq!(rt; steps, 67);
        assert_relabelled(&rt, alloc, edited)
    })
}
