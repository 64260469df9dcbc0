//! A trace with as many operations as there may be, and its edits.
use crate::small_runs::{assert_refused, with_edited, with_run};
use crate::small_traces::{add, batch, insertion};
use run_engine::{Run, RunFault};
use std::alloc::Global;
use std::process::Abort;
use std::test::Fail;
use trace_types::edits::Edit;
use trace_types::kinds::Kind;
use trace_types::limits::MAX_OPS;
use trace_types::trace::Trace;

// A null pointer is made and dropped in turn.
fn full_trace(alloc: Global) -> Result<Trace, Fail> {
    let mut trace = Trace::new(alloc);
    for pair in 0..MAX_OPS as u32 / 2 {
        add(&mut trace, 2 * pair + 1, Kind::Null { to: 0 })?;
        add(&mut trace, 2 * pair + 2, Kind::Drop { h: 0 })?;
    }
    Ok(trace)
}

// One operation more is refused.
fn assert_is_full(rt: &impl Abort, alloc: Global, run: &Run) -> Result<(), Fail> {
    let last = MAX_OPS as u32;
    let more = batch(alloc, insertion(last, last + 1, Kind::Null { to: 0 })?)?;
    assert_refused(rt, alloc, run, more, RunFault::TooMany(0));
    Ok(())
}

// The last operation stands behind the last checkpoint but the end.
fn assert_last_goes(rt: &impl Abort, alloc: Global, run: &Run) -> Result<(), Fail> {
    let last = MAX_OPS as u32;
    let edits = batch(alloc, Edit::Remove { id: last })?;
    with_edited(alloc, run, edits, |edited, steps| {
        assert_eq!(rt; steps, 63);
        assert_eq!(rt; edited.len(), MAX_OPS - 1);
        Ok(())
    })
}

#[test]
fn full_trace_is_edited(rt: HostRuntime) -> Result<(), Fail> {
    let alloc = rt.alloc();
    let trace = full_trace(alloc)?;
    assert_eq!(rt; trace.len(), MAX_OPS);
    with_run(alloc, trace, |run| {
        assert_is_full(&rt, alloc, run)?;
        assert_last_goes(&rt, alloc, run)
    })
}
