//! Traces.
use std::test::Fail;
use trace_types::kinds::Kind;
use trace_types::ops::{Op, TraceFault};
use trace_types::trace::Trace;

// Adds an operation with this number.
fn push(trace: &mut Trace, id: u32) -> Result<(), TraceFault> {
    trace.push(Op::make(id, 0, Kind::Null { to: 0 })?)
}

#[test]
fn numbers_are_found_whether_they_rise_or_fall(rt: HostRuntime) -> Result<(), Fail> {
    let mut trace = Trace::new(rt.alloc());
    for id in [3, 5, 9] {
        push(&mut trace, id)?;
    }
    assert_eq!(rt; push(&mut trace, 5), Err(TraceFault::IdTaken));
    for id in [4, 10, 1] {
        push(&mut trace, id)?;
    }
    assert_eq!(rt; push(&mut trace, 4), Err(TraceFault::IdTaken));
    for (id, place) in [(3, 0), (5, 1), (9, 2), (4, 3), (10, 4), (1, 5)] {
        assert_eq!(rt; trace.place(id), Some(place));
    }
    assert_eq!(rt; trace.place(2), None);
    assert_eq!(rt; trace.len(), 6);
    Ok(())
}

#[test]
fn faults_are_told(rt: HostRuntime) -> Result<(), Fail> {
    let table = [
        (
            TraceFault::IdTaken,
            "the trace has an operation with this number",
        ),
        (TraceFault::TooMany, "the trace is full"),
        (TraceFault::BadOp, "the operation is outside its limits"),
        (TraceFault::Memory, "out of memory"),
    ];
    for (fault, text) in table {
        let told = format!(in rt.alloc(); "{fault}")?;
        assert_eq!(rt; told.as_str(), text);
    }
    Ok(())
}
