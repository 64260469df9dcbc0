//! What is wanted of each operation of a small program.
use op_step::Meter;
use op_step::replay::replay;
use std::alloc::Global;
use std::process::Abort;
use std::test::Fail;
use trace_types::kinds::Kind;
use trace_types::ops::Op;
use trace_types::outcomes::{Answer, Counts, Event, Reason, Verdict};
use trace_types::trace::Trace;

// What is wanted of one operation.
#[derive(Clone, Copy)]
pub struct Told<'a> {
    pub verdict: Verdict,
    pub counts: Option<Counts>,
    pub events: &'a [Event],
}

pub fn did<'a>(
    answer: Answer,
    object: u32,
    strong: u64,
    weak: u64,
    events: &'a [Event],
) -> Told<'a> {
    Told {
        verdict: Verdict::Did(answer),
        counts: Some(Counts {
            object,
            strong,
            weak,
        }),
        events,
    }
}

pub fn did_to_none<'a>(answer: Answer, events: &'a [Event]) -> Told<'a> {
    Told {
        verdict: Verdict::Did(answer),
        counts: None,
        events,
    }
}

pub fn skipped(reason: Reason) -> Told<'static> {
    Told {
        verdict: Verdict::Skipped(reason),
        counts: None,
        events: &[],
    }
}

// The operations, numbered from 1.
pub fn trace_of(alloc: Global, kinds: Vec<Kind>) -> Result<Trace, Fail> {
    let mut trace = Trace::new(alloc);
    let mut id = 0u32;
    for kind in kinds {
        id = id.saturating_add(1);
        let op = Op::make(id, 0, kind)?;
        trace.push(op)?;
    }
    Ok(trace)
}

pub fn assert_told(
    rt: &impl Abort,
    alloc: Global,
    kinds: Vec<Kind>,
    told: &[Told],
) -> Result<(), Fail> {
    let trace = trace_of(alloc, kinds)?;
    let mut meter = Meter::new();
    let (outcomes, _end) = replay(alloc, &trace, &mut meter)?;
    assert_eq!(rt; outcomes.len(), told.len());
    assert_eq!(rt; outcomes.len(), trace.len());
    for (outcome, wanted) in outcomes.as_slice().iter().zip(told) {
        assert_eq!(rt; outcome.verdict, wanted.verdict);
        assert_eq!(rt; outcome.counts, wanted.counts);
        assert_eq!(rt; outcome.events.as_slice(), wanted.events);
    }
    Ok(())
}
