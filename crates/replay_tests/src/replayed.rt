//! Operations with what is told of them.
use leak_report::Report;
use leak_report::report::report;
use object_heap::Heap;
use std::alloc::Global;
use std::test::Fail;
use trace_types::kinds::Kind;
use trace_types::ops::Op;
use trace_types::outcomes::{Answer, Counts, Event, Outcome, Reason, Verdict};
use trace_types::sequence::Sequence;
use trace_types::trace::Trace;

// Operations with the numbers from 1 on, and what they did.
#[derive(Drop)]
pub struct Replayed {
    pub trace: Trace,
    pub outcomes: Vec<Outcome>,
    last: u32,
}

impl Replayed {
    pub fn nothing(alloc: Global) -> Replayed {
        Replayed {
            trace: Trace::new(alloc),
            outcomes: Vec::new(alloc),
            last: 0,
        }
    }

    // The next operation has this number.
    pub fn number_next(&mut self, id: u32) {
        self.last = id.saturating_sub(1);
    }

    fn add(
        &mut self,
        alloc: Global,
        kind: Kind,
        verdict: Verdict,
        counts: Option<Counts>,
        events: &[Event],
    ) -> Result<(), Fail> {
        let id = self.last.saturating_add(1);
        let op = Op::make(id, 0, kind).map_err(|_| Fail::from("limits"))?;
        self.trace.push(op).map_err(|_| Fail::from("refused"))?;
        let events = Sequence::from_vec(Vec::from_slice(alloc, events)?);
        self.outcomes.push(Outcome {
            id,
            verdict,
            events,
            counts,
        })?;
        self.last = id;
        Ok(())
    }

    pub fn did(
        &mut self,
        alloc: Global,
        kind: Kind,
        answer: Answer,
        counts: Option<Counts>,
        events: &[Event],
    ) -> Result<(), Fail> {
        self.add(alloc, kind, Verdict::Did(answer), counts, events)
    }

    pub fn skipped(&mut self, alloc: Global, kind: Kind, reason: Reason) -> Result<(), Fail> {
        self.add(alloc, kind, Verdict::Skipped(reason), None, &[])
    }
}

pub fn counts(object: u32, strong: u64, weak: u64) -> Option<Counts> {
    Some(Counts {
        object,
        strong,
        weak,
    })
}

// The report of operations with what they did, and the heap at their end.
pub fn report_of<'a>(
    alloc: Global,
    trace: &'a Trace,
    outcomes: &'a [Outcome],
    end: &Heap,
) -> Result<Report<'a>, Fail> {
    if outcomes.len() != trace.len() {
        return Err(Fail::from("as many outcomes as operations"));
    }
    Ok(report(alloc, trace, outcomes, end)?)
}
