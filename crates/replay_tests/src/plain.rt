//! Worked traces, and what each of their operations does.
use ownership_model::plain::plain_replay;
use std::alloc::Global;
use std::process::Abort;
use std::test::Fail;
use trace_types::kinds::{Field, Kind};
use trace_types::ops::Op;
use trace_types::outcomes::{Answer, Counts, Event, Reason, Verdict};
use trace_types::sequence::Sequence;
use trace_types::slots::Slot;
use trace_types::trace::Trace;

// What is wanted of one operation.
#[derive(Clone, Copy)]
struct Told<'a> {
    verdict: Verdict,
    counts: Option<Counts>,
    events: &'a [Event],
}

fn did<'a>(answer: Answer, object: u32, strong: u64, weak: u64, events: &'a [Event]) -> Told<'a> {
    Told {
        verdict: Verdict::Did(answer),
        counts: Some(Counts {
            object,
            strong,
            weak,
        }),
        events,
    }
}

fn did_to_none<'a>(answer: Answer, events: &'a [Event]) -> Told<'a> {
    Told {
        verdict: Verdict::Did(answer),
        counts: None,
        events,
    }
}

fn skipped(reason: Reason) -> Told<'static> {
    Told {
        verdict: Verdict::Skipped(reason),
        counts: None,
        events: &[],
    }
}

fn new(alloc: Global, to: u32, fields: &[Field]) -> Result<Kind, Fail> {
    let fields = Sequence::from_vec(Vec::from_slice(alloc, fields)?);
    Ok(Kind::New { to, fields })
}

fn cell_cas(c: u32, expected: u32, desired: u32) -> Kind {
    Kind::CellCas {
        c,
        expected,
        desired,
    }
}

fn cell_swap(c: u32, from: u32, to: Option<u32>) -> Kind {
    Kind::CellSwap { c, from, to }
}

// The operations, numbered from 1.
fn trace_of(alloc: Global, kinds: Vec<Kind>) -> Result<Trace, Fail> {
    let mut trace = Trace::new(alloc);
    let mut id = 0u32;
    for kind in kinds {
        id = id.saturating_add(1);
        let op = Op::make(id, 0, kind)?;
        trace.push(op)?;
    }
    Ok(trace)
}

fn assert_told(
    rt: &impl Abort,
    alloc: Global,
    kinds: Vec<Kind>,
    told: &[Told],
) -> Result<(), Fail> {
    let trace = trace_of(alloc, kinds)?;
    let (outcomes, _end) = plain_replay(alloc, &trace)?;
    assert_eq!(rt; outcomes.len(), told.len());
    for (outcome, wanted) in outcomes.as_slice().iter().zip(told) {
        assert_eq!(rt; outcome.verdict, wanted.verdict);
        assert_eq!(rt; outcome.counts, wanted.counts);
        assert_eq!(rt; outcome.events.as_slice(), wanted.events);
    }
    Ok(())
}

#[test]
fn fields_in_order(rt: HostRuntime) -> Result<(), Fail> {
    let alloc = rt.alloc();
    let kinds = vec![in alloc;
        new(alloc, 0, &[])?,
        new(alloc, 1, &[Field::Held(0)])?,
        new(alloc, 2, &[])?,
        Kind::Downgrade { from: 2, to: 3 },
        new(alloc, 4, &[])?,
        new(alloc, 5, &[Field::Held(1), Field::Held(3), Field::Held(4)])?,
        Kind::Drop { h: 5 },
    ]?;
    let dropped = [
        Event::Destroyed(6),
        Event::Destroyed(2),
        Event::Destroyed(1),
        Event::Freed(1),
        Event::Freed(2),
        Event::Destroyed(5),
        Event::Freed(5),
        Event::Freed(6),
    ];
    let told = [
        did(Answer::Made, 1, 1, 0, &[]),
        did(Answer::Made, 2, 1, 0, &[]),
        did(Answer::Made, 3, 1, 0, &[]),
        did(Answer::Done, 3, 1, 1, &[]),
        did(Answer::Made, 5, 1, 0, &[]),
        did(Answer::Made, 6, 1, 0, &[]),
        did(Answer::Done, 6, 0, 0, &dropped),
    ];
    assert_told(&rt, alloc, kinds, told.as_slice())
}

#[test]
fn handles_to_one_object(rt: HostRuntime) -> Result<(), Fail> {
    let alloc = rt.alloc();
    let kinds = vec![in alloc;
        new(alloc, 0, &[])?,
        Kind::Clone { from: 0, to: 1 },
        Kind::MakeMut { h: 0 },
        Kind::Downgrade { from: 0, to: 2 },
        Kind::MakeMut { h: 0 },
        Kind::Upgrade { from: 2, to: 3 },
        Kind::MakeMut { h: 0 },
        Kind::GetMut { h: 0 },
        Kind::PtrEq { a: 0, b: 1 },
        Kind::Clone { from: 0, to: 0 },
    ]?;
    let told = [
        did(Answer::Made, 1, 1, 0, &[]),
        did(Answer::Done, 1, 2, 0, &[]),
        did(Answer::Cloned, 3, 1, 0, &[]),
        did(Answer::Done, 3, 1, 1, &[]),
        did(Answer::Moved, 5, 1, 0, &[Event::Moved(3)]),
        did(Answer::No, 3, 0, 1, &[]),
        did(Answer::Unique, 5, 1, 0, &[]),
        did(Answer::Yes, 5, 1, 0, &[]),
        did(Answer::No, 5, 1, 0, &[]),
        skipped(Reason::SameName(0)),
    ];
    assert_told(&rt, alloc, kinds, told.as_slice())
}

#[test]
fn weak_slots(rt: HostRuntime) -> Result<(), Fail> {
    let alloc = rt.alloc();
    let fields = Sequence::from_vec(vec![in alloc; Field::Me]?);
    let kinds = vec![in alloc;
        Kind::NewCyclic { to: 0, fields },
        Kind::Drop { h: 0 },
        Kind::WeakNew { to: 1 },
        Kind::Upgrade { from: 1, to: 2 },
    ]?;
    let dropped = [Event::Destroyed(1), Event::Freed(1)];
    let told = [
        did(Answer::Made, 1, 1, 1, &[]),
        did(Answer::Done, 1, 0, 0, &dropped),
        did_to_none(Answer::Done, &[]),
        did_to_none(Answer::No, &[]),
    ];
    assert_told(&rt, alloc, kinds, told.as_slice())
}

#[test]
fn cells(rt: HostRuntime) -> Result<(), Fail> {
    let alloc = rt.alloc();
    let kinds = vec![in alloc;
        new(alloc, 0, &[])?,
        Kind::Clone { from: 0, to: 1 },
        Kind::CellNew { c: 0, from: 1 },
        new(alloc, 2, &[])?,
        cell_cas(0, 0, 2),
        new(alloc, 3, &[])?,
        cell_cas(0, 0, 3),
        Kind::Null { to: 4 },
        Kind::CellLoad { c: 0, to: 5 },
        cell_swap(0, 4, Some(6)),
        cell_swap(0, 5, None),
        Kind::CellDrop { c: 0 },
    ]?;
    let dropped = [
        Event::Destroyed(1),
        Event::Freed(1),
        Event::Destroyed(6),
        Event::Freed(6),
    ];
    let told = [
        did(Answer::Made, 1, 1, 0, &[]),
        did(Answer::Done, 1, 2, 0, &[]),
        did(Answer::Done, 1, 2, 0, &[]),
        did(Answer::Made, 4, 1, 0, &[]),
        did(Answer::Yes, 4, 1, 0, &[]),
        did(Answer::Made, 6, 1, 0, &[]),
        did(Answer::No, 4, 2, 0, &dropped),
        did_to_none(Answer::Done, &[]),
        did(Answer::Done, 4, 3, 0, &[]),
        did_to_none(Answer::Done, &[]),
        did(Answer::Done, 4, 3, 0, &[]),
        did(Answer::Done, 4, 2, 0, &[]),
    ];
    assert_told(&rt, alloc, kinds, told.as_slice())
}

#[test]
fn values_outside(rt: HostRuntime) -> Result<(), Fail> {
    let alloc = rt.alloc();
    let set = Kind::Set {
        h: 0,
        i: 0,
        from: 1,
    };
    let kinds = vec![in alloc;
        new(alloc, 0, &[Field::Null])?,
        Kind::TryUnwrap { h: 0 },
        new(alloc, 1, &[])?,
        set,
        Kind::NewFrom { from: 0, to: 2 },
        Kind::Get { h: 2, i: 0, to: 3 },
        Kind::Counts { h: 3 },
        Kind::Take { h: 2, i: 0, to: 4 },
        Kind::IntoInner { h: 4 },
        Kind::IntoInner { h: 3 },
        Kind::Get { h: 2, i: 1, to: 5 },
    ]?;
    let told = [
        did(Answer::Made, 1, 1, 0, &[]),
        did(
            Answer::Yes,
            1,
            0,
            0,
            &[Event::Unwrapped(1), Event::Freed(1)],
        ),
        did(Answer::Made, 3, 1, 0, &[]),
        did_to_none(Answer::Done, &[]),
        did(Answer::Made, 5, 1, 0, &[]),
        did(Answer::Done, 5, 1, 0, &[]),
        did(Answer::Done, 3, 2, 0, &[]),
        did(Answer::Done, 5, 1, 0, &[]),
        did(Answer::No, 3, 1, 0, &[]),
        did(
            Answer::Yes,
            3,
            0,
            0,
            &[Event::Unwrapped(3), Event::Freed(3)],
        ),
        skipped(Reason::NoField(1)),
    ];
    assert_told(&rt, alloc, kinds, told.as_slice())
}

#[test]
fn what_is_held_in_the_end(rt: HostRuntime) -> Result<(), Fail> {
    let alloc = rt.alloc();
    let kinds = vec![in alloc;
        Kind::Null { to: 7 },
        Kind::Clone { from: 7, to: 3 },
        Kind::CellNew { c: 0, from: 7 },
        new(alloc, 7, &[])?,
    ]?;
    let trace = trace_of(alloc, kinds)?;
    let (_outcomes, end) = plain_replay(alloc, &trace)?;
    assert_eq!(rt; end.handles.entries().len(), 2);
    assert!(rt; end.handles.get(3).is_some());
    assert!(rt; end.handles.get(5).is_none());
    assert!(rt; end.cells.get(0).is_some());
    assert!(rt; end.objects.get(4).is_some());
    assert_eq!(rt; end.count(Slot::Strong(4), &[]), 1);
    Ok(())
}
