//! Small programs, and what each of their operations does.
use crate::told::{assert_told, did, did_to_none, skipped, trace_of};
use object_heap::Heap;
use op_step::replay::replay;
use op_step::{ChunkRun, Meter, run, step};
use std::alloc::Global;
use std::process::Abort;
use std::test::Fail;
use trace_types::kinds::{Field, Kind};
use trace_types::ops::Op;
use trace_types::outcomes::{Answer, Counts, Event, Reason, Verdict};
use trace_types::sequence::Sequence;

#[test]
fn empty_trace(rt: HostRuntime) -> Result<(), Fail> {
    let alloc = rt.alloc();
    assert_told(&rt, alloc, Vec::new(alloc), &[])
}

#[test]
fn meter_counts_operations(rt: HostRuntime) -> Result<(), Fail> {
    let alloc = rt.alloc();
    let kinds = vec![in alloc;
        Kind::Null { to: 0 },
        Kind::Drop { h: 0 },
        Kind::Drop { h: 0 },
    ]?;
    let trace = trace_of(alloc, kinds)?;
    let mut meter = Meter::new();
    let (_outcomes, _end) = replay(alloc, &trace, &mut meter)?;
    assert_eq!(rt; meter.count(), 3);
    Ok(())
}

// A share of the chunk is the replay of two operations from nothing.
fn assert_kept(rt: &impl Abort, chunk: &ChunkRun) -> Result<(), Fail> {
    let same = chunk.share()?;
    assert!(rt; same.start().same(&Heap::empty()));
    assert_eq!(rt; same.ops().len(), 2);
    assert_eq!(rt; same.outcomes().len(), 2);
    assert!(rt; same.end().holding(1).is_some());
    Ok(())
}

#[test]
fn chunk_keeps_its_replay(rt: HostRuntime) -> Result<(), Fail> {
    let alloc = rt.alloc();
    let kinds = vec![in alloc; Kind::Null { to: 0 }, Kind::Clone { from: 0, to: 1 }]?;
    let trace = trace_of(alloc, kinds)?;
    let start = Heap::empty();
    let mut meter = Meter::new();
    let chunk = run(alloc, &start, trace.as_slice(), &mut meter)?;
    assert_eq!(rt; meter.count(), 2);
    assert_kept(&rt, &chunk)
}

#[test]
fn nested_fields(rt: HostRuntime) -> Result<(), Fail> {
    let alloc = rt.alloc();
    let fields = Sequence::from_vec(Vec::from_slice(alloc, &[Field::Held(0)])?);
    let more_fields = Sequence::from_vec(Vec::from_slice(
        alloc,
        &[Field::Held(1), Field::Held(3), Field::Held(4)],
    )?);
    let kinds = vec![in alloc;
        Kind::New {
            to: 0,
            fields: Sequence::empty(alloc)
        },
        Kind::New { to: 1, fields },
        Kind::New {
            to: 2,
            fields: Sequence::empty(alloc)
        },
        Kind::Downgrade { from: 2, to: 3 },
        Kind::New {
            to: 4,
            fields: Sequence::empty(alloc)
        },
        Kind::New {
            to: 5,
            fields: more_fields
        },
        Kind::Drop { h: 5 },
    ]?;
    let told = [
        did(Answer::Made, 1, 1, 0, &[]),
        did(Answer::Made, 2, 1, 0, &[]),
        did(Answer::Made, 3, 1, 0, &[]),
        did(Answer::Done, 3, 1, 1, &[]),
        did(Answer::Made, 5, 1, 0, &[]),
        did(Answer::Made, 6, 1, 0, &[]),
        did(
            Answer::Done,
            6,
            0,
            0,
            &[
                Event::Destroyed(6),
                Event::Destroyed(2),
                Event::Destroyed(1),
                Event::Freed(1),
                Event::Freed(2),
                Event::Destroyed(5),
                Event::Freed(5),
                Event::Freed(6),
            ],
        ),
    ];
    assert_told(&rt, alloc, kinds, told.as_slice())
}

#[test]
fn make_mut(rt: HostRuntime) -> Result<(), Fail> {
    let alloc = rt.alloc();
    let kinds = vec![in alloc;
        Kind::New {
            to: 0,
            fields: Sequence::empty(alloc)
        },
        Kind::Clone { from: 0, to: 1 },
        Kind::MakeMut { h: 0 },
        Kind::Downgrade { from: 0, to: 2 },
        Kind::MakeMut { h: 0 },
        Kind::Upgrade { from: 2, to: 3 },
        Kind::MakeMut { h: 0 },
    ]?;
    let told = [
        did(Answer::Made, 1, 1, 0, &[]),
        did(Answer::Done, 1, 2, 0, &[]),
        did(Answer::Cloned, 3, 1, 0, &[]),
        did(Answer::Done, 3, 1, 1, &[]),
        did(Answer::Moved, 5, 1, 0, &[Event::Moved(3)]),
        did(Answer::No, 3, 0, 1, &[]),
        did(Answer::Unique, 5, 1, 0, &[]),
    ];
    assert_told(&rt, alloc, kinds, told.as_slice())
}

#[test]
fn unwrap(rt: HostRuntime) -> Result<(), Fail> {
    let alloc = rt.alloc();
    let fields = Sequence::from_vec(Vec::from_slice(alloc, &[Field::Held(0)])?);
    let kinds = vec![in alloc;
        Kind::New {
            to: 0,
            fields: Sequence::empty(alloc)
        },
        Kind::New { to: 1, fields },
        Kind::Clone { from: 1, to: 2 },
        Kind::TryUnwrap { h: 1 },
        Kind::IntoInner { h: 2 },
        Kind::Downgrade { from: 1, to: 3 },
        Kind::IntoInner { h: 1 },
        Kind::Drop { h: 3 },
        Kind::Drop { h: 1 },
    ]?;
    let told = [
        did(Answer::Made, 1, 1, 0, &[]),
        did(Answer::Made, 2, 1, 0, &[]),
        did(Answer::Done, 2, 2, 0, &[]),
        did(Answer::No, 2, 2, 0, &[]),
        did(Answer::No, 2, 1, 0, &[]),
        did(Answer::Done, 2, 1, 1, &[]),
        did(Answer::Yes, 2, 0, 1, &[Event::Unwrapped(2)]),
        did(Answer::Done, 2, 0, 0, &[Event::Freed(2)]),
        did_to_none(Answer::Done, &[Event::Destroyed(1), Event::Freed(1)]),
    ];
    assert_told(&rt, alloc, kinds, told.as_slice())
}

#[test]
fn bare_values(rt: HostRuntime) -> Result<(), Fail> {
    let alloc = rt.alloc();
    let fields = Sequence::from_vec(Vec::from_slice(alloc, &[Field::Null])?);
    let kinds = vec![in alloc;
        Kind::New { to: 0, fields },
        Kind::TryUnwrap { h: 0 },
        Kind::New {
            to: 1,
            fields: Sequence::empty(alloc)
        },
        Kind::Set {
            h: 0,
            i: 0,
            from: 1
        },
        Kind::NewFrom { from: 0, to: 2 },
        Kind::Get { h: 2, i: 0, to: 3 },
        Kind::Counts { h: 3 },
        Kind::Take { h: 2, i: 0, to: 4 },
        Kind::Counts { h: 4 },
        Kind::Drop { h: 3 },
        Kind::Drop { h: 4 },
        Kind::Drop { h: 2 },
    ]?;
    let told = [
        did(Answer::Made, 1, 1, 0, &[]),
        did(
            Answer::Yes,
            1,
            0,
            0,
            &[Event::Unwrapped(1), Event::Freed(1)],
        ),
        did(Answer::Made, 3, 1, 0, &[]),
        did_to_none(Answer::Done, &[]),
        did(Answer::Made, 5, 1, 0, &[]),
        did(Answer::Done, 5, 1, 0, &[]),
        did(Answer::Done, 3, 2, 0, &[]),
        did(Answer::Done, 5, 1, 0, &[]),
        did(Answer::Done, 3, 2, 0, &[]),
        did(Answer::Done, 3, 1, 0, &[]),
        did(
            Answer::Done,
            3,
            0,
            0,
            &[Event::Destroyed(3), Event::Freed(3)],
        ),
        did(
            Answer::Done,
            5,
            0,
            0,
            &[Event::Destroyed(5), Event::Freed(5)],
        ),
    ];
    assert_told(&rt, alloc, kinds, told.as_slice())
}

#[test]
fn skips(rt: HostRuntime) -> Result<(), Fail> {
    let alloc = rt.alloc();
    let kinds = vec![in alloc;
        Kind::Drop { h: 5 },
        Kind::New {
            to: 0,
            fields: Sequence::empty(alloc)
        },
        Kind::New {
            to: 0,
            fields: Sequence::empty(alloc)
        },
        Kind::Upgrade { from: 0, to: 1 },
        Kind::Clone { from: 0, to: 0 },
        Kind::Get { h: 0, i: 0, to: 1 },
        Kind::CellLoad { c: 3, to: 0 },
        Kind::PtrEq { a: 0, b: 0 },
        Kind::Drop { h: 0 },
        Kind::Drop { h: 0 },
        Kind::Null { to: 1 },
        Kind::CellNew { c: 0, from: 1 },
        Kind::Null { to: 1 },
        Kind::CellNew { c: 0, from: 1 },
    ]?;
    let told = [
        skipped(Reason::NotHeld(5)),
        did(Answer::Made, 2, 1, 0, &[]),
        skipped(Reason::AlreadyHeld(0)),
        skipped(Reason::WrongKind(0)),
        skipped(Reason::SameName(0)),
        skipped(Reason::NoField(0)),
        skipped(Reason::NoCell(3)),
        did(Answer::Yes, 2, 1, 0, &[]),
        did(
            Answer::Done,
            2,
            0,
            0,
            &[Event::Destroyed(2), Event::Freed(2)],
        ),
        skipped(Reason::NotHeld(0)),
        did_to_none(Answer::Done, &[]),
        did_to_none(Answer::Done, &[]),
        did_to_none(Answer::Done, &[]),
        skipped(Reason::CellHeld(0)),
    ];
    assert_told(&rt, alloc, kinds, told.as_slice())
}

// A share of the heap holds what it does: object 1 by handle 0.
fn assert_holds_one(rt: &impl Abort, alloc: Global, heap: &Heap) -> Result<(), Fail> {
    let share = heap.share()?;
    assert!(rt; share.same(heap));
    assert_eq!(rt; share.handles(alloc)?.as_slice(), [0].as_slice());
    assert_eq!(rt; share.cells(alloc)?.len(), 0);
    assert_eq!(rt; share.objects(alloc)?.as_slice(), [1].as_slice());
    Ok(())
}

#[test]
fn one_new(rt: HostRuntime) -> Result<(), Fail> {
    let alloc = rt.alloc();
    let fields = Sequence::empty(alloc);
    let op = Op::make(1, 0, Kind::New { to: 0, fields })?;
    let mut meter = Meter::new();
    let (heap, outcome) = step(alloc, &Heap::empty(), &op, &mut meter)?;
    assert_eq!(rt; outcome.verdict, Verdict::Did(Answer::Made));
    assert_eq!(rt; meter.count(), 1);
    assert_holds_one(&rt, alloc, &heap)
}
