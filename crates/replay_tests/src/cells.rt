//! What the operations of atomic cells do.
use crate::told::{assert_told, did, did_to_none};
use std::test::Fail;
use trace_types::kinds::Kind;
use trace_types::outcomes::{Answer, Event};
use trace_types::sequence::Sequence;

#[test]
fn atomic_cells(rt: HostRuntime) -> Result<(), Fail> {
    let alloc = rt.alloc();
    let kinds = vec![in alloc;
        Kind::New {
            to: 0,
            fields: Sequence::empty(alloc)
        },
        Kind::Clone { from: 0, to: 1 },
        Kind::CellNew { c: 0, from: 1 },
        Kind::New {
            to: 2,
            fields: Sequence::empty(alloc)
        },
        Kind::CellCas {
            c: 0,
            expected: 0,
            desired: 2
        },
        Kind::New {
            to: 3,
            fields: Sequence::empty(alloc)
        },
        Kind::CellCas {
            c: 0,
            expected: 0,
            desired: 3
        },
        Kind::Null { to: 4 },
        Kind::Null { to: 5 },
        Kind::CellCas {
            c: 0,
            expected: 4,
            desired: 5
        },
        Kind::CellDrop { c: 0 },
    ]?;
    let told = [
        did(Answer::Made, 1, 1, 0, &[]),
        did(Answer::Done, 1, 2, 0, &[]),
        did(Answer::Done, 1, 2, 0, &[]),
        did(Answer::Made, 4, 1, 0, &[]),
        did(Answer::Yes, 4, 1, 0, &[]),
        did(Answer::Made, 6, 1, 0, &[]),
        did(
            Answer::No,
            4,
            2,
            0,
            &[
                Event::Destroyed(1),
                Event::Freed(1),
                Event::Destroyed(6),
                Event::Freed(6),
            ],
        ),
        did_to_none(Answer::Done, &[]),
        did_to_none(Answer::Done, &[]),
        did(Answer::No, 4, 3, 0, &[]),
        did(Answer::Done, 4, 2, 0, &[]),
    ];
    assert_told(&rt, alloc, kinds, told.as_slice())
}

#[test]
fn cell_swaps(rt: HostRuntime) -> Result<(), Fail> {
    let alloc = rt.alloc();
    let kinds = vec![in alloc;
        Kind::New {
            to: 0,
            fields: Sequence::empty(alloc)
        },
        Kind::CellNew { c: 0, from: 0 },
        Kind::CellLoad { c: 0, to: 1 },
        Kind::New {
            to: 2,
            fields: Sequence::empty(alloc)
        },
        Kind::CellSwap {
            c: 0,
            from: 2,
            to: Some(3)
        },
        Kind::Null { to: 4 },
        Kind::CellSwap {
            c: 0,
            from: 4,
            to: None
        },
        Kind::Drop { h: 1 },
        Kind::Drop { h: 3 },
    ]?;
    let told = [
        did(Answer::Made, 1, 1, 0, &[]),
        did(Answer::Done, 1, 1, 0, &[]),
        did(Answer::Done, 1, 2, 0, &[]),
        did(Answer::Made, 4, 1, 0, &[]),
        did(Answer::Done, 4, 1, 0, &[]),
        did_to_none(Answer::Done, &[]),
        did_to_none(Answer::Done, &[Event::Destroyed(4), Event::Freed(4)]),
        did(Answer::Done, 1, 1, 0, &[]),
        did(
            Answer::Done,
            1,
            0,
            0,
            &[Event::Destroyed(1), Event::Freed(1)],
        ),
    ];
    assert_told(&rt, alloc, kinds, told.as_slice())
}
