//! Each kind of line of a report.
use crate::replayed::{Replayed, counts};
use leak_report::lives::lives;
use leak_report::{Report, text_of};
use ownership_model::{Holder, HuskLeft, Leak, Leaks};
use std::alloc::Global;
use std::test::Fail;
use trace_types::kinds::Kind;
use trace_types::outcomes::{Answer, Event, Reason};
use trace_types::sequence::Sequence;
use trace_types::stretches::Stretch;

fn add_makers(alloc: Global, all: &mut Replayed) -> Result<(), Fail> {
    let none = Sequence::empty(alloc);
    all.did(
        alloc,
        Kind::New {
            to: 0,
            fields: none,
        },
        Answer::Made,
        counts(1, 1, 0),
        &[],
    )?;
    let none = Sequence::empty(alloc);
    all.did(
        alloc,
        Kind::NewCyclic {
            to: 1,
            fields: none,
        },
        Answer::Made,
        counts(2, 1, 1),
        &[],
    )?;
    all.did(
        alloc,
        Kind::NewFrom { from: 2, to: 3 },
        Answer::Made,
        counts(3, 1, 0),
        &[],
    )?;
    all.did(alloc, Kind::WeakNew { to: 4 }, Answer::Done, None, &[])?;
    all.did(alloc, Kind::Null { to: 5 }, Answer::Done, None, &[])
}

fn add_handles(alloc: Global, all: &mut Replayed) -> Result<(), Fail> {
    let gone = [Event::Destroyed(2), Event::Freed(2)];
    all.did(
        alloc,
        Kind::Clone { from: 0, to: 6 },
        Answer::Done,
        counts(1, 2, 0),
        &[],
    )?;
    all.did(
        alloc,
        Kind::Drop { h: 1 },
        Answer::Done,
        counts(2, 0, 0),
        &gone,
    )?;
    all.did(
        alloc,
        Kind::Downgrade { from: 0, to: 7 },
        Answer::Done,
        counts(1, 2, 1),
        &[],
    )?;
    all.did(
        alloc,
        Kind::Upgrade { from: 7, to: 8 },
        Answer::Yes,
        counts(1, 3, 1),
        &[],
    )
}

fn add_uniques(alloc: Global, all: &mut Replayed) -> Result<(), Fail> {
    let gone = [Event::Unwrapped(3), Event::Freed(3)];
    let most = counts(1, 18446744073709551615, 1);
    all.did(
        alloc,
        Kind::TryUnwrap { h: 3 },
        Answer::Yes,
        counts(3, 0, 0),
        &gone,
    )?;
    all.did(alloc, Kind::IntoInner { h: 0 }, Answer::No, None, &[])?;
    all.did(alloc, Kind::GetMut { h: 6 }, Answer::Unique, most, &[])?;
    all.did(
        alloc,
        Kind::MakeMut { h: 6 },
        Answer::Cloned,
        counts(13, 1, 0),
        &[],
    )?;
    all.did(alloc, Kind::Counts { h: 4 }, Answer::Done, None, &[])
}

fn add_skipped(alloc: Global, all: &mut Replayed) -> Result<(), Fail> {
    let set = Kind::Set {
        h: 6,
        i: 0,
        from: 999999,
    };
    all.skipped(alloc, Kind::PtrEq { a: 4, b: 4 }, Reason::SameName(4))?;
    all.skipped(alloc, set, Reason::NotHeld(999999))?;
    all.skipped(
        alloc,
        Kind::Take { h: 6, i: 15, to: 9 },
        Reason::NoField(15),
    )?;
    all.skipped(alloc, Kind::Get { h: 5, i: 0, to: 9 }, Reason::WrongKind(5))
}

fn add_cells(alloc: Global, all: &mut Replayed) -> Result<(), Fail> {
    let moved = [Event::Moved(13)];
    let swap = Kind::CellSwap {
        c: 6,
        from: 5,
        to: Some(8),
    };
    let exchange = Kind::CellCas {
        c: 6,
        expected: 4,
        desired: 5,
    };
    all.skipped(alloc, Kind::CellNew { c: 6, from: 5 }, Reason::CellHeld(6))?;
    all.skipped(alloc, Kind::CellLoad { c: 7, to: 9 }, Reason::NoCell(7))?;
    all.skipped(alloc, swap, Reason::AlreadyHeld(8))?;
    all.did(alloc, exchange, Answer::No, None, &[])?;
    all.did(
        alloc,
        Kind::CellDrop { c: 6 },
        Answer::Moved,
        counts(23, 1, 0),
        &moved,
    )
}

// Two leaked objects, which hold one another, and a husk.
fn some_leaks(alloc: Global) -> Result<Leaks, Fail> {
    let by_two = vec![in alloc;
        Holder {
            object: 1,
            field: 2
        },
        Holder {
            object: 23,
            field: 0
        },
    ]?;
    let by_one = vec![in alloc;
        Holder {
            object: 1,
            field: 15
        },
    ]?;
    let leaked = vec![in alloc;
        Leak {
            object: 1,
            holders: Sequence::from_vec(by_two)
        },
        Leak {
            object: 23,
            holders: Sequence::from_vec(by_one)
        },
    ]?;
    let husks = vec![in alloc;
        HuskLeft {
            object: 13,
            weak: 2
        },
    ]?;
    Ok(Leaks {
        leaked: Sequence::from_vec(leaked),
        husks: Sequence::from_vec(husks),
    })
}

fn shown_text(alloc: Global, all: &Replayed, leaks: Leaks) -> Result<String, Fail> {
    let ops = all.trace.as_slice();
    let outcomes = all.outcomes.as_slice();
    if outcomes.len() != ops.len() {
        return Err(Fail::from("as many outcomes as operations"));
    }
    let mut stretches = Vec::new(alloc);
    stretches.push(Stretch { ops, outcomes })?;
    let lives = lives(alloc, &stretches)?;
    let shown = Report::new(stretches, lives, leaks);
    Ok(text_of(alloc, &shown)?)
}

#[test]
fn each_kind_of_line(rt: HostRuntime) -> Result<(), Fail> {
    let alloc = rt.alloc();
    let mut all = Replayed::nothing(alloc);
    add_makers(alloc, &mut all)?;
    add_handles(alloc, &mut all)?;
    add_uniques(alloc, &mut all)?;
    add_skipped(alloc, &mut all)?;
    add_cells(alloc, &mut all)?;
    let text = shown_text(alloc, &all, some_leaks(alloc)?)?;
    assert_eq!(rt;
        text.as_str(),
        "\
1 new made #1 1/0
2 new_cyclic made #2 1/1
3 new_from made #3 1/0
4 weak_new done
5 null done
6 clone done #1 2/0
7 drop done #2 0/0 destroyed #2 freed #2
8 downgrade done #1 2/1
9 upgrade yes #1 3/1
10 try_unwrap yes #3 0/0 unwrapped #3 freed #3
11 into_inner no
12 get_mut unique #1 18446744073709551615/1
13 make_mut cloned #13 1/0
14 counts done
15 ptr_eq skipped SameName 4
16 set skipped NotHeld 999999
17 take skipped NoField 15
18 get skipped WrongKind 5
19 cell_new skipped CellHeld 6
20 cell_load skipped NoCell 7
21 cell_swap skipped AlreadyHeld 8
22 cell_cas no
23 cell_drop moved #23 1/0 moved #13
object 1 alive
object 2 destroyed 7 freed 7
object 3 unwrapped 10 freed 10
object 13 moved 23
object 23 alive
leak 1 held by 1.2 23.0
leak 23 held by 1.15
husk 13 weak 2
total 23 ops 7 skipped 5 objects 2 alive 2 leaks 1 husks
"
    );
    Ok(())
}
