//! Runs with more operations than a desk has checkpoints for: the replay of an edit goes on from an anchor.
ghost use Rattle.std.specs.Prelude.{◌<◌};

use crate::kept::{nulls, step_over, with_kept};
use crate::meetings::leaked_pairs;
use crate::random_edits::{Dice, edited_often, rolled_trace};
use crate::small_runs::{is_replay, with_shelf};
use crate::small_traces::{add, add_pairs, batch, change, insertion, new};
use crate::untouched::with_pairs;
use edit_desk::{KEPT_CHUNKS, KEPT_MARKS, KEPT_NAMES};
use mark_shelf::MarkShelf;
use op_step::Meter;
use run_engine::Run;
use std::alloc::Global;
use std::process::Abort;
use std::test::Fail;
use trace_types::edits::Batch;
use trace_types::kinds::{Field, Kind};
use trace_types::trace::Trace;

// Lends the run of a trace, loaded over a shelf as a desk loads it.
fn with_loaded<F: FnOnce(&mut Run, &mut MarkShelf) -> Result<(), Fail>>(
    alloc: Global,
    trace: &Trace,
    judge: F,
) -> Result<(), Fail>
    requires { F.IsAlwaysCallable judge }
{
    with_shelf(alloc, KEPT_MARKS, KEPT_CHUNKS, KEPT_NAMES, |shelf| {
        with_kept(alloc, trace, shelf, judge)
    })
}

// How many operations stand from a place on up to the next checkpoint.
fn to_next(alloc: Global, run: &Run, place: usize) -> Result<u64, Fail> {
    let marks = run.marks(alloc)?;
    for mark in marks.as_slice() {
        if *mark > place {
            return Ok(mark.saturating_sub(place) as u64);
        }
    }
    Ok(0)
}

// An edit at a place, and whether no more is stepped for it than stands between two anchors, and from there up to the next checkpoint.
fn is_near(
    alloc: Global,
    run: &mut Run,
    shelf: &mut MarkShelf,
    edits: &Batch,
    place: usize,
) -> Result<bool, Fail> {
    let behind = to_next(alloc, run, place)?;
    let steps = step_over(alloc, run, edits, shelf)?;
    Ok(steps <= behind.saturating_add(2_200))
}

// One operation more behind each place.
fn assert_near(
    rt: &impl Abort,
    alloc: Global,
    run: &mut Run,
    shelf: &mut MarkShelf,
) -> Result<(), Fail> {
    for turn in 0..40u32 {
        let after = 130_000 - 3_100 * turn;
        let edits = batch(
            alloc,
            insertion(after, 300_000 + turn, Kind::Counts { h: 5 })?,
        )?;
        assert!(rt; is_near(alloc, run, shelf, &edits, after as usize)?);
    }
    assert!(rt; is_replay(alloc, run)?);
    Ok(())
}

#[test]
fn edits_go_on_from_anchors(rt: HostRuntime) -> Result<(), Fail> {
    let alloc = rt.alloc();
    let trace = nulls(alloc, 1, 200_000)?;
    with_loaded(alloc, &trace, |run, shelf| {
        assert_near(&rt, alloc, run, shelf)
    })
}

// The edits of an object's fields there and back, in turn: what leaks differs to the end, but nothing else.
fn refitted(alloc: Global, turn: u32) -> Result<Batch, Fail>
    requires { turn < 10 }
{
    let id = 98 + 19_200 * (turn / 2);
    if turn % 2 == 0 {
        return batch(
            alloc,
            change(id, new(alloc, 1, &[Field::Null, Field::Null])?)?,
        );
    }
    batch(alloc, change(id, new(alloc, 1, &[Field::Null])?)?)
}

// The anchors behind each have what differs exchanged when they serve.
fn assert_exchanged(
    rt: &impl Abort,
    alloc: Global,
    run: &mut Run,
    shelf: &mut MarkShelf,
) -> Result<(), Fail> {
    for turn in 0..10u32 {
        let edits = refitted(alloc, turn)?;
        let place = 97 + 19_200 * (turn / 2);
        assert!(rt; is_near(alloc, run, shelf, &edits, place as usize)?);
        assert!(rt; is_replay(alloc, run)?);
    }
    Ok(())
}

#[test]
fn anchors_under_remains(rt: HostRuntime) -> Result<(), Fail> {
    let alloc = rt.alloc();
    let trace = leaked_pairs(alloc, 100_000)?;
    with_loaded(alloc, &trace, |run, shelf| {
        assert_exchanged(&rt, alloc, run, shelf)
    })
}

/// Twenty handles more between two operations: more keys than are followed.
pub fn many_held(alloc: Global, from: u32, to: u32) -> Result<Batch, Fail> {
    held_from(alloc, 40, from, to)
}

// Twenty handles more between two operations, from one number on.
fn held_from(alloc: Global, first: u32, from: u32, to: u32) -> Result<Batch, Fail>
    requires { first < 1_000 }
{
    let made = 310_000 + 1_000 * first;
    let dropped = 3_100_000 + 1_000 * first;
    let mut edits = batch(alloc, insertion(from, made, Kind::Null { to: first })?)?;
    edits.push(insertion(to, dropped, Kind::Drop { h: first })?)?;
    for k in 1..20u32 {
        edits.push(insertion(from, made + k, Kind::Null { to: first + k })?)?;
        edits.push(insertion(to, dropped + k, Kind::Drop { h: first + k })?)?;
    }
    Ok(edits)
}

// A handle more, from the middle of what has checkpoints on: all behind is taken over. Then so many operations are stepped at the front
// that these checkpoints are given up.
fn assert_kept(
    rt: &impl Abort,
    alloc: Global,
    run: &mut Run,
    shelf: &mut MarkShelf,
) -> Result<(), Fail> {
    let more = batch(alloc, insertion(66_000, 300_000, Kind::Null { to: 30 })?)?;
    assert_eq!(rt; step_over(alloc, run, &more, shelf)?, 65);
    let first = many_held(alloc, 10, 60_000)?;
    let steps = step_over(alloc, run, &first, shelf)?;
    assert!(rt; steps > 60_000);
    let late = batch(alloc, insertion(75_000, 300_002, Kind::Counts { h: 5 })?)?;
    assert!(rt; is_near(alloc, run, shelf, &late, 75_002)?);
    assert!(rt; is_replay(alloc, run)?);
    Ok(())
}

#[test]
fn anchors_stay_where_stretches_are_taken_over(rt: HostRuntime) -> Result<(), Fail> {
    let alloc = rt.alloc();
    let trace = with_pairs(alloc, 80_000)?;
    // the last 256 checkpoints stay
    with_shelf(alloc, 256, 32, 32, |shelf| {
        with_kept(alloc, &trace, shelf, |run, shelf| {
            assert_kept(&rt, alloc, run, shelf)
        })
    })
}

// Edits that step nearly all of a long run twice: in place of the anchors that they step over they make others, from which edits go on as before.
fn assert_made_anew(
    rt: &impl Abort,
    alloc: Global,
    run: &mut Run,
    shelf: &mut MarkShelf,
) -> Result<(), Fail> {
    for turn in 0..2u32 {
        let first = held_from(alloc, 40 + 20 * turn, 10, 199_000)?;
        let steps = step_over(alloc, run, &first, shelf)?;
        assert!(rt; steps > 190_000);
        for place in [40_000u32, 100_000] {
            let kind = Kind::Counts { h: 0 };
            let edits = batch(alloc, insertion(place, 300_000 + place + turn, kind)?)?;
            assert!(rt; is_near(alloc, run, shelf, &edits, place as usize)?);
        }
    }
    assert!(rt; is_replay(alloc, run)?);
    Ok(())
}

#[test]
fn anchors_are_made_anew_where_all_is_stepped(rt: HostRuntime) -> Result<(), Fail> {
    let alloc = rt.alloc();
    let trace = with_pairs(alloc, 200_000)?;
    with_loaded(alloc, &trace, |run, shelf| {
        assert_made_anew(&rt, alloc, run, shelf)
    })
}

// A long trace as it is loaded, with an edit: at most so many operations are stepped, and the edited run is its replay.
fn assert_passed(
    rt: &impl Abort,
    alloc: Global,
    trace: &Trace,
    edits: &Batch,
    most: u64,
) -> Result<(), Fail> {
    with_loaded(alloc, trace, |run, shelf| {
        let steps = step_over(alloc, run, edits, shelf)?;
        assert!(rt; steps <= most);
        assert!(rt; is_replay(alloc, run)?);
        Ok(())
    })
}

// A handle stays to the end, where there is no checkpoint for 134,464 operations. What lies between two anchors is stepped at the front, and all
// else is taken over.
#[test]
fn parts_without_checkpoints_are_taken_over(rt: HostRuntime) -> Result<(), Fail> {
    let alloc = rt.alloc();
    let trace = with_pairs(alloc, 200_000)?;
    let edits = batch(alloc, insertion(4, 300_000, Kind::Null { to: 30 })?)?;
    assert_passed(&rt, alloc, &trace, &edits, 1_200)
}

// The first object gets a holder more. One operation in the middle asks for its counts: from the anchor before it to the one behind it all is
// stepped.
#[test]
fn part_that_asks_is_stepped(rt: HostRuntime) -> Result<(), Fail> {
    let alloc = rt.alloc();
    let mut trace = with_pairs(alloc, 100_000)?;
    add(&mut trace, 100_001, Kind::Counts { h: 0 })?;
    add_pairs(alloc, &mut trace, 100_002, 200_001)?;
    let edits = batch(
        alloc,
        insertion(4, 300_000, Kind::Clone { from: 0, to: 30 })?,
    )?;
    assert_passed(&rt, alloc, &trace, &edits, 2_400)
}

// Nothing differs behind the operation that is inserted: what lies between the anchors around it is stepped, and nothing behind.
#[test]
fn part_behind_an_edit_that_changes_nothing(rt: HostRuntime) -> Result<(), Fail> {
    let alloc = rt.alloc();
    let trace = with_pairs(alloc, 200_000)?;
    let edits = batch(alloc, insertion(70_000, 300_000, Kind::Counts { h: 0 })?)?;
    assert_passed(&rt, alloc, &trace, &edits, 1_200)
}

// Eight handles that stay are made at four places in turn, and then four of them are dropped again: what was taken over comes under other layers.
fn assert_layered(
    rt: &impl Abort,
    alloc: Global,
    run: &mut Run,
    shelf: &mut MarkShelf,
) -> Result<(), Fail> {
    for turn in 0..12u32 {
        let after = 4 + 9_000 * (turn % 4);
        let kind = if turn < 8 {
            Kind::Null { to: 30 + turn }
        } else {
            Kind::Drop { h: 22 + turn }
        };
        let edits = batch(alloc, insertion(after, 300_000 + turn, kind)?)?;
        assert!(rt; step_over(alloc, run, &edits, shelf)? <= 1_200);
        assert!(rt; is_replay(alloc, run)?);
    }
    Ok(())
}

#[test]
fn parts_are_taken_over_in_turn(rt: HostRuntime) -> Result<(), Fail> {
    let alloc = rt.alloc();
    let trace = with_pairs(alloc, 100_000)?;
    with_loaded(alloc, &trace, |run, shelf| {
        assert_layered(&rt, alloc, run, shelf)
    })
}

// Edits of the run of a long random trace, over a shelf with few names.
fn edited_over_few(alloc: Global, dice: &mut Dice, trace: &Trace) -> Result<u32, Fail> {
    let mut shelf = MarkShelf::new(alloc, 40, 32, 32)?;
    let mut run = Run::load_kept(alloc, trace, &mut shelf, &mut Meter::new())?;
    let tally = edited_often(alloc, dice, &mut run, &mut shelf, 66_000)?;
    Ok(tally.made())
}

#[test]
fn edited_long_runs_are_replays(rt: HostRuntime) -> Result<(), Fail> {
    let alloc = rt.alloc();
    let mut made = 0u32;
    for seed in 0..6u32 {
        let mut dice = Dice::of(seed);
        let trace = rolled_trace(alloc, &mut dice, 66_000)?;
        made = made.saturating_add(edited_over_few(alloc, &mut dice, &trace)?);
    }
    assert!(rt; made >= 60);
    Ok(())
}
