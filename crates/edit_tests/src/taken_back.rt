//! An edit that takes a change back finds the stretches that the change replaced, and one that makes it again finds those that it made.
ghost use Rattle.std.specs.Prelude.{◌<◌};

use crate::kept::{clones, first_made, step_over, with_kept};
use crate::random_edits::{Dice, give_up_some, rolled_edit, rolled_trace};
use crate::small_runs::{are_marks, is_replay, is_replay_of, with_shelf};
use crate::small_traces::{batch, change, insertion};
use mark_shelf::MarkShelf;
use op_step::Meter;
use run_engine::Run;
use std::alloc::Global;
use std::process::Abort;
use std::test::Fail;
use trace_types::edits::{Batch, Edit};
use trace_types::kinds::Kind;
use trace_types::ops::Op;
use trace_types::trace::Trace;

// The change of each turn: operation 1 makes a null pointer, or an object, as it did before.
fn changed(alloc: Global, turn: usize) -> Result<Batch, Fail> {
    first_made(alloc, turn % 2)
}

// So many operations are stepped in each turn. The run is its replay then, with all its checkpoints.
fn assert_changes(
    rt: &impl Abort,
    alloc: Global,
    run: &mut Run,
    shelf: &mut MarkShelf,
    dues: &[u64],
) -> Result<(), Fail> {
    for (turn, due) in dues.iter().enumerate() {
        let edits = changed(alloc, turn)?;
        assert_eq!(rt; step_over(alloc, run, &edits, shelf)?, *due);
        assert!(rt; is_replay(alloc, run)?);
        assert!(rt; are_marks(alloc, run, &[], 0, 250)?);
    }
    Ok(())
}

// So it is of a trace of 250 operations, each of whose stretches touches what the first one made, over a shelf with room for so many chunks.
fn assert_changed(rt: &impl Abort, alloc: Global, chunks: usize, dues: &[u64]) -> Result<(), Fail>
    requires { 0 < chunks }
{
    let trace = clones(alloc, 250)?;
    with_shelf(alloc, 8, chunks, 64, |shelf| {
        with_kept(alloc, &trace, shelf, |run, shelf| {
            assert_changes(rt, alloc, run, shelf, dues)
        })
    })
}

// The first edit steps all, and then nothing is stepped.
#[test]
fn change_is_taken_back_and_made_again(rt: HostRuntime) -> Result<(), Fail> {
    assert_changed(&rt, rt.alloc(), 64, &[250, 0, 0, 0, 0])
}

// The first edit replaces four stretches. With room for three chunks the last three of these are known, and so are the last three that the second
// edit replaces.
#[test]
fn as_many_are_found_as_the_shelf_has_room_for(rt: HostRuntime) -> Result<(), Fail> {
    let alloc = rt.alloc();
    assert_changed(&rt, alloc, 3, &[250, 64, 64])?;
    assert_changed(&rt, alloc, 2, &[250, 128, 128])?;
    assert_changed(&rt, alloc, 1, &[250, 192, 192])
}

// The stretch from 0 to 128 isn't remembered, since no checkpoint is in it. As it is stepped again it gets one, and the change that is made again
// finds all.
fn assert_given_up(
    rt: &impl Abort,
    alloc: Global,
    run: &mut Run,
    shelf: &mut MarkShelf,
) -> Result<(), Fail> {
    assert!(rt; run.give_up(64));
    assert_changes(rt, alloc, run, shelf, &[250, 128, 0, 0])
}

#[test]
fn stretch_without_its_checkpoint_is_stepped(rt: HostRuntime) -> Result<(), Fail> {
    let alloc = rt.alloc();
    let trace = clones(alloc, 250)?;
    with_shelf(alloc, 8, 64, 64, |shelf| {
        with_kept(alloc, &trace, shelf, |run, shelf| {
            assert_given_up(&rt, alloc, run, shelf)
        })
    })
}

// A clone that stays comes behind operation 1, or goes again.
fn come_or_gone(alloc: Global, turn: usize) -> Result<Batch, Fail> {
    if turn % 2 == 1 {
        return batch(alloc, Edit::Remove { id: 1_000 });
    }
    batch(alloc, insertion(1, 1_000, Kind::Clone { from: 0, to: 20 })?)
}

// The first edit steps the stretch that the clone comes into. The others tell one holder more, and are taken over. As the clone goes, they tell one fewer, and
// are taken over, too: the handle that each of them clones stays. As it comes and goes again, what was stepped is found.
fn assert_comes_and_goes(
    rt: &impl Abort,
    alloc: Global,
    run: &mut Run,
    shelf: &mut MarkShelf,
) -> Result<(), Fail> {
    for (turn, due) in [65u64, 63, 0, 0, 0].iter().enumerate() {
        let edits = come_or_gone(alloc, turn)?;
        assert_eq!(rt; step_over(alloc, run, &edits, shelf)?, *due);
        assert!(rt; is_replay(alloc, run)?);
    }
    Ok(())
}

#[test]
fn operation_comes_and_goes(rt: HostRuntime) -> Result<(), Fail> {
    let alloc = rt.alloc();
    let trace = clones(alloc, 250)?;
    with_shelf(alloc, 8, 64, 64, |shelf| {
        with_kept(alloc, &trace, shelf, |run, shelf| {
            assert_comes_and_goes(&rt, alloc, run, shelf)
        })
    })
}

// The changes of three turns: an operation makes a Weak, which is dropped at once, in place of an Arc. Then one comes right behind another operation.
// Then the first makes an Arc again.
fn come_between(alloc: Global, place: u32, next: u32, turn: usize) -> Result<Batch, Fail> {
    let kind = match turn {
        0 => Kind::Downgrade { from: 0, to: 9 },
        1 => return batch(alloc, insertion(next, 1_000, Kind::PtrEq { a: 0, b: 0 })?),
        _ => Kind::Clone { from: 0, to: 9 },
    };
    batch(alloc, change(place, kind)?)
}

// So many operations are stepped in each of the turns, and one for what comes.
fn assert_stays(
    rt: &impl Abort,
    alloc: Global,
    run: &mut Run,
    shelf: &mut MarkShelf,
    place: u32,
    next: u32,
    first: u64,
) -> Result<(), Fail> {
    for (turn, due) in [first, 1, 0].iter().enumerate() {
        let edits = come_between(alloc, place, next, turn)?;
        assert_eq!(rt; step_over(alloc, run, &edits, shelf)?, *due);
        assert!(rt; is_replay(alloc, run)?);
    }
    Ok(())
}

fn assert_stays_of(
    rt: &impl Abort,
    alloc: Global,
    place: u32,
    next: u32,
    first: u64,
) -> Result<(), Fail> {
    let trace = clones(alloc, 250)?;
    with_shelf(alloc, 8, 64, 64, |shelf| {
        with_kept(alloc, &trace, shelf, |run, shelf| {
            assert_stays(rt, alloc, run, shelf, place, next, first)
        })
    })
}

// An operation that comes right behind a stretch, or behind all, replaces nothing: what the edit before replaced is still found.
#[test]
fn stretch_before_an_insertion_stays(rt: HostRuntime) -> Result<(), Fail> {
    assert_stays_of(&rt, rt.alloc(), 2, 64, 64)?;
    assert_stays_of(&rt, rt.alloc(), 200, 250, 58)
}

// The operation of a trace with a number.
fn known(trace: &Trace, id: u32) -> Result<Op, Fail> {
    let place = trace.place(id).ok_or("no such operation")?;
    let op = trace.op(place).ok_or("no such place")?;
    Ok(op.clone()?)
}

// The number of the operation before the one with a number, or 0.
fn before(trace: &Trace, id: u32) -> Result<u32, Fail> {
    let place = trace.place(id).ok_or("no such operation")?;
    if place == 0 {
        return Ok(0);
    }
    let op = trace.op(place - 1).ok_or("no such place")?;
    Ok(op.id())
}

// What takes an edit of a trace back.
fn reverse(trace: &Trace, edit: &Edit) -> Result<Edit, Fail> {
    match edit {
        Edit::Insert { op, .. } => Ok(Edit::Remove { id: op.id() }),
        Edit::Change { id, op } => Ok(Edit::Change {
            id: op.id(),
            op: known(trace, *id)?,
        }),
        Edit::Remove { id } => Ok(Edit::Insert {
            after: before(trace, *id)?,
            op: known(trace, *id)?,
        }),
    }
}

// What takes a batch of one edit back.
fn reversed(alloc: Global, trace: &Trace, edits: &Batch) -> Result<Batch, Fail> {
    let edit = edits.as_slice().first().ok_or("no edit")?;
    batch(alloc, reverse(trace, edit)?)
}

// How many operations are stepped for edits of the run, which is their replay then.
fn steps_of(
    alloc: Global,
    run: &mut Run,
    edits: &Batch,
    shelf: &mut MarkShelf,
) -> Result<u64, Fail> {
    let steps = step_over(alloc, run, edits, shelf)?;
    if !is_replay(alloc, run)? {
        return Err(Fail::from("another replay"));
    }
    Ok(steps)
}

// How many operations are stepped as edits of a trace's run are taken back: then the run is that of the trace again.
fn take_back(
    alloc: Global,
    trace: &Trace,
    edits: &Batch,
    run: &mut Run,
    shelf: &mut MarkShelf,
) -> Result<u64, Fail> {
    let back = reversed(alloc, trace, edits)?;
    let steps = steps_of(alloc, run, &back, shelf)?;
    if !is_replay_of(alloc, run, trace)? {
        return Err(Fail::from("another trace"));
    }
    Ok(steps)
}

// How many operations are stepped for an edit of a trace's run, and as it is taken back, maybe after random checkpoints were given up.
fn there_and_back(
    alloc: Global,
    trace: &Trace,
    dice: &mut Dice,
    run: &mut Run,
    shelf: &mut MarkShelf,
    id: u32,
) -> Result<(u64, u64), Fail> {
    let edits = rolled_edit(alloc, dice, id, 200)?;
    let there = steps_of(alloc, run, &edits, shelf)?;
    if dice.roll(4) == 0 {
        give_up_some(alloc, run, dice)?;
    }
    let back = take_back(alloc, trace, &edits, run, shelf)?;
    Ok((there, back))
}

// So many edits of a trace's run, each of which is taken back: how many operations are stepped for the ones and for the others.
fn walk(
    alloc: Global,
    trace: &Trace,
    dice: &mut Dice,
    run: &mut Run,
    shelf: &mut MarkShelf,
) -> Result<(u64, u64), Fail> {
    let mut there = 0u64;
    let mut back = 0u64;
    for turn in 0..10u32 {
        let steps = there_and_back(alloc, trace, dice, run, shelf, 1_000_000 + turn)?;
        there = there.saturating_add(steps.0);
        back = back.saturating_add(steps.1);
    }
    Ok((there, back))
}

// The edits of one trace, over a shelf with room for few chunks or for many.
fn walk_over(alloc: Global, trace: &Trace, dice: &mut Dice, seed: u32) -> Result<(u64, u64), Fail> {
    let chunks = if seed % 2 == 0 { 64 } else { 3 };
    let mut shelf = MarkShelf::new(alloc, 64, chunks, 64)?;
    walk_run(alloc, trace, dice, &mut shelf)
}

fn walk_run(
    alloc: Global,
    trace: &Trace,
    dice: &mut Dice,
    shelf: &mut MarkShelf,
) -> Result<(u64, u64), Fail> {
    let mut run = Run::load_kept(alloc, trace, shelf, &mut Meter::new())?;
    walk(alloc, trace, dice, &mut run, shelf)
}

// The edits of one trace.
fn steps_by(alloc: Global, seed: u32) -> Result<(u64, u64), Fail> {
    let mut dice = Dice::of(seed);
    let trace = rolled_trace(alloc, &mut dice, 400)?;
    walk_over(alloc, &trace, &mut dice, seed)
}

// All in all edits are taken back with less than half of the steps that they took: mostly with none, or with up to 64 where an operation had
// come.
#[test]
fn random_edits_are_taken_back(rt: HostRuntime) -> Result<(), Fail> {
    let mut there = 0u64;
    let mut back = 0u64;
    for seed in 0..40u32 {
        let steps = steps_by(rt.alloc(), seed)?;
        there = there.saturating_add(steps.0);
        back = back.saturating_add(steps.1);
    }
    assert!(rt; back.saturating_mul(2) <= there);
    Ok(())
}
