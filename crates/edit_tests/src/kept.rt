//! How many checkpoints a desk keeps, and which stretches it steps no second time.
ghost use Rattle.std.specs.Prelude.{◌<◌};

use crate::small_runs::{has_marks, run_of, with_desk, with_shelf};
use crate::small_traces::{add, batch, broken_cycle, change, insertion, new, set, two};
use edit_desk::{Desk, KEPT_CHUNKS, KEPT_MARKS, KEPT_NAMES, Reply, Request};
use mark_shelf::MarkShelf;
use object_heap::Heap;
use op_step::{ChunkRun, Meter, run};
use run_engine::Run;
use std::alloc::Global;
use std::process::Abort;
use std::test::Fail;
use trace_types::edits::{Batch, Edit};
use trace_types::kinds::Kind;
use trace_types::sequence::Sequence;
use trace_types::trace::Trace;

// A null pointer is made and dropped in turn.
fn null_trace(alloc: Global, ops: u32) -> Result<Trace, Fail> {
    nulls(alloc, 1, ops)
}

// The operations of such a trace from one number to another.
pub fn nulls(alloc: Global, first: u32, last: u32) -> Result<Trace, Fail> {
    let mut trace = Trace::new(alloc);
    for id in first..=last {
        let kind = if id % 2 == 1 {
            Kind::Null { to: 0 }
        } else {
            Kind::Drop { h: 0 }
        };
        add(&mut trace, id, kind)?;
    }
    Ok(trace)
}

fn inserted(alloc: Global, after: u32, id: u32) -> Result<Batch, Fail> {
    batch(alloc, insertion(after, id, Kind::Counts { h: 5 })?)
}

// How many checkpoints the run of a desk has.
fn marks(alloc: Global, desk: &Desk) -> Result<usize, Fail> {
    Ok(desk.published().run().marks(alloc)?.as_slice().len())
}

// A request that makes a stretch longer by one, so that a checkpoint more would stand in it, and how many stand then.
fn lengthened(rt: &impl Abort, alloc: Global, desk: &mut Desk, turn: u32) -> Result<usize, Fail>
    requires { turn < 2_000 }
{
    let batch = inserted(alloc, 19_999 - turn % 977, 100_000 + turn)?;
    let reply = desk.answer(alloc, 0, Request { base: turn, batch }, Vec::new(alloc))?;
    assert_eq!(rt; reply, Reply::Accepted(turn + 1));
    marks(alloc, desk)
}

// The most checkpoints that stand after any of two thousand such requests.
fn most_marks(rt: &impl Abort, alloc: Global, desk: &mut Desk) -> Result<usize, Fail> {
    let mut most = 0;
    for turn in 0..2_000u32 {
        let kept = lengthened(rt, alloc, desk, turn)?;
        assert!(rt; kept <= 1_026);
        most = most.max(kept);
    }
    Ok(most)
}

fn assert_most_marks(rt: &impl Abort, alloc: Global, desk: &mut Desk) -> Result<(), Fail> {
    assert_eq!(rt; most_marks(rt, alloc, desk)?, 1_026);
    Ok(())
}

#[test]
fn two_thousand_requests(rt: HostRuntime) -> Result<(), Fail> {
    let alloc = rt.alloc();
    let trace = null_trace(alloc, 20_000)?;
    with_desk(alloc, trace, |desk| assert_most_marks(&rt, alloc, desk))
}

// Lends the run of a trace that is loaded over a shelf.
pub fn with_kept<F: FnOnce(&mut Run, &mut MarkShelf) -> Result<(), Fail>>(
    alloc: Global,
    trace: &Trace,
    shelf: &mut MarkShelf,
    judge: F,
) -> Result<(), Fail>
    requires { F.IsAlwaysCallable judge }
{
    let mut run = Run::load_kept(alloc, trace, shelf, &mut Meter::new())?;
    judge(&mut run, shelf)
}

// Of the checkpoints of a long trace the last ones are kept, and the first and the end.
fn assert_last_marks(rt: &impl Abort, alloc: Global, run: &Run) -> Result<(), Fail> {
    let marks = run.marks(alloc)?;
    let marks = marks.as_slice();
    assert_eq!(rt; marks.len(), KEPT_MARKS + 2);
    assert_eq!(rt; marks.first().copied(), Some(0));
    assert_eq!(rt; marks.get(1).copied(), Some(34_496));
    assert_eq!(rt; marks.last().copied(), Some(100_000));
    assert_eq!(rt; marks.get(KEPT_MARKS).copied(), Some(99_968));
    Ok(())
}

#[test]
fn long_trace_is_opened(rt: HostRuntime) -> Result<(), Fail> {
    let alloc = rt.alloc();
    let trace = null_trace(alloc, 100_000)?;
    with_shelf(alloc, KEPT_MARKS, KEPT_CHUNKS, KEPT_NAMES, |shelf| {
        with_kept(alloc, &trace, shelf, |run, _| {
            assert_last_marks(&rt, alloc, run)
        })
    })
}

// A run after an edit over a shelf, and how many operations were stepped for it.
pub fn over(
    alloc: Global,
    run: &Run,
    edits: &Batch,
    shelf: &mut MarkShelf,
) -> Result<(Run, u64), Fail> {
    let mut meter = Meter::new();
    let edited = run.edited(alloc, edits, Vec::new(alloc), shelf, &mut meter)?;
    Ok((edited, meter.count()))
}

// Puts in the run's place what it is after an edit over a shelf, and tells how many operations were stepped for that.
pub fn step_over(
    alloc: Global,
    run: &mut Run,
    edits: &Batch,
    shelf: &mut MarkShelf,
) -> Result<u64, Fail> {
    let (edited, steps) = over(alloc, run, edits, shelf)?;
    *run = edited;
    Ok(steps)
}

// How many operations are stepped for an edit over a shelf.
fn steps_over(alloc: Global, run: &Run, edits: &Batch, shelf: &mut MarkShelf) -> Result<u64, Fail> {
    let (_edited, steps) = over(alloc, run, edits, shelf)?;
    Ok(steps)
}

// The restart's name and the new ones are touched, and the checkpoints of others are given up.
fn assert_touched_stay(
    rt: &impl Abort,
    alloc: Global,
    run: &mut Run,
    shelf: &mut MarkShelf,
) -> Result<(), Fail> {
    let edits = inserted(alloc, 100, 1_000)?;
    step_over(alloc, run, &edits, shelf)?;
    let wanted = [0usize, 128, 129, 193, 257, 321, 385, 449, 513, 577, 641];
    assert!(rt; has_marks(alloc, run, wanted.as_slice())?);
    Ok(())
}

// The shelf has room for two.
fn assert_two_stay(rt: &impl Abort, alloc: Global, run: &mut Run) -> Result<(), Fail> {
    with_shelf(alloc, 2, 1, 1, |shelf| {
        assert_touched_stay(rt, alloc, run, shelf)
    })
}

#[test]
fn touched_checkpoints_stay(rt: HostRuntime) -> Result<(), Fail> {
    let alloc = rt.alloc();
    let trace = null_trace(alloc, 640)?;
    let mut run = run_of(alloc, trace)?;
    assert_two_stay(&rt, alloc, &mut run)
}

// An object, and behind it others that come and go. In each stretch of 64 operations two ask for the first one's counts.
pub fn pairs(alloc: Global) -> Result<Trace, Fail> {
    let mut trace = Trace::new(alloc);
    add(&mut trace, 1, new(alloc, 0, &[])?)?;
    for id in 2..=192u32 {
        let kind = if id % 64 == 10 || id % 64 == 11 {
            Kind::Counts { h: 0 }
        } else if id % 2 == 0 {
            new(alloc, 9, &[])?
        } else {
            Kind::Drop { h: 9 }
        };
        add(&mut trace, id, kind)?;
    }
    Ok(trace)
}

// Operation 1 makes a null pointer, except in the second turn, where it makes an object.
pub fn first_made(alloc: Global, turn: usize) -> Result<Batch, Fail> {
    let kind = match turn {
        1 => new(alloc, 0, &[])?,
        _ => Kind::Null { to: 0 },
    };
    batch(alloc, change(1, kind)?)
}

// Each of three edits steps so many operations.
fn assert_steps(
    rt: &impl Abort,
    alloc: Global,
    run: &mut Run,
    shelf: &mut MarkShelf,
) -> Result<(), Fail> {
    for (turn, due) in [192u64, 128, 128].iter().enumerate() {
        let edits = first_made(alloc, turn)?;
        assert_eq!(rt; step_over(alloc, run, &edits, shelf)?, *due);
    }
    Ok(())
}

// Then two checkpoints are left.
fn assert_first_serves(
    rt: &impl Abort,
    alloc: Global,
    run: &mut Run,
    shelf: &mut MarkShelf,
) -> Result<(), Fail> {
    assert_steps(rt, alloc, run, shelf)?;
    let marks = run.marks(alloc)?;
    assert_eq!(rt; marks.as_slice().len(), 2);
    Ok(())
}

// The shelf has room for one checkpoint, so that from the second edit on the one at 64 is given up at once. The last stretch, which
// the first edit replaced, serves the second. The chunk that begins at 64 was stepped by the first edit, and serves the third.
#[test]
fn chunk_behind_a_checkpoint_given_up(rt: HostRuntime) -> Result<(), Fail> {
    let alloc = rt.alloc();
    let trace = pairs(alloc)?;
    with_shelf(alloc, 1, 8, 8, |shelf| {
        with_kept(alloc, &trace, shelf, |run, shelf| {
            assert_first_serves(&rt, alloc, run, shelf)
        })
    })
}

// An object, and behind it clones of its handle that come and go: each stretch touches what the first operation made.
pub fn clones(alloc: Global, last: u32) -> Result<Trace, Fail> {
    let mut trace = Trace::new(alloc);
    add(&mut trace, 1, new(alloc, 0, &[])?)?;
    for id in 2..=last {
        let kind = if id % 2 == 0 {
            Kind::Clone { from: 0, to: 9 }
        } else {
            Kind::Drop { h: 9 }
        };
        add(&mut trace, id, kind)?;
    }
    Ok(trace)
}

// Lends the run of such a trace without its checkpoints at 64 and 128. Up to there an edit replaces no stretch with a checkpoint on both sides, so
// that the shelf gets only what is stepped.
pub fn with_bare_clones<F: FnOnce(&Run) -> Result<(), Fail>>(
    alloc: Global,
    last: u32,
    judge: F,
) -> Result<(), Fail>
    requires { F.IsAlwaysCallable judge }
{
    let trace = clones(alloc, last)?;
    let mut run = run_of(alloc, trace)?;
    run.give_up(64);
    run.give_up(128);
    judge(&run)
}

// The edit is made twice.
fn assert_last_serve(
    rt: &impl Abort,
    alloc: Global,
    run: &Run,
    shelf: &mut MarkShelf,
) -> Result<(), Fail> {
    for due in [160u64, 64].iter() {
        let edits = first_made(alloc, 0)?;
        assert_eq!(rt; steps_over(alloc, run, &edits, shelf)?, *due);
    }
    Ok(())
}

// Two stretches and a half touch the object. Of the three chunks that an edit steps a shelf with room for two keeps the last ones: only the
// first is stepped again.
#[test]
fn last_chunks_of_an_edit_stay(rt: HostRuntime) -> Result<(), Fail> {
    let alloc = rt.alloc();
    with_bare_clones(alloc, 160, |run| {
        with_shelf(alloc, 8, 2, 8, |shelf| {
            assert_last_serve(&rt, alloc, run, shelf)
        })
    })
}

// The operation makes a Weak to no allocation in place of a null pointer.
pub fn dangling(id: u32) -> Result<Edit, Fail> {
    change(id, Kind::WeakNew { to: 0 })
}

// How many operations an edit of operations 1 and 249 steps, where a stretch of 128 operations follows behind 64, since the checkpoint
// in it is given up: the long stretch may serve.
fn rise_with_a_long_stretch(
    alloc: Global,
    run: &mut Run,
    shelf: &mut MarkShelf,
) -> Result<u64, Fail> {
    if !run.give_up(128) {
        return Err(Fail::from("no checkpoint"));
    }
    let edits = two(alloc, dangling(1)?, dangling(249)?)?;
    steps_over(alloc, run, &edits, shelf)
}

// The same of a run that is loaded for it.
fn rise_over(alloc: Global, shelf: &mut MarkShelf) -> Result<u64, Fail> {
    let trace = null_trace(alloc, 256)?;
    let mut run = run_of(alloc, trace)?;
    rise_with_a_long_stretch(alloc, &mut run, shelf)
}

// The operations as a chunk that begins with nothing.
pub fn chunk(alloc: Global, trace: &Trace) -> Result<ChunkRun, Fail> {
    let start = Heap::empty();
    let mut meter = Meter::new();
    let chunk = run(alloc, &start, trace.as_slice(), &mut meter)?;
    Ok(chunk)
}

// The shelf knows the operations from 65 to 128 as a chunk.
fn remember_nulls(alloc: Global, shelf: &mut MarkShelf) -> Result<(), Fail> {
    let trace = nulls(alloc, 65, 128)?;
    let chunk = chunk(alloc, &trace)?;
    shelf.remember(chunk);
    Ok(())
}

// A chunk of the shelf serves before an old stretch does, also where that is longer: then 64 operations more are stepped.
#[test]
fn chunk_serves_before_an_old_stretch(rt: HostRuntime) -> Result<(), Fail> {
    let alloc = rt.alloc();
    with_shelf(alloc, 8, 8, 8, |shelf| {
        assert_eq!(rt; rise_over(alloc, shelf)?, 128);
        Ok(())
    })?;
    with_shelf(alloc, 8, 8, 8, |shelf| {
        remember_nulls(alloc, shelf)?;
        assert_eq!(rt; rise_over(alloc, shelf)?, 192);
        Ok(())
    })
}

// How many operations a desk steps for one edit.
fn rise(alloc: Global, desk: &mut Desk, edit: Edit) -> Result<u64, Fail> {
    let before = desk.meter().count();
    let base = desk.version();
    let batch = batch(alloc, edit)?;
    let Reply::Accepted(_) = desk.answer(alloc, 0, Request { base, batch }, Vec::new(alloc))? else {
        return Err(Fail::from("refused"));
    };
    Ok(desk.meter().count() - before)
}

// Operation 8 goes and comes again, by turns; in the end operation 7 goes.
fn turned(turn: usize) -> Result<Edit, Fail> {
    match turn {
        0 | 2 => Ok(Edit::Remove { id: 8 }),
        1 | 3 => insertion(7, 8, set(0, 4)),
        _ => Ok(Edit::Remove { id: 7 }),
    }
}

// Each of these turns steps so many operations.
fn assert_rises(rt: &impl Abort, alloc: Global, desk: &mut Desk) -> Result<(), Fail> {
    for (turn, steps) in [63u64, 0, 0, 0, 63].iter().enumerate() {
        assert_eq!(rt; rise(alloc, desk, turned(turn)?)?, *steps);
    }
    Ok(())
}

// The first stretch without operation 8, with it again, and so once more: the edit replaced the one, and stepped the other, so that both are
// known. Without operation 7 it has the name of the other, and other operations.
#[test]
fn memo_by_content(rt: HostRuntime) -> Result<(), Fail> {
    let alloc = rt.alloc();
    let trace = broken_cycle(alloc)?;
    with_desk(alloc, trace, |desk| assert_rises(&rt, alloc, desk))
}

// Takes operation 2 out of the first stretch, and puts it back: two stretches, each of a name of its own, that replace each other.
fn take_and_put(alloc: Global, desk: &mut Desk) -> Result<(), Fail> {
    rise(alloc, desk, Edit::Remove { id: 2 })?;
    rise(alloc, desk, insertion(1, 2, Kind::Drop { h: 0 })?)?;
    Ok(())
}

// Steps so many other stretches, each of a name of its own, in place of the one before it. Where the first stretch is asked for `again`, it is
// also found by the way.
fn step_others(alloc: Global, desk: &mut Desk, others: u32, again: bool) -> Result<(), Fail> {
    let mut left = others;
    for id in 65..2_240u32 {
        // A stretch goes by its first operation and its length, and the last one drops what the first one made: both stay.
        if left > 0 && id % 64 > 1 {
            left -= 1;
            rise(alloc, desk, Edit::Remove { id })?;
            if again && left % 100 == 50 {
                take_and_put(alloc, desk)?;
            }
        }
    }
    Ok(())
}

// How many operations a desk steps for the first stretch without operation 2, which it stepped before so many other stretches, each
// of a name of its own. Where it is asked for `again`, it was also found not long ago.
fn rise_behind(alloc: Global, desk: &mut Desk, others: u32, again: bool) -> Result<u64, Fail> {
    take_and_put(alloc, desk)?;
    step_others(alloc, desk, others, again)?;
    rise(alloc, desk, Edit::Remove { id: 2 })
}

// So many are stepped at a desk that is opened for it.
fn assert_rise_after(
    rt: &impl Abort,
    alloc: Global,
    others: u32,
    again: bool,
    due: u64,
) -> Result<(), Fail> {
    let trace = null_trace(alloc, 2_240)?;
    with_desk(alloc, trace, |desk| {
        assert_eq!(rt; rise_behind(alloc, desk, others, again)?, due);
        Ok(())
    })
}

// A stretch is found among the last 1,024, itself among them. It is the last one that was replaced as operation 2 was put back. Behind it come two
// for each other one: that, and what it replaced.
#[test]
fn chunks_are_remembered(rt: HostRuntime) -> Result<(), Fail> {
    let alloc = rt.alloc();
    assert_rise_after(&rt, alloc, 511, false, 0)?;
    assert_rise_after(&rt, alloc, 512, false, 63)
}

// A stretch that is asked for again and again stays among those, but its name goes with the 2,048th that is new behind it. These are that with
// operation 2, the others, and for each 62 of the others the stretch as it was before them.
#[test]
fn names_are_remembered(rt: HostRuntime) -> Result<(), Fail> {
    let alloc = rt.alloc();
    assert_rise_after(&rt, alloc, 2_013, true, 0)?;
    assert_rise_after(&rt, alloc, 2_014, true, 63)
}
