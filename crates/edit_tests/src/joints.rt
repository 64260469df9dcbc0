//! The chunks that an edit steps or finds one behind the other are known to lie so: the next edit walks no heap to find them.
ghost use Rattle.std.specs.Prelude.{IfOk, IfSome};
ghost use Rattle.ownership_model.specs.Step.{end_from};
ghost use Rattle.mark_shelf.specs.Joints.{EndsWith};

use crate::kept::{chunk, clones, dangling, first_made, nulls, over, with_bare_clones};
use crate::small_runs::{edited_alone, with_run};
use crate::small_traces::two;
use mark_shelf::{Found, MarkShelf};
use object_heap::Heap;
use op_step::Meter;
use run_engine::Run;
use std::alloc::Global;
use std::process::Abort;
use std::test::Fail;
use trace_types::edits::Batch;
use trace_types::ops::Op;
use trace_types::trace::Trace;

// The chunk that a shelf has of these operations, behind the one with a number.
fn found(shelf: &mut MarkShelf, heap: &Heap, ops: &[Op], before: Option<u64>) -> Result<Found, Fail>
    requires { IfSome before (λ k. EndsWith shelf.old.chunks k heap.now) }
    ensures { IfOk result (λ f. EndsWith shelf.new.chunks f.number (end_from f.chunk.start f.chunk.ops)) }
{
    match shelf.find_behind(heap, ops, before) {
        None => Err(Fail::from("not found")),
        Some(found) => Ok(found),
    }
}

// Of some operations, 64 from a place on.
fn part(ops: &[Op], at: usize) -> Result<&[Op], Fail> {
    match ops.get(at..at.saturating_add(64)) {
        Some(part) => Ok(part),
        None => Err(Fail::from("a short trace")),
    }
}

// The chunks that a shelf has of the first three times 64 operations of a run, each found behind the one before it.
fn first_three(
    alloc: Global,
    shelf: &mut MarkShelf,
    run: &Run,
) -> Result<(Found, Found, Found), Fail> {
    let trace = run.trace(alloc)?;
    three_in(shelf, trace.as_slice())
}

fn three_in(shelf: &mut MarkShelf, ops: &[Op]) -> Result<(Found, Found, Found), Fail> {
    let (one, two, three) = (part(ops, 0)?, part(ops, 64)?, part(ops, 128)?);
    let first = found(shelf, &Heap::empty(), one, None)?;
    let second = found(shelf, first.chunk.end(), two, Some(first.number))?;
    let third = found(shelf, second.chunk.end(), three, Some(second.number))?;
    Ok((first, second, third))
}

// Whether the shelf knows of the second and of the third of these that they begin behind the one before them.
fn are_joined(alloc: Global, shelf: &mut MarkShelf, run: &Run) -> Result<(bool, bool), Fail> {
    let (_, second, third) = first_three(alloc, shelf, run)?;
    Ok((second.is_joined, third.is_joined))
}

// So many operations are stepped for an edit, and then the shelf knows of the chunks of the edited run that each begins behind the one before it.
fn assert_joined(
    rt: &impl Abort,
    alloc: Global,
    run: &Run,
    edits: &Batch,
    shelf: &mut MarkShelf,
    due: u64,
) -> Result<(), Fail> {
    let (edited, steps) = over(alloc, run, edits, shelf)?;
    assert_known(rt, alloc, &edited, steps, shelf, due)
}

fn assert_known(
    rt: &impl Abort,
    alloc: Global,
    edited: &Run,
    steps: u64,
    shelf: &mut MarkShelf,
    due: u64,
) -> Result<(), Fail> {
    assert_eq!(rt; steps, due);
    assert!(rt; are_joined(alloc, shelf, edited)? == (true, true));
    Ok(())
}

// An edit steps three chunks, and has the shelf remember each behind the one before it.
#[test]
fn stepped_chunks_are_joined(rt: HostRuntime) -> Result<(), Fail> {
    let alloc = rt.alloc();
    let edits = first_made(alloc, 0)?;
    with_bare_clones(alloc, 192, |run| {
        let mut shelf = MarkShelf::new(alloc, 8, 8, 8)?;
        assert_joined(&rt, alloc, run, &edits, &mut shelf, 192)
    })
}

// All of a run is stepped for an edit, and then the shelf knows of the chunks of the run before it that each begins behind the one before it.
fn assert_replaced_are_joined(
    rt: &impl Abort,
    alloc: Global,
    run: &Run,
    shelf: &mut MarkShelf,
) -> Result<(), Fail> {
    let edits = first_made(alloc, 0)?;
    let (_edited, steps) = over(alloc, run, &edits, shelf)?;
    assert_known(rt, alloc, run, steps, shelf, 256)
}

// An edit steps four chunks in place of old stretches. Three of these end with a checkpoint.
#[test]
fn replaced_chunks_are_joined(rt: HostRuntime) -> Result<(), Fail> {
    let alloc = rt.alloc();
    with_run(alloc, clones(alloc, 256)?, |run| {
        let mut shelf = MarkShelf::new(alloc, 8, 8, 8)?;
        assert_replaced_are_joined(&rt, alloc, run, &mut shelf)
    })
}

// The shelf gets the chunks of a run that another one has, of which it isn't known then that one begins behind the other.
fn remember_apart(
    alloc: Global,
    edited: &Run,
    shelf: &mut MarkShelf,
    apart: &mut MarkShelf,
) -> Result<(), Fail> {
    let (first, second, third) = first_three(alloc, shelf, edited)?;
    apart.remember(first.chunk);
    apart.remember(second.chunk);
    apart.remember(third.chunk);
    Ok(())
}

// The chunks that an edit of a run steps, apart from one another.
fn step_apart(alloc: Global, run: &Run, edits: &Batch, apart: &mut MarkShelf) -> Result<(), Fail> {
    let mut shelf = MarkShelf::new(alloc, 8, 8, 8)?;
    step_for(alloc, run, edits, &mut shelf, apart)
}

fn step_for(
    alloc: Global,
    run: &Run,
    edits: &Batch,
    shelf: &mut MarkShelf,
    apart: &mut MarkShelf,
) -> Result<(), Fail> {
    let (edited, _) = over(alloc, run, edits, shelf)?;
    remember_apart(alloc, &edited, shelf, apart)
}

// An edit whose change lasts to the end finds three chunks, one behind the other.
fn assert_found_in_turn(
    rt: &impl Abort,
    alloc: Global,
    run: &Run,
    shelf: &mut MarkShelf,
) -> Result<(), Fail> {
    let edits = first_made(alloc, 0)?;
    step_apart(alloc, run, &edits, shelf)?;
    assert_joined(rt, alloc, run, &edits, shelf, 0)
}

#[test]
fn chunks_found_in_turn_are_joined(rt: HostRuntime) -> Result<(), Fail> {
    let alloc = rt.alloc();
    with_bare_clones(alloc, 192, |run| {
        let mut shelf = MarkShelf::new(alloc, 8, 8, 8)?;
        assert_found_in_turn(&rt, alloc, run, &mut shelf)
    })
}

// Of the operations of a run, 64 from a place on.
fn copied(alloc: Global, run: &Run, at: usize) -> Result<Trace, Fail> {
    let mut trace = Trace::new(alloc);
    for place in at..at.saturating_add(64) {
        let Some(op) = run.op(place) else {
            return Err(Fail::from("a short trace"));
        };
        trace.push(op.clone()?)?;
    }
    Ok(trace)
}

// The shelf gets four chunks of the run, each by itself. All of it begins and ends with nothing.
fn remember_four(alloc: Global, run: &Run, shelf: &mut MarkShelf) -> Result<(), Fail> {
    for at in [0usize, 64, 128, 192] {
        let trace = copied(alloc, run, at)?;
        shelf.remember(chunk(alloc, &trace)?);
    }
    Ok(())
}

// Two edits far apart find the chunks between them, where old stretches could serve as well.
fn assert_between(
    rt: &impl Abort,
    alloc: Global,
    run: &Run,
    edits: &Batch,
    shelf: &mut MarkShelf,
) -> Result<(), Fail> {
    let edited = edited_alone(run, alloc, edits, &mut Meter::new())?;
    remember_then_assert(rt, alloc, run, &edited, edits, shelf)
}

fn remember_then_assert(
    rt: &impl Abort,
    alloc: Global,
    run: &Run,
    edited: &Run,
    edits: &Batch,
    shelf: &mut MarkShelf,
) -> Result<(), Fail> {
    remember_four(alloc, edited, shelf)?;
    assert_joined(rt, alloc, run, edits, shelf, 0)
}

#[test]
fn chunks_between_edits_are_joined(rt: HostRuntime) -> Result<(), Fail> {
    let alloc = rt.alloc();
    let edits = two(alloc, dangling(1)?, dangling(249)?)?;
    with_run(alloc, nulls(alloc, 1, 256)?, |run| {
        let mut shelf = MarkShelf::new(alloc, 8, 8, 8)?;
        assert_between(&rt, alloc, run, &edits, &mut shelf)
    })
}
