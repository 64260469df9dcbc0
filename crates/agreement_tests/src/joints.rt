//! Chunks that a shelf knows to begin where others end, so that it walks no heap to find them.
ghost use Rattle.std.specs.Prelude.{◌≡◌, IfOk, IfSome, Some};
ghost use Rattle.ownership_model.specs.State.{nothing_held};
ghost use Rattle.mark_shelf.specs.Joints.{EndsWith};

use mark_shelf::MarkShelf;
use object_heap::Heap;
use op_step::{Meter, run};
use std::alloc::Global;
use std::process::Abort;
use std::test::Fail;
use trace_types::kinds::Kind;
use trace_types::ops::Op;
use trace_types::trace::Trace;

// A null pointer is made by an operation and dropped by the next: they begin and end with nothing.
fn come_and_go(alloc: Global, first: u32) -> Result<Trace, Fail> {
    let mut trace = Trace::new(alloc);
    trace.push(Op::make(first, 0, Kind::Null { to: 0 })?)?;
    trace.push(Op::make(first.saturating_add(1), 0, Kind::Drop { h: 0 })?)?;
    Ok(trace)
}

// Has the shelf remember such operations behind the chunk with a number, and gives theirs.
fn remember(
    alloc: Global,
    shelf: &mut MarkShelf,
    first: u32,
    before: Option<u64>,
) -> Result<Option<u64>, Fail>
    requires { IfSome before (λ k. EndsWith shelf.old.chunks k nothing_held) }
    ensures { IfOk result (λ o. IfSome o (λ k. EndsWith shelf.new.chunks k nothing_held)) }
{
    let trace = come_and_go(alloc, first)?;
    let nothing = Heap::empty();
    let chunk = run(alloc, &nothing, trace.as_slice(), &mut Meter::new())?;
    if !chunk.end().same(&nothing) {
        return Err(Fail::from("something is left"));
    }
    Ok(shelf.remember_behind(chunk, before))
}

// Finds such operations behind the chunk with a number, and gives theirs, and whether they were known to begin there.
fn find(
    alloc: Global,
    shelf: &mut MarkShelf,
    first: u32,
    before: Option<u64>,
) -> Result<(Option<u64>, bool), Fail>
    requires { IfSome before (λ k. EndsWith shelf.old.chunks k nothing_held) }
    ensures { IfOk result (λ r. IfSome r.0 (λ k. EndsWith shelf.new.chunks k nothing_held)) }
{
    let trace = come_and_go(alloc, first)?;
    let nothing = Heap::empty();
    let Some(found) = shelf.find_behind(&nothing, trace.as_slice(), before) else {
        return Err(Fail::from("not found"));
    };
    if !found.chunk.end().same(&nothing) {
        return Err(Fail::from("something is left"));
    }
    Ok((Some(found.number), found.is_joined))
}

// Whether the operations from a number on are known to begin where those from another one end.
fn are_joined(alloc: Global, shelf: &mut MarkShelf, before: u32, first: u32) -> Result<bool, Fail> {
    let (number, _) = find(alloc, shelf, before, None)?;
    let (_, is_joined) = find(alloc, shelf, first, number)?;
    Ok(is_joined)
}

fn assert_remembered_are_joined(
    rt: &impl Abort,
    alloc: Global,
    shelf: &mut MarkShelf,
) -> Result<(), Fail> {
    let a = remember(alloc, shelf, 1, None)?;
    assert_eq!(rt; a, Some(0));
    let b = remember(alloc, shelf, 3, a)?;
    assert_eq!(rt; b, Some(1));
    remember(alloc, shelf, 5, b)?;
    assert!(rt; are_joined(alloc, shelf, 1, 3)?);
    assert!(rt; are_joined(alloc, shelf, 3, 5)?);
    Ok(())
}

#[test]
fn chunk_remembered_behind_another_is_joined(rt: HostRuntime) -> Result<(), Fail> {
    let mut shelf = MarkShelf::new(rt.alloc(), 1, 4, 4)?;
    assert_remembered_are_joined(&rt, rt.alloc(), &mut shelf)
}

fn assert_alone_are_not_joined(
    rt: &impl Abort,
    alloc: Global,
    shelf: &mut MarkShelf,
) -> Result<(), Fail> {
    let a = remember(alloc, shelf, 1, None)?;
    remember(alloc, shelf, 3, a)?;
    let (_, first) = find(alloc, shelf, 1, None)?;
    assert!(rt; !first);
    let (_, second) = find(alloc, shelf, 3, None)?;
    assert!(rt; !second);
    Ok(())
}

// Nothing is known of a chunk that comes first, nor where no number tells what ends with the heap.
#[test]
fn chunk_behind_nothing_is_not_joined(rt: HostRuntime) -> Result<(), Fail> {
    let mut shelf = MarkShelf::new(rt.alloc(), 1, 4, 4)?;
    assert_alone_are_not_joined(&rt, rt.alloc(), &mut shelf)
}

// The first look-up compares the heaps. From then on the joint is known.
fn assert_joined_once_found(
    rt: &impl Abort,
    alloc: Global,
    shelf: &mut MarkShelf,
    before: u32,
) -> Result<(), Fail> {
    assert!(rt; !are_joined(alloc, shelf, before, 3)?);
    assert!(rt; are_joined(alloc, shelf, before, 3)?);
    Ok(())
}

fn assert_found_are_joined(
    rt: &impl Abort,
    alloc: Global,
    shelf: &mut MarkShelf,
) -> Result<(), Fail> {
    for first in [1u32, 3, 5] {
        remember(alloc, shelf, first, None)?;
    }
    assert_joined_once_found(rt, alloc, shelf, 1)?;
    // Behind another one the joint is another.
    assert_joined_once_found(rt, alloc, shelf, 5)?;
    assert!(rt; !are_joined(alloc, shelf, 1, 3)?);
    Ok(())
}

#[test]
fn chunk_found_behind_another_is_joined(rt: HostRuntime) -> Result<(), Fail> {
    let mut shelf = MarkShelf::new(rt.alloc(), 1, 4, 4)?;
    assert_found_are_joined(&rt, rt.alloc(), &mut shelf)
}

// Has the shelf remember four chunks, each behind the one before.
fn remember_four(alloc: Global, shelf: &mut MarkShelf) -> Result<(), Fail> {
    let a = remember(alloc, shelf, 1, None)?;
    let b = remember(alloc, shelf, 3, a)?;
    let c = remember(alloc, shelf, 5, b)?;
    remember(alloc, shelf, 7, c)?;
    Ok(())
}

fn assert_joints_stay(rt: &impl Abort, alloc: Global, shelf: &mut MarkShelf) -> Result<(), Fail> {
    remember_four(alloc, shelf)?;
    find(alloc, shelf, 1, None)?;
    let (b, _) = find(alloc, shelf, 3, None)?;
    let e = remember(alloc, shelf, 9, b)?;
    remember(alloc, shelf, 11, e)?;
    assert!(rt; are_joined(alloc, shelf, 1, 3)?);
    assert!(rt; are_joined(alloc, shelf, 9, 11)?);
    Ok(())
}

// Of six chunks four stay. Those that were found stay longest, and so does what is known of them.
#[test]
fn joint_stays_with_its_chunk(rt: HostRuntime) -> Result<(), Fail> {
    let mut shelf = MarkShelf::new(rt.alloc(), 1, 4, 8)?;
    assert_joints_stay(&rt, rt.alloc(), &mut shelf)
}
