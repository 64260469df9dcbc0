//! Shelves with little room.
use mark_shelf::MarkShelf;
use object_heap::Heap;
use op_step::{ChunkRun, Meter, run};
use std::alloc::Global;
use std::process::Abort;
use std::test::Fail;
use trace_types::kinds::{Field, Kind};
use trace_types::ops::Op;
use trace_types::sequence::Sequence;
use trace_types::trace::Trace;

// One operation, which makes a null pointer.
fn null(alloc: Global, id: u32, to: u32) -> Result<Trace, Fail> {
    let mut trace = Trace::new(alloc);
    trace.push(Op::make(id, 0, Kind::Null { to })?)?;
    Ok(trace)
}

// The operations as a chunk that begins with nothing.
fn chunk(alloc: Global, trace: &Trace) -> Result<ChunkRun, Fail> {
    let start = Heap::empty();
    let mut meter = Meter::new();
    let chunk = run(alloc, &start, trace.as_slice(), &mut meter)?;
    Ok(chunk)
}

// Whether the shelf has these operations as a chunk that begins with nothing.
fn finds(shelf: &mut MarkShelf, trace: &Trace) -> bool {
    shelf.find(&Heap::empty(), trace.as_slice()).is_some()
}

// Has the shelf remember the operation with a number, which makes a null pointer by a handle, as a chunk that begins with nothing.
fn remember(alloc: Global, shelf: &mut MarkShelf, id: u32, to: u32) -> Result<(), Fail> {
    let trace = null(alloc, id, to)?;
    shelf.remember(chunk(alloc, &trace)?);
    Ok(())
}

// Whether the shelf has it.
fn has(alloc: Global, shelf: &mut MarkShelf, id: u32, to: u32) -> Result<bool, Fail> {
    let trace = null(alloc, id, to)?;
    Ok(finds(shelf, &trace))
}

// How many operations the chunk of such an operation has that the shelf finds, and whether its handle holds something in the end.
fn found(alloc: Global, shelf: &mut MarkShelf, id: u32, to: u32) -> Result<(usize, bool), Fail> {
    let trace = null(alloc, id, to)?;
    match shelf.find(&Heap::empty(), trace.as_slice()) {
        None => Err(Fail::from("not found")),
        Some(found) => Ok((found.ops().len(), found.end().holding(to).is_some())),
    }
}

fn assert_last_used_stay(
    rt: &impl Abort,
    alloc: Global,
    shelf: &mut MarkShelf,
) -> Result<(), Fail> {
    for (name, gone) in [(1u32, None), (2, None), (1, None), (3, Some(2))] {
        assert_eq!(rt; shelf.touch(name), gone);
    }
    remember(alloc, shelf, 10, 0)?;
    remember(alloc, shelf, 20, 1)?;
    assert!(rt; !has(alloc, shelf, 10, 0)?);
    assert_eq!(rt; found(alloc, shelf, 20, 1)?, (1, true));
    Ok(())
}

#[test]
fn shelf(rt: HostRuntime) -> Result<(), Fail> {
    let mut shelf = MarkShelf::new(rt.alloc(), 2, 1, 2)?;
    assert_last_used_stay(&rt, rt.alloc(), &mut shelf)
}

fn assert_all_stay(rt: &impl Abort, alloc: Global, shelf: &mut MarkShelf) -> Result<(), Fail> {
    remember(alloc, shelf, 1, 0)?;
    remember(alloc, shelf, 2, 0)?;
    for name in [5u32, 6, 5, 6].iter() {
        assert_eq!(rt; shelf.touch(*name), None);
        assert!(rt; has(alloc, shelf, 1, 0)?);
        assert!(rt; has(alloc, shelf, 2, 0)?);
    }
    assert_eq!(rt; shelf.touch(7), Some(5));
    Ok(())
}

// What there is room for stays: two checkpoints and two chunks.
#[test]
fn shelf_keeps(rt: HostRuntime) -> Result<(), Fail> {
    let mut shelf = MarkShelf::new(rt.alloc(), 2, 2, 2)?;
    assert_all_stay(&rt, rt.alloc(), &mut shelf)
}

// Whether the shelf has such an operation as a chunk that begins where another one ends.
fn has_behind(alloc: Global, shelf: &mut MarkShelf, id: u32, to: u32) -> Result<bool, Fail> {
    let before = chunk(alloc, &null(alloc, 1, 0)?)?;
    let trace = null(alloc, id, to)?;
    Ok(shelf.find(before.end(), trace.as_slice()).is_some())
}

fn assert_told_apart(rt: &impl Abort, alloc: Global, shelf: &mut MarkShelf) -> Result<(), Fail> {
    remember(alloc, shelf, 2, 1)?;
    assert!(rt; !has_behind(alloc, shelf, 2, 1)?);
    assert!(rt; !has(alloc, shelf, 2, 3)?);
    assert!(rt; has(alloc, shelf, 2, 1)?);
    // A later chunk of the same name stands in its place.
    remember(alloc, shelf, 2, 3)?;
    assert!(rt; !has(alloc, shelf, 2, 1)?);
    assert!(rt; has(alloc, shelf, 2, 3)?);
    Ok(())
}

#[test]
fn other_start_or_operations(rt: HostRuntime) -> Result<(), Fail> {
    let mut shelf = MarkShelf::new(rt.alloc(), 1, 2, 2)?;
    assert_told_apart(&rt, rt.alloc(), &mut shelf)
}

// Has the shelf remember chunks of operations with these numbers, one after another.
fn remember_each(alloc: Global, shelf: &mut MarkShelf, ids: &[u32]) -> Result<(), Fail> {
    for id in ids {
        remember(alloc, shelf, *id, 0)?;
    }
    Ok(())
}

// Of chunks 1, 2 and 3 one is gone.
fn assert_one_is_gone(
    rt: &impl Abort,
    alloc: Global,
    shelf: &mut MarkShelf,
    gone: u32,
) -> Result<(), Fail> {
    for id in [1u32, 2, 3] {
        assert_eq!(rt; has(alloc, shelf, id, 0)?, id != gone);
    }
    Ok(())
}

// The name of chunk 1 is there as it is remembered again, so it keeps its place.
fn assert_oldest_goes(rt: &impl Abort, alloc: Global, shelf: &mut MarkShelf) -> Result<(), Fail> {
    remember_each(alloc, shelf, [1, 2, 1, 3].as_slice())?;
    assert_one_is_gone(rt, alloc, shelf, 1)
}

#[test]
fn oldest_name_goes(rt: HostRuntime) -> Result<(), Fail> {
    let mut shelf = MarkShelf::new(rt.alloc(), 1, 8, 2)?;
    assert_oldest_goes(&rt, rt.alloc(), &mut shelf)
}

fn assert_found_stays(rt: &impl Abort, alloc: Global, shelf: &mut MarkShelf) -> Result<(), Fail> {
    remember_each(alloc, shelf, [1, 2].as_slice())?;
    assert!(rt; has(alloc, shelf, 1, 0)?);
    remember(alloc, shelf, 3, 0)?;
    assert_one_is_gone(rt, alloc, shelf, 2)
}

#[test]
fn found_chunk_is_used_last(rt: HostRuntime) -> Result<(), Fail> {
    let mut shelf = MarkShelf::new(rt.alloc(), 1, 2, 8)?;
    assert_found_stays(&rt, rt.alloc(), &mut shelf)
}

fn one_empty(alloc: Global) -> Result<Sequence<Field>, Fail> {
    Ok(Sequence::from_vec(vec![in alloc; Field::Null]?))
}

// The first operations of a trace whose two objects hold each other until operation 8 ends it, but one of them.
fn cycle_without(alloc: Global, gone: u32, last: u32) -> Result<Trace, Fail> {
    let mut trace = Trace::new(alloc);
    for id in 1..=last {
        let kind = match id {
            1 => Kind::New {
                to: 0,
                fields: one_empty(alloc)?,
            },
            2 => Kind::New {
                to: 1,
                fields: one_empty(alloc)?,
            },
            3 => Kind::Clone { from: 0, to: 2 },
            4 => Kind::Clone { from: 1, to: 3 },
            5 => Kind::Set {
                h: 0,
                i: 0,
                from: 3,
            },
            6 => Kind::Set {
                h: 1,
                i: 0,
                from: 2,
            },
            7 => Kind::Null { to: 4 },
            8 => Kind::Set {
                h: 0,
                i: 0,
                from: 4,
            },
            9 => Kind::Drop { h: 4 },
            10 => Kind::Drop { h: 0 },
            11 => Kind::Drop { h: 1 },
            _ => Kind::Null { to: id },
        };
        if id != gone {
            trace.push(Op::make(id, 0, kind)?)?;
        }
    }
    Ok(trace)
}

// Has the shelf remember the first 64 operations of that trace, without the one with this number, if there is one.
fn remember_without(alloc: Global, shelf: &mut MarkShelf, gone: u32) -> Result<(), Fail> {
    let trace = cycle_without(alloc, gone, 64)?;
    shelf.remember(chunk(alloc, &trace)?);
    Ok(())
}

// Whether the shelf has them.
fn has_without(alloc: Global, shelf: &mut MarkShelf, gone: u32) -> Result<bool, Fail> {
    let trace = cycle_without(alloc, gone, 64)?;
    Ok(finds(shelf, &trace))
}

fn assert_by_content(rt: &impl Abort, alloc: Global, shelf: &mut MarkShelf) -> Result<(), Fail> {
    remember_without(alloc, shelf, 8)?;
    remember_without(alloc, shelf, 0)?;
    assert!(rt; has_without(alloc, shelf, 8)?);
    assert!(rt; has_without(alloc, shelf, 0)?);
    // It has the name of the first, and other operations.
    assert!(rt; !has_without(alloc, shelf, 7)?);
    remember_without(alloc, shelf, 7)?;
    assert!(rt; has_without(alloc, shelf, 7)?);
    assert!(rt; !has_without(alloc, shelf, 8)?);
    Ok(())
}

#[test]
fn chunk_by_content(rt: HostRuntime) -> Result<(), Fail> {
    let mut shelf = MarkShelf::new(rt.alloc(), 1, 8, 8)?;
    assert_by_content(&rt, rt.alloc(), &mut shelf)
}
