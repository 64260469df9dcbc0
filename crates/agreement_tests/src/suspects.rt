//! Heaps compared at suspects alone: what leaks apart from all else is told without a walk over the heaps.
use crate::agreeing::{BREAK, CYCLE, LET_GO, assert_cycle_is_added, with_heaps};
use agreement::{Meeting, Remains, Suspects, are_apart, are_told_apart, meet_among, refutes};
use object_heap::Heap;
use op_step::Meter;
use op_step::replay::replay;
use ownership_model::Remaining;
use std::alloc::Global;
use std::process::Abort;
use std::test::Fail;
use trace_reader::read_trace;
use trace_types::slots::{Entry, Slot};

// What the comparison tells, where all objects are suspects at first, and which are left.
fn meet_all(alloc: Global, new: &Heap, old: &Heap) -> Result<(Meeting, Suspects), Fail> {
    let mut suspects = Suspects::of_both(alloc, new, old)?;
    let meeting = meet_among(alloc, new, old, &mut suspects, &mut None)?;
    Ok((meeting, suspects))
}

// Whether the heaps are told apart, where nothing else is asked and all objects are suspects.
fn are_parted(alloc: Global, new: &Heap, old: &Heap) -> Result<bool, Fail> {
    let mut seen = None;
    let told = are_told_apart(alloc, new, old, &mut seen)?;
    if told {
        return Ok(true);
    }
    let mut suspects = Suspects::of_both(alloc, new, old)?;
    let told = are_apart(alloc, new, old, &mut suspects, &mut seen)?;
    Ok(told)
}

// The remains, where the heaps agree and are not the same.
fn remains_of(alloc: Global, new: &Heap, old: &Heap) -> Result<Remains, Fail> {
    let (meeting, _) = meet_all(alloc, new, old)?;
    match meeting {
        Meeting::Alike(remains) => Ok(remains),
        Meeting::Apart | Meeting::Same => Err(Fail::from("they agree")),
    }
}

// An object with one field, which names the other strongly, and with these counts.
fn is_with(remaining: Option<&Remaining>, other: u32, strong: u64, weak: u64) -> bool {
    match remaining {
        None => false,
        Some(remaining) => match &remaining.entry {
            Entry::Husk => false,
            Entry::Alive(fields) => {
                fields.as_slice() == [Slot::Strong(other)].as_slice()
                    && remaining.strong == strong
                    && remaining.weak == weak
            }
        },
    }
}

// An object that holds itself and leaks.
const LEAK: &str = "\
{\"fields\":[null],\"id\":21,\"op\":\"new\",\"t\":0,\"to\":7}
{\"from\":7,\"id\":22,\"op\":\"clone\",\"t\":0,\"to\":8}
{\"from\":8,\"h\":7,\"i\":0,\"id\":23,\"op\":\"set\",\"t\":0}
{\"h\":7,\"id\":24,\"op\":\"drop\",\"t\":0}
";

fn assert_cycle_alone(rt: &impl Abort, alloc: Global, new: &Heap, old: &Heap) -> Result<(), Fail> {
    assert_cycle_is_added(rt, &remains_of(alloc, new, old)?);
    let back = remains_of(alloc, old, new)?;
    assert_eq!(rt; back.removed().len(), 2);
    assert_eq!(rt; back.added().len(), 0);
    assert!(rt; !are_parted(alloc, new, old)?);
    Ok(())
}

// Of what leaks the objects that differ are told alone.
#[test]
fn differing_island_is_told_alone(rt: HostRuntime) -> Result<(), Fail> {
    let old = [CYCLE, BREAK, LET_GO, LEAK];
    let new = [CYCLE, LET_GO, LEAK];
    with_heaps(rt.alloc(), &new, &old, 25, 64, |new, old| {
        assert_cycle_alone(&rt, rt.alloc(), new, old)
    })
}

// An object that holds itself and has a Weak, and another one that holds itself.
const PAIR: &str = "\
{\"fields\":[null],\"id\":1,\"op\":\"new\",\"t\":0,\"to\":0}
{\"from\":0,\"id\":2,\"op\":\"clone\",\"t\":0,\"to\":1}
{\"from\":1,\"h\":0,\"i\":0,\"id\":3,\"op\":\"set\",\"t\":0}
{\"from\":0,\"id\":4,\"op\":\"downgrade\",\"t\":0,\"to\":1}
{\"fields\":[null,null],\"id\":5,\"op\":\"new\",\"t\":0,\"to\":2}
{\"from\":2,\"id\":6,\"op\":\"clone\",\"t\":0,\"to\":3}
{\"from\":3,\"h\":2,\"i\":0,\"id\":7,\"op\":\"set\",\"t\":0}
";

// The second holds the Weak to the first, or it is dropped.
const HOLD: &str = "{\"from\":1,\"h\":2,\"i\":1,\"id\":8,\"op\":\"set\",\"t\":0}\n";

const DROP: &str = "{\"h\":1,\"id\":8,\"op\":\"drop\",\"t\":0}\n";

const LEAK_BOTH: &str = "\
{\"h\":0,\"id\":9,\"op\":\"drop\",\"t\":0}
{\"h\":2,\"id\":10,\"op\":\"drop\",\"t\":0}
";

fn assert_first_joins(rt: &impl Abort, remains: &Remains) {
    assert_eq!(rt; remains.removed().len(), 2);
    assert_eq!(rt; remains.added().len(), 2);
    assert!(rt; is_with(remains.removed().get(1), 1, 1, 0));
    assert!(rt; is_with(remains.added().get(1), 1, 1, 1));
}

// The second object alone is left as a suspect.
fn assert_joins_by_count(
    rt: &impl Abort,
    alloc: Global,
    new: &Heap,
    old: &Heap,
) -> Result<(), Fail> {
    let (meeting, suspects) = meet_all(alloc, new, old)?;
    assert_eq!(rt; suspects.as_slice(), [5].as_slice());
    match &meeting {
        Meeting::Alike(remains) => assert_first_joins(rt, remains),
        Meeting::Apart | Meeting::Same => return Err(Fail::from("they agree")),
    }
    Ok(())
}

// The first is the same in both but for its weak count.
#[test]
fn object_joins_by_its_count(rt: HostRuntime) -> Result<(), Fail> {
    let new = [PAIR, HOLD, LEAK_BOTH];
    let old = [PAIR, DROP, LEAK_BOTH];
    with_heaps(rt.alloc(), &new, &old, 11, 64, |new, old| {
        assert_joins_by_count(&rt, rt.alloc(), new, old)
    })
}

const LEAK_SECOND: &str = "{\"h\":2,\"id\":10,\"op\":\"drop\",\"t\":0}\n";

fn assert_apart(rt: &impl Abort, alloc: Global, new: &Heap, old: &Heap) -> Result<(), Fail> {
    let (meeting, suspects) = meet_all(alloc, new, old)?;
    assert!(rt; matches!(meeting, Meeting::Apart));
    assert_eq!(rt; suspects.as_slice(), [5].as_slice());
    assert!(rt; are_parted(alloc, new, old)?);
    Ok(())
}

// Where the first is held yet, its count differs in what can be reached.
#[test]
fn count_of_a_held_object_parts(rt: HostRuntime) -> Result<(), Fail> {
    let new = [PAIR, HOLD, LEAK_SECOND];
    let old = [PAIR, DROP, LEAK_SECOND];
    with_heaps(rt.alloc(), &new, &old, 11, 64, |new, old| {
        assert_apart(&rt, rt.alloc(), new, old)
    })
}

// Two objects, each held.
const HELD: &str = "\
{\"fields\":[null],\"id\":1,\"op\":\"new\",\"t\":0,\"to\":0}
{\"fields\":[],\"id\":2,\"op\":\"new\",\"t\":0,\"to\":1}
";

// The first holds the second, or it is dropped.
const PUT: &str = "{\"from\":1,\"h\":0,\"i\":0,\"id\":3,\"op\":\"set\",\"t\":0}\n";

const END: &str = "{\"h\":1,\"id\":3,\"op\":\"drop\",\"t\":0}\n";

fn assert_parted(rt: &impl Abort, alloc: Global, new: &Heap, old: &Heap) -> Result<(), Fail> {
    let mut suspects = Suspects::of_both(alloc, new, old)?;
    let mut seen = None;
    let meeting = meet_among(alloc, new, old, &mut suspects, &mut seen)?;
    assert!(rt; matches!(meeting, Meeting::Apart));
    match &seen {
        Some(trail) => assert!(rt; refutes(trail, new, old)),
        None => return Err(Fail::from("a trail")),
    }
    Ok(())
}

// A suspect that is reached parts the heaps, and the trail leads to it.
#[test]
fn reached_suspect_parts(rt: HostRuntime) -> Result<(), Fail> {
    with_heaps(rt.alloc(), &[HELD, END], &[HELD, PUT], 4, 65, |end, put| {
        assert!(rt; end.same_roots(put));
        assert_parted(&rt, rt.alloc(), end, put)?;
        assert_parted(&rt, rt.alloc(), put, end)
    })
}

// A handle of the cycle is cloned, and the clone dropped.
const CLONE_AND_DROP: &str = "\
{\"from\":0,\"id\":31,\"op\":\"clone\",\"t\":0,\"to\":5}
{\"h\":5,\"id\":32,\"op\":\"drop\",\"t\":0}
";

fn assert_none_is_left(rt: &impl Abort, alloc: Global, new: &Heap, old: &Heap) -> Result<(), Fail> {
    let mut suspects = Suspects::of_both(alloc, new, old)?;
    assert_eq!(rt; suspects.as_slice(), [1, 2, 1, 2].as_slice());
    let meeting = meet_among(alloc, new, old, &mut suspects, &mut None)?;
    assert!(rt; matches!(meeting, Meeting::Same));
    assert_eq!(rt; suspects.as_slice().len(), 0);
    Ok(())
}

// What is the same again is no suspect any more.
#[test]
fn equal_suspects_are_dropped(rt: HostRuntime) -> Result<(), Fail> {
    let new = [CYCLE, CLONE_AND_DROP, LET_GO];
    let old = [CYCLE, LET_GO];
    with_heaps(rt.alloc(), &new, &old, 33, 64, |new, old| {
        assert_none_is_left(&rt, rt.alloc(), new, old)
    })
}

// What outcomes tell of: their own numbers, those of their events and those of their counts.
#[test]
fn outcomes_make_suspects(rt: HostRuntime) -> Result<(), Fail> {
    let alloc = rt.alloc();
    let mut text = String::new(alloc);
    text.push_str(HELD)?;
    text.push_str(END)?;
    let trace = read_trace(alloc, text.as_bytes()).map_err(|_| Fail::from("a fault"))?;
    let (outcomes, _) = replay(alloc, &trace, &mut Meter::new())?;
    let mut suspects = Suspects::none(alloc);
    suspects.add(outcomes.as_slice())?;
    assert_eq!(rt; suspects.as_slice(), [1, 1, 2, 2, 3, 2, 2, 2].as_slice());
    Ok(())
}

// Those that are given.
#[test]
fn given_objects_are_suspects(rt: HostRuntime) -> Result<(), Fail> {
    let suspects = Suspects::of(rt.alloc(), [7, 2].as_slice())?;
    assert_eq!(rt; suspects.as_slice(), [7, 2].as_slice());
    Ok(())
}
