//! Where the replay of an edited trace stops: at a checkpoint where the heaps agree, and at no other.
use crate::small_runs::{
    after, are_marks, counts, did, leaks, skipped, tells, with_both, with_edited, with_run,
};
use crate::small_traces::{add, add_pairs, batch, broken_cycle, change, insertion, new, set, two};
use leak_report::find_leaks;
use object_heap::Heap;
use op_step::Meter;
use op_step::replay::replay;
use ownership_model::{Holder, Leak};
use run_engine::Run;
use std::alloc::Global;
use std::process::Abort;
use std::test::Fail;
use trace_types::edits::{Batch, Edit};
use trace_types::kinds::{Field, Kind};
use trace_types::outcomes::{Answer, Event, Reason};
use trace_types::trace::Trace;

// Whether the object is held by the first field of the other one alone.
fn is_held_by(leak: Option<&Leak>, object: u32, other: u32) -> bool {
    let holder = Holder {
        object: other,
        field: 0,
    };
    match leak {
        Some(leak) => leak.object == object && leak.holders.as_slice() == [holder].as_slice(),
        None => false,
    }
}

// Whether two objects leak in the end, the first and the one after it, each held by the first field of the other.
fn is_leaked_pair(alloc: Global, run: &Run, object: u32, other: u32) -> Result<bool, Fail> {
    let leaks = find_leaks(alloc, run.end())?;
    let leaked = leaks.leaked.as_slice();
    Ok(
        leaked.len() == 2
            && is_held_by(leaked.first(), object, other)
            && is_held_by(leaked.last(), other, object),
    )
}

// Whether the operation at a place, which drops the last handle to the broken cycle, ends both of its objects.
fn ends_both(run: &Run, place: usize) -> bool {
    let gone = [
        Event::Destroyed(2),
        Event::Destroyed(1),
        Event::Freed(1),
        Event::Freed(2),
    ];
    tells(run, place, did(11, Answer::Done, counts(2, 0, 0), &gone))
}

// The run of the broken cycle, in which nothing leaks.
fn assert_no_leak(rt: &impl Abort, alloc: Global, run: &Run) -> Result<(), Fail> {
    assert!(rt; ends_both(run, 10));
    assert_eq!(rt; leaks(alloc, run)?, 0);
    Ok(())
}

// The run of the cycle that no operation breaks.
fn assert_leak(rt: &impl Abort, alloc: Global, run: &Run) -> Result<(), Fail> {
    assert_eq!(rt; run.len(), 1010);
    assert!(rt; are_marks(alloc, run, &[0], 63, 1010)?);
    assert!(rt; is_leaked_pair(alloc, run, 1, 2)?);
    assert!(rt; tells(run, 9, did(11, Answer::Done, counts(2, 1, 0), &[])));
    Ok(())
}

// The run of the broken cycle, which was replayed whole.
fn assert_loaded(rt: &impl Abort, alloc: Global, run: &Run, steps: u64) -> Result<(), Fail> {
    assert_eq!(rt; steps, 1011);
    assert_eq!(rt; run.len(), 1011);
    assert!(rt; are_marks(alloc, run, &[], 0, 1011)?);
    assert!(rt; ends_both(run, 10));
    Ok(())
}

// That run before and after the edit.
fn assert_leak_after_edit(
    rt: &impl Abort,
    alloc: Global,
    run: &Run,
    steps: u64,
) -> Result<(), Fail> {
    assert_loaded(rt, alloc, run, steps)?;
    let edits = batch(alloc, Edit::Remove { id: 8 })?;
    with_edited(alloc, run, edits, |edited, steps| {
        assert_eq!(rt; steps, 63);
        assert_leak(rt, alloc, edited)?;
        assert_no_leak(rt, alloc, run)
    })
}

#[test]
fn leak_after_edit(rt: HostRuntime) -> Result<(), Fail> {
    let alloc = rt.alloc();
    let trace = broken_cycle(alloc)?;
    let mut meter = Meter::new();
    let run = Run::load(alloc, &trace, &mut meter)?;
    assert_leak_after_edit(&rt, alloc, &run, meter.count())
}

// An object with a Weak to it, and two objects that come to hold each other, of which the first keeps that Weak.
fn add_cycle_with_weak(alloc: Global, trace: &mut Trace) -> Result<(), Fail> {
    add(trace, 1, new(alloc, 7, &[])?)?;
    add(trace, 2, Kind::Downgrade { from: 7, to: 8 })?;
    add(trace, 3, new(alloc, 0, &[Field::Null, Field::Held(8)])?)?;
    add(trace, 4, new(alloc, 1, &[Field::Null])?)?;
    add(trace, 5, Kind::Clone { from: 0, to: 2 })?;
    add(trace, 6, Kind::Clone { from: 1, to: 3 })?;
    add(trace, 7, set(0, 3))?;
    add(trace, 8, set(1, 2))
}

// The cycle is broken, and both handles to it are dropped.
fn break_cycle_with_weak(trace: &mut Trace) -> Result<(), Fail> {
    add(trace, 9, Kind::Null { to: 4 })?;
    add(trace, 10, set(0, 4))?;
    add(trace, 11, Kind::Drop { h: 4 })?;
    add(trace, 12, Kind::Drop { h: 0 })?;
    add(trace, 13, Kind::Drop { h: 1 })
}

// Far behind, it is asked whether the first object is held once, and by no Weak but one.
fn broken_cycle_with_weak(alloc: Global) -> Result<Trace, Fail> {
    let mut trace = Trace::new(alloc);
    add_cycle_with_weak(alloc, &mut trace)?;
    break_cycle_with_weak(&mut trace)?;
    add_pairs(alloc, &mut trace, 14, 1013)?;
    add(&mut trace, 1014, Kind::GetMut { h: 7 })?;
    Ok(trace)
}

#[test]
fn weak_count_differs(rt: HostRuntime) -> Result<(), Fail> {
    let alloc = rt.alloc();
    let edits = batch(alloc, Edit::Remove { id: 10 })?;
    let trace = broken_cycle_with_weak(alloc)?;
    with_both(alloc, trace, edits, |run, edited, steps| {
        assert!(rt; tells(run, 1013, did(1014, Answer::Yes, counts(1, 1, 0), &[])));
        // no old checkpoint agrees: all is stepped that touches what differs, at the front and at the end
        assert_eq!(rt; steps, 117);
        assert!(rt; tells(edited, 1012, did(1014, Answer::No, counts(1, 1, 1), &[])));
        assert!(rt; is_leaked_pair(alloc, edited, 3, 4)?);
        Ok(())
    })
}

// An object that holds itself by its field, until that is taken; then it goes.
fn add_husk(alloc: Global, trace: &mut Trace) -> Result<(), Fail> {
    add(trace, 1, new(alloc, 0, &[Field::Null])?)?;
    add(trace, 2, Kind::Downgrade { from: 0, to: 5 })?;
    add(trace, 3, Kind::Clone { from: 0, to: 1 })?;
    add(trace, 4, set(0, 1))?;
    add(trace, 5, Kind::Take { h: 0, i: 0, to: 2 })?;
    add(trace, 6, Kind::Drop { h: 2 })?;
    add(trace, 7, Kind::Drop { h: 0 })
}

// Far behind, the Weak to it is upgraded.
fn husk(alloc: Global) -> Result<Trace, Fail> {
    let mut trace = Trace::new(alloc);
    add_husk(alloc, &mut trace)?;
    add_pairs(alloc, &mut trace, 8, 1007)?;
    add(&mut trace, 1008, Kind::Upgrade { from: 5, to: 6 })?;
    Ok(trace)
}

// The run where the field is not taken, so that the object stays.
fn assert_alive(rt: &impl Abort, run: &Run) {
    assert!(rt; tells(run, 4, skipped(6, Reason::NotHeld(2))));
    assert!(rt; tells(run, 5, did(7, Answer::Done, counts(1, 1, 1), &[])));
    assert!(rt; tells(run, 1006, did(1008, Answer::Yes, counts(1, 2, 1), &[])));
}

#[test]
fn husk_or_alive(rt: HostRuntime) -> Result<(), Fail> {
    let alloc = rt.alloc();
    let edits = batch(alloc, Edit::Remove { id: 5 })?;
    let trace = husk(alloc)?;
    with_both(alloc, trace, edits, |run, edited, steps| {
        assert!(rt; tells(run, 1007, did(1008, Answer::No, counts(1, 0, 1), &[])));
        assert!(rt; steps <= 1007);
        assert_alive(&rt, edited);
        assert_eq!(rt; leaks(alloc, edited)?, 0);
        Ok(())
    })
}

// An object is made at the front, and dropped in the second stretch.
fn made_and_dropped(alloc: Global) -> Result<Batch, Fail> {
    let made = insertion(0, 2000, new(alloc, 20, &[])?)?;
    let dropped = insertion(100, 2001, Kind::Drop { h: 20 })?;
    two(alloc, made, dropped)
}

#[test]
fn shifted_stop(rt: HostRuntime) -> Result<(), Fail> {
    let alloc = rt.alloc();
    let edits = made_and_dropped(alloc)?;
    let trace = broken_cycle(alloc)?;
    with_both(alloc, trace, edits, |_, edited, steps| {
        assert_eq!(rt; steps, 130);
        assert_eq!(rt; edited.len(), 1013);
        assert!(rt; are_marks(alloc, edited, &[0, 64, 128], 130, 1013)?);
        Ok(())
    })
}

// The run where the null pointer that breaks the cycle is not made: what should put it into a field is skipped.
fn assert_not_broken(rt: &impl Abort, alloc: Global, run: &Run) -> Result<(), Fail> {
    assert!(rt; is_leaked_pair(alloc, run, 1, 2)?);
    assert!(rt; tells(run, 6, skipped(8, Reason::NotHeld(4))));
    Ok(())
}

// The run where a `Weak::new` breaks the cycle.
fn assert_broken_by_weak(rt: &impl Abort, alloc: Global, run: &Run) -> Result<(), Fail> {
    assert_eq!(rt; leaks(alloc, run)?, 0);
    assert!(rt; tells(run, 6, did(7, Answer::Done, None, &[])));
    assert!(rt; tells(run, 7, did(8, Answer::Done, counts(1, 2, 0), &[])));
    assert!(rt; ends_both(run, 10));
    Ok(())
}

// A `Weak::new` comes where the null pointer was.
fn reinsert(rt: &impl Abort, alloc: Global, run: &Run) -> Result<(), Fail> {
    let edits = batch(alloc, insertion(6, 7, Kind::WeakNew { to: 4 })?)?;
    with_edited(alloc, run, edits, |edited, steps| {
        assert_eq!(rt; steps, 64);
        assert_broken_by_weak(rt, alloc, edited)
    })
}

#[test]
fn remove_and_reinsert(rt: HostRuntime) -> Result<(), Fail> {
    let alloc = rt.alloc();
    let edits = batch(alloc, Edit::Remove { id: 7 })?;
    let trace = broken_cycle(alloc)?;
    with_both(alloc, trace, edits, |_, first, steps| {
        assert_eq!(rt; steps, 63);
        assert_not_broken(&rt, alloc, first)?;
        reinsert(&rt, alloc, first)
    })
}

/// Pairs of objects that come to hold each other and are let go: each pair leaks.
pub fn leaked_pairs(alloc: Global, ops: u32) -> Result<Trace, Fail> {
    let mut trace = Trace::new(alloc);
    for id in 1..=ops {
        let kind = match id % 8 {
            1 => new(alloc, 0, &[Field::Null])?,
            2 => new(alloc, 1, &[Field::Null])?,
            3 => Kind::Clone { from: 0, to: 2 },
            4 => Kind::Clone { from: 1, to: 3 },
            5 => set(0, 3),
            6 => set(1, 2),
            7 => Kind::Drop { h: 0 },
            _ => Kind::Drop { h: 1 },
        };
        add(&mut trace, id, kind)?;
    }
    Ok(trace)
}

/// The run where the second object of the pair that operation 97 begins has these fields, and how many operations were stepped.
pub fn with_fields(alloc: Global, run: &Run, fields: &[Field]) -> Result<(Run, u64), Fail> {
    after(alloc, run, change(98, new(alloc, 1, fields)?)?)
}

// Puts such a run in the place of this one, and tells how many operations were stepped.
fn give_fields(alloc: Global, run: &mut Run, fields: &[Field]) -> Result<u64, Fail> {
    let (edited, steps) = with_fields(alloc, run, fields)?;
    *run = edited;
    Ok(steps)
}

// Gives that object so many fields: what ends this run, and how many operations were stepped.
fn turn(
    rt: &impl Abort,
    alloc: Global,
    run: &mut Run,
    fields: &[Field],
    end: &Heap,
) -> Result<(), Fail> {
    assert_eq!(rt; give_fields(alloc, run, fields)?, 64);
    assert!(rt; run.end().same(end));
    Ok(())
}

// Gives that object one field, and then two again, ten times: what ends each of these runs is known.
fn turn_often(
    rt: &impl Abort,
    alloc: Global,
    run: &mut Run,
    one: &Heap,
    two: &Heap,
) -> Result<(), Fail> {
    for _ in 0..10u32 {
        turn(rt, alloc, run, &[Field::Null], one)?;
        turn(rt, alloc, run, &[Field::Null, Field::Null], two)?;
    }
    Ok(())
}

// Does so from a run that gives the object two fields, where the first run gives it one.
fn turn_from(rt: &impl Abort, alloc: Global, run: &mut Run, first: &Run) -> Result<(), Fail> {
    let longer = run.end().share()?;
    assert!(rt; !longer.same(first.end()));
    turn_often(rt, alloc, run, first.end(), &longer)
}

// Whether the run ends with the heap of the replay of this trace from nothing.
fn ends_as(alloc: Global, run: &Run, trace: &Trace) -> Result<bool, Fail> {
    let (_, end) = replay(alloc, trace, &mut Meter::new())?;
    Ok(run.end().same(&end))
}

// Whether the run ends with the heap of the replay of its trace from nothing.
fn ends_as_replay(alloc: Global, run: &Run) -> Result<bool, Fail> {
    let trace = run.trace(alloc)?;
    ends_as(alloc, run, &trace)
}

// The replay begins again at the last checkpoint, in which all of these are exchanged, and goes to the end.
fn assert_end_is_replayed(rt: &impl Abort, alloc: Global, run: &Run) -> Result<(), Fail> {
    let edits = batch(alloc, Edit::Remove { id: 16_384 })?;
    with_edited(alloc, run, edits, |shorter, steps| {
        assert_eq!(rt; steps, 63);
        assert!(rt; ends_as_replay(alloc, shorter)?);
        Ok(())
    })
}

// The run that gives the object two fields, which 64 operations were stepped for. It is changed often, and then the last operation goes.
fn assert_turns(
    rt: &impl Abort,
    alloc: Global,
    run: &mut Run,
    steps: u64,
    first: &Run,
) -> Result<(), Fail> {
    assert_eq!(rt; steps, 64);
    turn_from(rt, alloc, run, first)?;
    assert_end_is_replayed(rt, alloc, run)
}

// The pair leaks either way. It is changed more often than a checkpoint lists remains.
#[test]
fn leaked_pair_changes_near_the_front(rt: HostRuntime) -> Result<(), Fail> {
    let alloc = rt.alloc();
    let trace = leaked_pairs(alloc, 16_384)?;
    with_run(alloc, trace, |first| {
        let (mut run, steps) = with_fields(alloc, first, &[Field::Null, Field::Null])?;
        assert_turns(&rt, alloc, &mut run, steps, first)
    })
}
