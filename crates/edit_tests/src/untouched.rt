//! A difference that lasts to the end: what doesn't touch it is taken over, and what touches it is stepped.
use crate::anchors::many_held;
use crate::small_runs::{counts, did, is_replay, tells, with_both, with_edited};
use crate::small_traces::{add, add_of, add_pairs, batch, change, insertion, new, op_of, two};
use run_engine::Run;
use std::alloc::Global;
use std::process::Abort;
use std::test::Fail;
use trace_types::edits::{Batch, Edit};
use trace_types::kinds::{Field, Kind};
use trace_types::outcomes::Answer;
use trace_types::trace::Trace;

// An object by handle 0, one by handle 2 whose field holds it, and a null pointer by handle 20.
fn add_first(alloc: Global, trace: &mut Trace) -> Result<(), Fail> {
    add(trace, 1, new(alloc, 0, &[])?)?;
    add(trace, 2, Kind::Clone { from: 0, to: 1 })?;
    add(trace, 3, new(alloc, 2, &[Field::Held(1)])?)?;
    add(trace, 4, Kind::Null { to: 20 })
}

// These, and pairs of operations up to one with a number, which touch none of them.
pub fn with_pairs(alloc: Global, last: u32) -> Result<Trace, Fail> {
    let mut trace = Trace::new(alloc);
    add_first(alloc, &mut trace)?;
    add_pairs(alloc, &mut trace, 5, last)?;
    Ok(trace)
}

// A trace of these, and then one operation more.
fn with_last(alloc: Global, last: Kind) -> Result<Trace, Fail> {
    let mut trace = with_pairs(alloc, 4_100)?;
    add(&mut trace, 4_101, last)?;
    Ok(trace)
}

// So many operations are stepped for an edit of such a trace, and the edited run is its replay.
fn assert_stepped(
    rt: &impl Abort,
    alloc: Global,
    last: Kind,
    edits: Batch,
    due: u64,
) -> Result<(), Fail> {
    let trace = with_last(alloc, last)?;
    with_both(alloc, trace, edits, |_, edited, steps| {
        assert_eq!(rt; steps, due);
        assert!(rt; is_replay(alloc, edited)?);
        Ok(())
    })
}

// A stretch of 64 operations becomes longer by one. All others are taken over.
#[test]
fn handle_more_stays(rt: HostRuntime) -> Result<(), Fail> {
    let alloc = rt.alloc();
    let edits = batch(alloc, insertion(4, 5_000, Kind::Null { to: 30 })?)?;
    assert_stepped(&rt, alloc, Kind::Counts { h: 0 }, edits, 65)
}

#[test]
fn handle_fewer_stays(rt: HostRuntime) -> Result<(), Fail> {
    let alloc = rt.alloc();
    let edits = batch(alloc, Edit::Remove { id: 4 })?;
    assert_stepped(&rt, alloc, Kind::Counts { h: 0 }, edits, 63)
}

// These, then sixty handles of another scope, and pairs of operations.
fn with_sixty(alloc: Global) -> Result<Trace, Fail> {
    let mut trace = Trace::new(alloc);
    add_first(alloc, &mut trace)?;
    for id in 5..=64u32 {
        add_of(&mut trace, id, 1, Kind::Null { to: 100 + id })?;
    }
    add_pairs(alloc, &mut trace, 65, 4_100)?;
    Ok(trace)
}

// A handle more at the bottom of that scope, under the sixty.
#[test]
fn handle_under_sixty_stays(rt: HostRuntime) -> Result<(), Fail> {
    let alloc = rt.alloc();
    let op = op_of(5_000, 1, Kind::Null { to: 30 })?;
    let edits = batch(alloc, Edit::Insert { after: 4, op })?;
    let trace = with_sixty(alloc)?;
    with_both(alloc, trace, edits, |_, edited, steps| {
        assert_eq!(rt; steps, 65);
        assert!(rt; is_replay(alloc, edited)?);
        Ok(())
    })
}

// The object has one holder more. The last stretch, of five operations, tells that: it is taken over, and tells one more.
#[test]
fn counts_shift(rt: HostRuntime) -> Result<(), Fail> {
    let alloc = rt.alloc();
    let edits = batch(alloc, insertion(4, 5_000, Kind::Clone { from: 0, to: 30 })?)?;
    assert_stepped(&rt, alloc, Kind::Counts { h: 0 }, edits, 65)
}

// As above, and the last stretch asks whether it is the only one.
#[test]
fn counts_decide(rt: HostRuntime) -> Result<(), Fail> {
    let alloc = rt.alloc();
    let edits = batch(alloc, insertion(4, 5_000, Kind::Clone { from: 0, to: 30 })?)?;
    assert_stepped(&rt, alloc, Kind::GetMut { h: 0 }, edits, 70)
}

// An object by handles 0 and 20 and by the field of one by handle 2, and pairs of operations that touch none of them.
fn with_holders(alloc: Global) -> Result<Trace, Fail> {
    let mut trace = Trace::new(alloc);
    add(&mut trace, 1, new(alloc, 0, &[])?)?;
    add(&mut trace, 2, Kind::Clone { from: 0, to: 1 })?;
    add(&mut trace, 3, new(alloc, 2, &[Field::Held(1)])?)?;
    add(&mut trace, 4, Kind::Clone { from: 0, to: 20 })?;
    add_pairs(alloc, &mut trace, 5, 4_100)?;
    Ok(trace)
}

// So many operations of such a trace are stepped if the object loses handle 20.
fn assert_lessened(rt: &impl Abort, alloc: Global, trace: Trace, due: u64) -> Result<(), Fail> {
    let edits = batch(alloc, change(4, Kind::Null { to: 20 })?)?;
    with_both(alloc, trace, edits, |_, edited, steps| {
        assert_eq!(rt; steps, due);
        assert!(rt; is_replay(alloc, edited)?);
        Ok(())
    })
}

// The last stretch uses both holders that are left. It is taken over, and tells one fewer.
#[test]
fn holders_that_are_used_stay(rt: HostRuntime) -> Result<(), Fail> {
    let alloc = rt.alloc();
    let mut trace = with_holders(alloc)?;
    add(&mut trace, 4_101, Kind::Get { h: 2, i: 0, to: 21 })?;
    add(&mut trace, 4_102, Kind::Counts { h: 0 })?;
    assert_lessened(&rt, alloc, trace, 64)
}

// As above, and the last stretch ends both of them: now the object goes there.
#[test]
fn holders_that_end_are_stepped(rt: HostRuntime) -> Result<(), Fail> {
    let alloc = rt.alloc();
    let mut trace = with_holders(alloc)?;
    add(&mut trace, 4_101, Kind::Take { h: 2, i: 0, to: 21 })?;
    add(&mut trace, 4_102, Kind::Drop { h: 21 })?;
    add(&mut trace, 4_103, Kind::Drop { h: 0 })?;
    assert_lessened(&rt, alloc, trace, 71)
}

// The value of the second object is destroyed near the front. The last operation finds no handle to it.
#[test]
fn value_is_destroyed_earlier(rt: HostRuntime) -> Result<(), Fail> {
    let alloc = rt.alloc();
    let edits = batch(alloc, insertion(4, 5_000, Kind::Drop { h: 2 })?)?;
    assert_stepped(&rt, alloc, Kind::Counts { h: 2 }, edits, 70)
}

// The first object has a Weak more. The last operation drops the second one, whose field holds the first: it doesn't name what differs,
// but its cascade comes to it.
#[test]
fn cascade_touches_what_differs(rt: HostRuntime) -> Result<(), Fail> {
    let alloc = rt.alloc();
    let edits = batch(alloc, change(4, Kind::Downgrade { from: 0, to: 30 })?)?;
    assert_stepped(&rt, alloc, Kind::Drop { h: 2 }, edits, 69)
}

// Two edits in turn: what one stepped, and what it took over, the other takes over.
fn assert_taken_twice(rt: &impl Abort, alloc: Global, edited: &Run) -> Result<(), Fail> {
    let edits = batch(alloc, insertion(5_000, 5_001, Kind::Null { to: 31 })?)?;
    with_edited(alloc, edited, edits, |twice, steps| {
        assert_eq!(rt; steps, 65);
        assert!(rt; is_replay(alloc, twice)?);
        assert!(rt; tells(twice, 4_102, did(4_101, Answer::Done, counts(1, 2, 0), &[])));
        Ok(())
    })
}

#[test]
fn stretches_are_taken_over_twice(rt: HostRuntime) -> Result<(), Fail> {
    let alloc = rt.alloc();
    let edits = batch(alloc, insertion(4, 5_000, Kind::Null { to: 30 })?)?;
    let trace = with_last(alloc, Kind::Counts { h: 0 })?;
    with_both(alloc, trace, edits, |_, edited, _| {
        assert_taken_twice(&rt, alloc, edited)
    })
}

// These, and objects that come and go; from one operation on, in each stretch of 64 up to another, one asks whether the first object has one holder.
fn asked(alloc: Global, from: u32, to: u32) -> Result<Trace, Fail> {
    let mut trace = Trace::new(alloc);
    add_first(alloc, &mut trace)?;
    for id in 5..=4_096u32 {
        let kind = if id % 64 == 10 && from <= id && id < to {
            Kind::GetMut { h: 0 }
        } else if id % 2 == 1 {
            new(alloc, 9, &[])?
        } else {
            Kind::Drop { h: 9 }
        };
        add(&mut trace, id, kind)?;
    }
    Ok(trace)
}

// So many operations of such a trace are stepped if the first object gets one holder more.
fn assert_asked(rt: &impl Abort, alloc: Global, from: u32, to: u32, due: u64) -> Result<(), Fail> {
    let edits = batch(alloc, insertion(4, 5_000, Kind::Clone { from: 0, to: 30 })?)?;
    let trace = asked(alloc, from, to)?;
    with_both(alloc, trace, edits, |_, edited, steps| {
        assert_eq!(rt; steps, due);
        assert!(rt; is_replay(alloc, edited)?);
        Ok(())
    })
}

// The first stretch, and the one that asks: those before it and behind it are taken over.
#[test]
fn stretch_between_is_stepped(rt: HostRuntime) -> Result<(), Fail> {
    let alloc = rt.alloc();
    assert_asked(&rt, alloc, 2_048, 2_112, 129)
}

// The first stretch, four that ask, and one that is passed while no look is due.
#[test]
fn stretches_are_taken_over_after_looks_in_vain(rt: HostRuntime) -> Result<(), Fail> {
    let alloc = rt.alloc();
    assert_asked(&rt, alloc, 64, 320, 385)
}

// After twelve looks in vain in a row there is none any more: all is stepped.
#[test]
fn all_is_stepped_after_many_looks_in_vain(rt: HostRuntime) -> Result<(), Fail> {
    let alloc = rt.alloc();
    assert_asked(&rt, alloc, 64, 2_048, 4_097)
}

// Twenty handles more are held for 300 operations, and one to the end. Where so many differ looks are in vain; behind that all is taken over.
#[test]
fn fewer_differ_again(rt: HostRuntime) -> Result<(), Fail> {
    let alloc = rt.alloc();
    let mut edits = many_held(alloc, 10, 310)?;
    edits.push(insertion(10, 5_000, Kind::Null { to: 30 })?)?;
    assert_stepped(&rt, alloc, Kind::Counts { h: 0 }, edits, 361)
}

// In each stretch one operation asks for the first object's counts by the handle just under one that is more. So many operations are stepped if
// the trace ends with this one.
fn assert_used(rt: &impl Abort, alloc: Global, last: Kind, due: u64) -> Result<(), Fail> {
    let edits = batch(alloc, insertion(1, 5_000, Kind::Null { to: 30 })?)?;
    let mut trace = asked(alloc, 5, 4_097)?;
    add(&mut trace, 4_097, last)?;
    with_both(alloc, trace, edits, |_, edited, steps| {
        assert_eq!(rt; steps, due);
        assert!(rt; is_replay(alloc, edited)?);
        Ok(())
    })
}

// The handle under it is used everywhere, and stays where it stands: all stretches but the first are taken over.
#[test]
fn handle_under_one_more_is_used(rt: HostRuntime) -> Result<(), Fail> {
    let alloc = rt.alloc();
    assert_used(&rt, alloc, Kind::Clone { from: 0, to: 31 }, 65)
}

// It ends in the last stretch, of one operation: this is stepped too.
#[test]
fn handle_under_one_more_ends(rt: HostRuntime) -> Result<(), Fail> {
    let alloc = rt.alloc();
    assert_used(&rt, alloc, Kind::Drop { h: 0 }, 66)
}

// An object by handle 0, which holds itself and one by handle 1, and pairs of operations up to one with a number. Among these the first
// handle ends.
fn cycle_left(alloc: Global) -> Result<Trace, Fail> {
    let mut trace = Trace::new(alloc);
    add(&mut trace, 1, new(alloc, 0, &[Field::Null, Field::Null])?)?;
    add(&mut trace, 2, new(alloc, 1, &[Field::Null])?)?;
    add(&mut trace, 3, Kind::Clone { from: 1, to: 2 })?;
    add(&mut trace, 4, held(0, 0, 2))?;
    add(&mut trace, 5, Kind::Clone { from: 0, to: 3 })?;
    add(&mut trace, 6, held(0, 1, 3))?;
    add(&mut trace, 7, Kind::Drop { h: 1 })?;
    add_pairs(alloc, &mut trace, 8, 2_049)?;
    add(&mut trace, 2_050, Kind::Drop { h: 0 })?;
    add_pairs(alloc, &mut trace, 2_051, 4_100)?;
    Ok(trace)
}

// A handle goes into a field of the object that another one holds.
fn held(h: u32, i: u32, from: u32) -> Kind {
    Kind::Set { h, i, from }
}

// The second object gets a Weak to itself. No operation behind touches it, but from operation 2,050 on nothing leads to it: of the stretches that may
// be taken over at once some end before there, and the replay stops at the next checkpoint.
#[test]
fn heaps_agree_between_stretches(rt: HostRuntime) -> Result<(), Fail> {
    let alloc = rt.alloc();
    let weak = insertion(6, 5_000, Kind::Downgrade { from: 1, to: 30 })?;
    let edits = two(alloc, weak, insertion(5_000, 5_001, held(1, 0, 30))?)?;
    let trace = cycle_left(alloc)?;
    with_both(alloc, trace, edits, |_, edited, steps| {
        assert_eq!(rt; steps, 66);
        assert!(rt; is_replay(alloc, edited)?);
        Ok(())
    })
}
