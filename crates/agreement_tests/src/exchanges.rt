//! Remains that differ and remains that don't, and checkpoints in which an exchange is still to be made.
ghost use Rattle.std.specs.Prelude.{◌≡◌, IfOk, IfSome};
ghost use Rattle.std.specs.Arc.{arc_value};
ghost use Rattle.ownership_model.specs.Patch.{patched};

use crate::agreeing::{BREAK, CYCLE, LET_GO, heap_of, remains_of, with_heaps};
use agreement::agree::agree;
use agreement::{Checkpoint, Exchange};
use object_heap::Heap;
use std::alloc::{AllocError, Global};
use std::process::Abort;
use std::sync::Arc;
use std::test::Fail;

// What is to be exchanged in the old heap to make it the new one, where both agree.
fn exchange_between(
    alloc: Global,
    new: &Heap,
    old: &Heap,
) -> Result<Option<Arc<Exchange>>, AllocError>
    ensures { IfOk result (λ r. IfSome r (λ x. patched old.now (arc_value x) ≡ new.now)) }
{
    match agree(alloc, new, old)? {
        None => Ok(None),
        Some(remains) => {
            let exchange = Arc::try_clone(remains.differing())?;
            Ok(Some(exchange))
        }
    }
}

// An exchange that makes the middle heap out of the first one, and what makes the last one out of that, as one.
fn joined(
    alloc: Global,
    first: &Heap,
    middle: &Heap,
    last: &Heap,
    exchange: &Exchange,
) -> Result<Option<Exchange>, AllocError>
    requires { patched first.now exchange.now ≡ middle.now }
    ensures { IfOk result (λ r. IfSome r (λ x. patched first.now x ≡ last.now)) }
{
    match exchange_between(alloc, last, middle)? {
        None => Ok(None),
        Some(next) => {
            let both = exchange.then(alloc, &next)?;
            Ok(Some(both))
        }
    }
}

// The heap that an exchange makes, which is known.
fn made(alloc: Global, kept: &Heap, exchange: &Exchange, known: &Heap) -> Result<Heap, AllocError>
    requires { patched kept.now exchange.now ≡ known.now }
    ensures { IfOk result (λ h. h ≡ known.now) }
{
    known.show_sound();
    let checkpoint = Checkpoint::under(kept, exchange);
    checkpoint.heap(alloc)
}

// The first heap kept as the middle one, and that as the last one.
fn made_last(
    alloc: Global,
    first: &Heap,
    middle: &Heap,
    last: &Heap,
) -> Result<Option<Heap>, AllocError> {
    let Some(exchange) = exchange_between(alloc, middle, first)? else {
        return Ok(None);
    };
    let Some(both) = joined(alloc, first, middle, last, &exchange)? else {
        return Ok(None);
    };
    let heap = made(alloc, first, &both, last)?;
    Ok(Some(heap))
}

// Of two heaps in which other objects leak the remains change something.
fn assert_they_change(rt: &impl Abort, alloc: Global, a: &Heap, b: &Heap) -> Result<(), Fail> {
    assert!(rt; !remains_of(alloc, a, b)?.changes_nothing());
    assert!(rt; !remains_of(alloc, b, a)?.changes_nothing());
    Ok(())
}

// Of a heap and itself they are all that leaks, and change nothing.
fn assert_none_changes(rt: &impl Abort, alloc: Global, heap: &Heap) -> Result<(), Fail> {
    let both = remains_of(alloc, heap, heap)?;
    assert_eq!(rt; both.removed().len(), 2);
    assert_eq!(rt; both.added().len(), 2);
    assert!(rt; both.changes_nothing());
    Ok(())
}

#[test]
fn remains_tell_whether_they_change_anything(rt: HostRuntime) -> Result<(), Fail> {
    let leaked = [CYCLE, LET_GO];
    let without = [CYCLE, BREAK, LET_GO];
    with_heaps(rt.alloc(), &leaked, &without, 12, 64, |leaked, without| {
        assert_they_change(&rt, rt.alloc(), leaked, without)?;
        assert_none_changes(&rt, rt.alloc(), leaked)
    })
}

// Objects 70 and 71 hold each other.
const SECOND_CYCLE: &str = "\
{\"fields\":[null],\"id\":70,\"op\":\"new\",\"t\":0,\"to\":0}
{\"fields\":[null],\"id\":71,\"op\":\"new\",\"t\":0,\"to\":1}
{\"from\":0,\"id\":72,\"op\":\"clone\",\"t\":0,\"to\":2}
{\"from\":1,\"id\":73,\"op\":\"clone\",\"t\":0,\"to\":3}
{\"from\":3,\"h\":0,\"i\":0,\"id\":74,\"op\":\"set\",\"t\":0}
{\"from\":2,\"h\":1,\"i\":0,\"id\":75,\"op\":\"set\",\"t\":0}
{\"id\":76,\"op\":\"null\",\"t\":0,\"to\":4}
";

// The first of them holds the second no more.
const SECOND_BREAK: &str = "\
{\"from\":4,\"h\":0,\"i\":0,\"id\":77,\"op\":\"set\",\"t\":0}
";

const LET_SECOND_GO: &str = "\
{\"h\":4,\"id\":78,\"op\":\"drop\",\"t\":0}
{\"h\":0,\"id\":79,\"op\":\"drop\",\"t\":0}
{\"h\":1,\"id\":80,\"op\":\"drop\",\"t\":0}
";

// A heap in which one cycle leaks.
fn fewer_leaks(alloc: Global) -> Result<Heap, Fail> {
    let lines = [CYCLE, LET_GO, SECOND_CYCLE, SECOND_BREAK, LET_SECOND_GO];
    heap_of(alloc, &lines, 81, 92)
}

// The heap in which the second cycle leaks, too.
fn more_leaks(alloc: Global) -> Result<Heap, Fail> {
    let lines = [CYCLE, LET_GO, SECOND_CYCLE, LET_SECOND_GO];
    heap_of(alloc, &lines, 81, 92)
}

#[test]
fn checkpoints_stand_for_later_heaps(rt: HostRuntime) -> Result<(), Fail> {
    let alloc = rt.alloc();
    let fewer = fewer_leaks(alloc)?;
    let more = more_leaks(alloc)?;
    assert!(rt; !more.same(&fewer));
    assert_eq!(rt; remains_of(alloc, &more, &fewer)?.removed().len(), 2);
    assert_eq!(rt; remains_of(alloc, &more, &fewer)?.added().len(), 4);
    for (first, middle, last) in [
        (&fewer, &more, &fewer),
        (&more, &fewer, &more),
        (&fewer, &more, &more),
        (&fewer, &fewer, &more),
        (&more, &more, &more),
    ] {
        let Some(made) = made_last(alloc, first, middle, last)? else {
            return Err(Fail::from("they agree"));
        };
        assert!(rt; made.same(last));
    }
    let as_it_is = Checkpoint::of(&more);
    assert!(rt; as_it_is.heap(alloc)?.same(&more));
    Ok(())
}

// An exchange that leaves a heap as it is, and then to another heap and back, as one.
fn there_and_back(
    alloc: Global,
    here: &Heap,
    there: &Heap,
    exchange: &Exchange,
) -> Result<Option<Exchange>, AllocError>
    requires { patched here.now exchange.now ≡ here.now }
    ensures { IfOk result (λ r. IfSome r (λ x. patched here.now x ≡ here.now)) }
{
    match joined(alloc, here, here, there, exchange)? {
        None => Ok(None),
        Some(further) => joined(alloc, here, there, here, &further),
    }
}

// Many exchanges are one that takes no more than the heap that they make.
#[test]
fn many_exchanges_are_one(rt: HostRuntime) -> Result<(), Fail> {
    let alloc = rt.alloc();
    let here = fewer_leaks(alloc)?;
    let there = more_leaks(alloc)?;
    let Some(first) = exchange_between(alloc, &here, &here)? else {
        return Err(Fail::from("they agree"));
    };
    let Some(mut exchange) = there_and_back(alloc, &here, &there, &first)? else {
        return Err(Fail::from("they agree"));
    };
    for _ in 0..20 {
        let Some(next) = there_and_back(alloc, &here, &there, &exchange)? else {
            return Err(Fail::from("they agree"));
        };
        assert!(rt; made(alloc, &here, &next, &here)?.same(&here));
        exchange = next;
    }
    Ok(())
}
