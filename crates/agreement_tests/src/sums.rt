//! Sums of heaps: they tell heaps apart that differ in one place, and equal heaps have equal ones, however they came about.
use crate::agreeing::heap_of;
use object_heap::Heap;
use std::alloc::Global;
use std::process::Abort;
use std::test::Fail;

// Two objects; the first has a field, with a null pointer.
const START: &str = "\
{\"id\":1,\"op\":\"null\",\"t\":0,\"to\":0}
{\"fields\":[0],\"id\":2,\"op\":\"new\",\"t\":0,\"to\":1}
{\"fields\":[],\"id\":3,\"op\":\"new\",\"t\":0,\"to\":2}
";

// Each leaves another heap than all others do.
const WAYS: [&str; 25] = [
    "",
    // a handle: which, what it holds, and in whose scope it stands
    "{\"id\":4,\"op\":\"null\",\"t\":0,\"to\":3}\n",
    "{\"id\":4,\"op\":\"null\",\"t\":0,\"to\":4}\n",
    "{\"id\":4,\"op\":\"null\",\"t\":1,\"to\":3}\n",
    "{\"id\":4,\"op\":\"weak_new\",\"t\":0,\"to\":3}\n",
    "{\"from\":1,\"id\":4,\"op\":\"clone\",\"t\":0,\"to\":3}\n",
    "{\"from\":2,\"id\":4,\"op\":\"clone\",\"t\":0,\"to\":3}\n",
    "{\"from\":2,\"id\":4,\"op\":\"clone\",\"t\":0,\"to\":4}\n",
    "{\"from\":2,\"id\":4,\"op\":\"downgrade\",\"t\":0,\"to\":3}\n",
    // in whose scope alone
    "{\"id\":4,\"op\":\"null\",\"t\":2,\"to\":3}\n",
    // which of two was made first
    "{\"id\":4,\"op\":\"null\",\"t\":0,\"to\":3}\n{\"id\":5,\"op\":\"null\",\"t\":0,\"to\":4}\n",
    "{\"id\":4,\"op\":\"null\",\"t\":0,\"to\":4}\n{\"id\":5,\"op\":\"null\",\"t\":0,\"to\":3}\n",
    // a value that was moved out, and its fields
    "{\"from\":2,\"id\":4,\"op\":\"clone\",\"t\":0,\"to\":3}\n{\"from\":3,\"h\":1,\"i\":0,\"id\":5,\"op\":\"set\",\"t\":0}\n{\"h\":1,\"id\":6,\"op\":\"try_unwrap\",\"t\":0}\n",
    "{\"from\":2,\"id\":4,\"op\":\"downgrade\",\"t\":0,\"to\":3}\n{\"from\":3,\"h\":1,\"i\":0,\"id\":5,\"op\":\"set\",\"t\":0}\n{\"h\":1,\"id\":6,\"op\":\"try_unwrap\",\"t\":0}\n",
    "{\"h\":2,\"id\":4,\"op\":\"try_unwrap\",\"t\":0}\n",
    "{\"h\":1,\"id\":4,\"op\":\"try_unwrap\",\"t\":0}\n",
    // a cell
    "{\"id\":4,\"op\":\"null\",\"t\":0,\"to\":3}\n{\"c\":3,\"from\":3,\"id\":5,\"op\":\"cell_new\",\"t\":0}\n",
    "{\"id\":4,\"op\":\"null\",\"t\":0,\"to\":3}\n{\"c\":4,\"from\":3,\"id\":5,\"op\":\"cell_new\",\"t\":0}\n",
    "{\"from\":2,\"id\":4,\"op\":\"clone\",\"t\":0,\"to\":3}\n{\"c\":3,\"from\":3,\"id\":5,\"op\":\"cell_new\",\"t\":0}\n",
    // a field
    "{\"from\":2,\"id\":4,\"op\":\"clone\",\"t\":0,\"to\":3}\n{\"from\":3,\"h\":1,\"i\":0,\"id\":5,\"op\":\"set\",\"t\":0}\n",
    "{\"from\":2,\"id\":4,\"op\":\"downgrade\",\"t\":0,\"to\":3}\n{\"from\":3,\"h\":1,\"i\":0,\"id\":5,\"op\":\"set\",\"t\":0}\n",
    // an object: how many fields it has, and in which order
    "{\"id\":4,\"op\":\"null\",\"t\":0,\"to\":3}\n{\"fields\":[3],\"id\":5,\"op\":\"new\",\"t\":0,\"to\":4}\n",
    "{\"fields\":[],\"id\":5,\"op\":\"new\",\"t\":0,\"to\":4}\n",
    "{\"id\":4,\"op\":\"null\",\"t\":0,\"to\":3}\n{\"id\":6,\"op\":\"weak_new\",\"t\":0,\"to\":4}\n{\"fields\":[3,4],\"id\":5,\"op\":\"new\",\"t\":0,\"to\":5}\n",
    "{\"id\":4,\"op\":\"null\",\"t\":0,\"to\":3}\n{\"id\":6,\"op\":\"weak_new\",\"t\":0,\"to\":4}\n{\"fields\":[4,3],\"id\":5,\"op\":\"new\",\"t\":0,\"to\":5}\n",
];

fn after(alloc: Global, lines: &str) -> Result<Heap, Fail> {
    heap_of(alloc, &[START, lines], 1, 0)
}

// The heap after other lines is another one, with another sum.
fn assert_other(rt: &impl Abort, alloc: Global, heap: &Heap, others: &str) -> Result<(), Fail> {
    let other = after(alloc, others)?;
    assert!(rt; !heap.same(&other));
    assert!(rt; heap.sum() != other.sum());
    Ok(())
}

// So it is with each of the ways from this place on.
fn assert_others(rt: &impl Abort, alloc: Global, heap: &Heap, from: usize) -> Result<(), Fail> {
    for others in WAYS.iter().skip(from) {
        assert_other(rt, alloc, heap, others)?;
    }
    Ok(())
}

#[test]
fn other_heaps_have_other_sums(rt: HostRuntime) -> Result<(), Fail> {
    let alloc = rt.alloc();
    for (place, lines) in WAYS.iter().enumerate() {
        let heap = after(alloc, lines)?;
        assert_others(&rt, alloc, &heap, place + 1)?;
    }
    Ok(())
}

// What each way made is undone by other operations, or made again in another order.
const SAME: [(&str, &str); 13] = [
    (
        "",
        "{\"from\":1,\"id\":4,\"op\":\"clone\",\"t\":3,\"to\":3}\n{\"h\":3,\"id\":5,\"op\":\"drop\",\"t\":0}\n",
    ),
    (
        "",
        "{\"id\":4,\"op\":\"null\",\"t\":0,\"to\":3}\n{\"c\":3,\"from\":3,\"id\":5,\"op\":\"cell_new\",\"t\":0}\n{\"c\":3,\"id\":6,\"op\":\"cell_drop\",\"t\":0}\n",
    ),
    (
        "",
        "{\"fields\":[],\"id\":4,\"op\":\"new\",\"t\":7,\"to\":3}\n{\"from\":3,\"id\":5,\"op\":\"downgrade\",\"t\":7,\"to\":4}\n{\"id\":6,\"op\":\"scope_end\",\"t\":7}\n",
    ),
    (
        "{\"id\":4,\"op\":\"null\",\"t\":1,\"to\":3}\n{\"id\":5,\"op\":\"null\",\"t\":2,\"to\":4}\n",
        "{\"id\":5,\"op\":\"null\",\"t\":2,\"to\":4}\n{\"id\":4,\"op\":\"null\",\"t\":1,\"to\":3}\n",
    ),
    (
        "{\"from\":2,\"id\":4,\"op\":\"clone\",\"t\":0,\"to\":3}\n{\"from\":3,\"h\":1,\"i\":0,\"id\":5,\"op\":\"set\",\"t\":0}\n{\"h\":1,\"i\":0,\"id\":6,\"op\":\"take\",\"t\":0,\"to\":4}\n",
        "{\"from\":2,\"id\":4,\"op\":\"clone\",\"t\":0,\"to\":4}\n",
    ),
    (
        "{\"h\":2,\"id\":4,\"op\":\"drop\",\"t\":0}\n",
        "{\"h\":2,\"id\":4,\"op\":\"try_unwrap\",\"t\":0}\n{\"h\":2,\"id\":5,\"op\":\"drop\",\"t\":0}\n",
    ),
    // a handle leaves its scope from the middle, from its beginning, and beside one that left, and enters another again
    (
        "{\"id\":4,\"op\":\"null\",\"t\":0,\"to\":4}\n",
        "{\"id\":4,\"op\":\"null\",\"t\":0,\"to\":3}\n{\"id\":5,\"op\":\"null\",\"t\":0,\"to\":4}\n{\"h\":3,\"id\":6,\"op\":\"drop\",\"t\":0}\n",
    ),
    (
        "{\"id\":4,\"op\":\"null\",\"t\":1,\"to\":4}\n",
        "{\"id\":4,\"op\":\"null\",\"t\":1,\"to\":3}\n{\"id\":5,\"op\":\"null\",\"t\":1,\"to\":4}\n{\"h\":3,\"id\":6,\"op\":\"drop\",\"t\":0}\n",
    ),
    (
        "{\"id\":4,\"op\":\"null\",\"t\":0,\"to\":5}\n{\"id\":5,\"op\":\"null\",\"t\":1,\"to\":3}\n",
        "{\"id\":4,\"op\":\"null\",\"t\":0,\"to\":3}\n{\"id\":5,\"op\":\"null\",\"t\":0,\"to\":4}\n{\"id\":6,\"op\":\"null\",\"t\":0,\"to\":5}\n{\"h\":4,\"id\":7,\"op\":\"drop\",\"t\":0}\n{\"h\":3,\"id\":8,\"op\":\"drop\",\"t\":0}\n{\"id\":9,\"op\":\"null\",\"t\":1,\"to\":3}\n",
    ),
    // a cell that is set again
    (
        "{\"id\":4,\"op\":\"null\",\"t\":0,\"to\":3}\n{\"c\":3,\"from\":3,\"id\":5,\"op\":\"cell_new\",\"t\":0}\n",
        "{\"from\":2,\"id\":4,\"op\":\"clone\",\"t\":0,\"to\":3}\n{\"c\":3,\"from\":3,\"id\":5,\"op\":\"cell_new\",\"t\":0}\n{\"id\":6,\"op\":\"null\",\"t\":0,\"to\":3}\n{\"c\":3,\"from\":3,\"id\":7,\"op\":\"cell_swap\",\"t\":0}\n",
    ),
    // a husk that its last `Weak` frees
    (
        "",
        "{\"fields\":[],\"id\":4,\"op\":\"new\",\"t\":0,\"to\":3}\n{\"from\":3,\"id\":5,\"op\":\"downgrade\",\"t\":0,\"to\":4}\n{\"h\":3,\"id\":6,\"op\":\"drop\",\"t\":0}\n{\"h\":4,\"id\":7,\"op\":\"drop\",\"t\":0}\n",
    ),
    // a husk that stays, of a value that was dropped, or moved out
    (
        "{\"from\":2,\"id\":4,\"op\":\"downgrade\",\"t\":0,\"to\":4}\n{\"h\":2,\"id\":5,\"op\":\"drop\",\"t\":0}\n",
        "{\"from\":2,\"id\":4,\"op\":\"downgrade\",\"t\":0,\"to\":4}\n{\"h\":2,\"id\":5,\"op\":\"try_unwrap\",\"t\":0}\n{\"h\":2,\"id\":6,\"op\":\"drop\",\"t\":0}\n",
    ),
    // a second field that an object is made with, or that is set
    (
        "{\"id\":4,\"op\":\"null\",\"t\":0,\"to\":3}\n{\"from\":2,\"id\":5,\"op\":\"clone\",\"t\":0,\"to\":5}\n{\"fields\":[3,5],\"id\":6,\"op\":\"new\",\"t\":0,\"to\":4}\n",
        "{\"id\":4,\"op\":\"null\",\"t\":0,\"to\":3}\n{\"id\":5,\"op\":\"null\",\"t\":0,\"to\":5}\n{\"fields\":[3,5],\"id\":6,\"op\":\"new\",\"t\":0,\"to\":4}\n{\"from\":2,\"id\":7,\"op\":\"clone\",\"t\":0,\"to\":3}\n{\"from\":3,\"h\":4,\"i\":1,\"id\":8,\"op\":\"set\",\"t\":0}\n",
    ),
];

// The heap after other lines is the same one, with the same sum.
fn assert_same(rt: &impl Abort, alloc: Global, heap: &Heap, others: &str) -> Result<(), Fail> {
    let other = after(alloc, others)?;
    assert!(rt; heap.same(&other));
    assert_eq!(rt; heap.sum(), other.sum());
    Ok(())
}

#[test]
fn equal_heaps_have_equal_sums(rt: HostRuntime) -> Result<(), Fail> {
    let alloc = rt.alloc();
    for (lines, others) in SAME.iter() {
        let heap = after(alloc, lines)?;
        assert_same(&rt, alloc, &heap, others)?;
    }
    Ok(())
}
