//! What operations touch, as it is told beside what they do, or named by them and their outcomes.
use heap_difference::add_all;
use object_heap::Heap;
use op_step::{Meter, step_told};
use ownership_model::Key;
use std::alloc::Global;
use std::process::Abort;
use std::test::Fail;
use trace_reader::read_trace;
use trace_types::ops::Op;
use trace_types::trace::Trace;

fn trace_of(alloc: Global, lines: &str) -> Result<Trace, Fail> {
    read_trace(alloc, lines.as_bytes()).map_err(|_| Fail::from("a fault"))
}

fn has_each(keys: &[Key], wanted: &[Key]) -> bool {
    wanted.iter().all(|key| keys.contains(key))
}

// The keys that an operation tells or names as it is carried out, in whatever order, and perhaps more than once.
fn touched(alloc: Global, heap: &mut Heap, op: &Op) -> Result<Vec<Key>, Fail> {
    if heap.object(op.id()).is_some() {
        return Err(Fail::from("a number that is taken"));
    }
    let mut told = Vec::new(alloc);
    let outcome = step_told(alloc, heap, op, &mut Meter::new(), &mut told)?;
    let ops = vec![in alloc; op.clone()?]?;
    let outcomes = vec![in alloc; outcome]?;
    let mut all = Vec::new(alloc);
    add_all(
        told.as_slice(),
        ops.as_slice(),
        outcomes.as_slice(),
        &mut all,
    )?;
    Ok(all)
}

// These are all keys that are wanted, and no others.
fn are_all(all: &[Key], wanted: &[Key]) -> bool {
    has_each(all, wanted) && has_each(wanted, all)
}

// Each operation tells or names these keys, and no others: its own number only where it makes an object. In what order, and how often, is
// left open.
fn assert_touched(
    rt: &impl Abort,
    alloc: Global,
    lines: &str,
    wanted: &[&[Key]],
) -> Result<(), Fail> {
    let trace = trace_of(alloc, lines)?;
    assert_eq!(rt; trace.len(), wanted.len());
    let mut heap = Heap::empty();
    for (op, wanted) in trace.as_slice().iter().zip(wanted) {
        let all = touched(alloc, &mut heap, op)?;
        assert!(rt; are_all(all.as_slice(), wanted));
    }
    Ok(())
}

const DROPS: &str = "\
{\"fields\":[],\"id\":1,\"op\":\"new\",\"t\":0,\"to\":0}
{\"fields\":[0],\"id\":2,\"op\":\"new\",\"t\":0,\"to\":1}
{\"from\":1,\"id\":3,\"op\":\"downgrade\",\"t\":0,\"to\":2}
{\"h\":1,\"id\":4,\"op\":\"drop\",\"t\":0}
{\"h\":7,\"id\":5,\"op\":\"drop\",\"t\":0}
{\"from\":2,\"id\":6,\"op\":\"upgrade\",\"t\":0,\"to\":3}
";

#[test]
fn drops_touch_all_that_falls(rt: HostRuntime) -> Result<(), Fail> {
    let wanted: [&[Key]; 6] = [
        &[Key::Handle(0), Key::Object(1)],
        &[
            Key::Handle(0),
            Key::Handle(1),
            Key::Object(1),
            Key::Object(2),
        ],
        &[Key::Handle(1), Key::Handle(2), Key::Object(2)],
        &[Key::Handle(1), Key::Object(1), Key::Object(2)],
        &[Key::Handle(7)],
        &[Key::Handle(2), Key::Handle(3), Key::Object(2)],
    ];
    assert_touched(&rt, rt.alloc(), DROPS, &wanted)
}

const CELLS: &str = "\
{\"fields\":[],\"id\":1,\"op\":\"new\",\"t\":0,\"to\":0}
{\"c\":5,\"from\":0,\"id\":2,\"op\":\"cell_new\",\"t\":0}
{\"c\":5,\"id\":3,\"op\":\"cell_load\",\"t\":0,\"to\":1}
{\"id\":4,\"op\":\"null\",\"t\":0,\"to\":2}
{\"c\":5,\"desired\":1,\"expected\":2,\"id\":5,\"op\":\"cell_cas\",\"t\":0}
{\"c\":5,\"from\":2,\"id\":6,\"op\":\"cell_swap\",\"t\":0,\"to\":3}
{\"c\":5,\"id\":7,\"op\":\"cell_drop\",\"t\":0}
";

#[test]
fn cells_touch_what_they_hold(rt: HostRuntime) -> Result<(), Fail> {
    let wanted: [&[Key]; 7] = [
        &[Key::Handle(0), Key::Object(1)],
        &[Key::Handle(0), Key::Cell(5), Key::Object(1)],
        &[Key::Handle(1), Key::Cell(5), Key::Object(1)],
        &[Key::Handle(2)],
        &[Key::Handle(1), Key::Handle(2), Key::Cell(5), Key::Object(1)],
        &[Key::Handle(2), Key::Handle(3), Key::Cell(5), Key::Object(1)],
        &[Key::Cell(5), Key::Object(1)],
    ];
    assert_touched(&rt, rt.alloc(), CELLS, &wanted)
}

const SCOPES: &str = "\
{\"fields\":[],\"id\":1,\"op\":\"new\",\"t\":7,\"to\":0}
{\"from\":0,\"id\":2,\"op\":\"clone\",\"t\":8,\"to\":1}
{\"id\":3,\"op\":\"null\",\"t\":7,\"to\":2}
{\"id\":4,\"op\":\"scope_end\",\"t\":7}
{\"id\":5,\"op\":\"scope_end\",\"t\":8}
";

#[test]
fn ends_of_scopes_touch_their_lists(rt: HostRuntime) -> Result<(), Fail> {
    let wanted: [&[Key]; 5] = [
        &[Key::Handle(0), Key::Object(1)],
        &[Key::Handle(0), Key::Handle(1), Key::Object(1)],
        &[Key::Handle(2)],
        &[
            Key::Scope(7),
            Key::Handle(0),
            Key::Handle(2),
            Key::Object(1),
        ],
        &[Key::Scope(8), Key::Handle(1), Key::Object(1)],
    ];
    assert_touched(&rt, rt.alloc(), SCOPES, &wanted)
}

const FIELDS: &str = "\
{\"fields\":[null],\"id\":1,\"op\":\"new\",\"t\":0,\"to\":0}
{\"fields\":[],\"id\":2,\"op\":\"new\",\"t\":0,\"to\":1}
{\"from\":1,\"h\":0,\"i\":0,\"id\":3,\"op\":\"set\",\"t\":0}
{\"h\":0,\"id\":4,\"op\":\"make_mut\",\"t\":0}
{\"h\":0,\"id\":5,\"op\":\"try_unwrap\",\"t\":0}
{\"h\":0,\"i\":0,\"id\":6,\"op\":\"take\",\"t\":0,\"to\":3}
";

#[test]
fn fields_are_part_of_their_object(rt: HostRuntime) -> Result<(), Fail> {
    let wanted: [&[Key]; 6] = [
        &[Key::Handle(0), Key::Object(1)],
        &[Key::Handle(1), Key::Object(2)],
        &[
            Key::Handle(0),
            Key::Handle(1),
            Key::Object(1),
            Key::Object(2),
        ],
        &[Key::Handle(0), Key::Object(1)],
        &[Key::Handle(0), Key::Object(1), Key::Object(2)],
        &[Key::Handle(0), Key::Handle(3), Key::Object(2)],
    ];
    assert_touched(&rt, rt.alloc(), FIELDS, &wanted)
}
