//! Heaps that agree on what can be reached, what they have for themselves, and trails to differences.
use agreement::agree::agree;
use agreement::{Meeting, Path, Remains, Root, Trail, meet, patch, refutes};
use object_heap::Heap;
use op_step::Meter;
use op_step::replay::replay;
use ownership_model::Remaining;
use std::alloc::{AllocError, Global};
use std::process::Abort;
use std::test::Fail;
use trace_reader::read_trace;
use trace_types::kinds::Kind;
use trace_types::ops::Op;
use trace_types::sequence::Sequence;
use trace_types::slots::{Entry, Slot};
use trace_types::trace::Trace;

// Operations from one number to another that make an object and drop it again, by turns.
fn add_pairs(alloc: Global, trace: &mut Trace, from: u32, to: u32) -> Result<(), Fail> {
    let mut makes = true;
    for id in from..=to {
        let kind = if makes {
            let fields = Sequence::empty(alloc);
            Kind::New { to: 9, fields }
        } else {
            Kind::Drop { h: 9 }
        };
        let op = Op::make(id, 0, kind).map_err(|_| Fail::from("limits"))?;
        trace.push(op).map_err(|_| Fail::from("refused"))?;
        makes = !makes;
    }
    Ok(())
}

/// The trace of these lines.
pub fn read(alloc: Global, parts: &[&str]) -> Result<Trace, Fail> {
    let mut text = String::new(alloc);
    for part in parts {
        text.push_str(part)?;
    }
    read_trace(alloc, text.as_bytes()).map_err(|_| Fail::from("a fault"))
}

/// The heap that the replay of a trace ends with.
pub fn end_of(alloc: Global, trace: &Trace) -> Result<Heap, Fail> {
    let (_, end) = replay(alloc, trace, &mut Meter::new())?;
    Ok(end)
}

// The heap after these lines, and then after operations up to the last number that make an object and drop it again, by turns.
pub fn heap_of(alloc: Global, parts: &[&str], from: u32, to: u32) -> Result<Heap, Fail> {
    let mut trace = read(alloc, parts)?;
    add_pairs(alloc, &mut trace, from, to)?;
    end_of(alloc, &trace)
}

/// Lends two such heaps.
///
/// A heap is dear to a proof wherever a function that owns one can end: so tests are lent them.
pub fn with_heaps<F: FnOnce(&Heap, &Heap) -> Result<(), Fail>>(
    alloc: Global,
    new: &[&str],
    old: &[&str],
    from: u32,
    to: u32,
    judge: F,
) -> Result<(), Fail>
    requires { F.IsAlwaysCallable judge }
{
    let new = heap_of(alloc, new, from, to)?;
    let old = heap_of(alloc, old, from, to)?;
    judge(&new, &old)
}

fn is_apart(meeting: &Meeting) -> bool {
    matches!(meeting, Meeting::Apart)
}

// The old heap with the remains exchanged, where both agree.
fn made_new(alloc: Global, new: &Heap, old: &Heap) -> Result<Option<Heap>, AllocError> {
    match agree(alloc, new, old)? {
        None => Ok(None),
        Some(remains) => Ok(Some(patch(alloc, old, &remains)?)),
    }
}

// Two objects that hold each other.
pub const CYCLE: &str = "\
{\"fields\":[null],\"id\":1,\"op\":\"new\",\"t\":0,\"to\":0}
{\"fields\":[null],\"id\":2,\"op\":\"new\",\"t\":0,\"to\":1}
{\"from\":0,\"id\":3,\"op\":\"clone\",\"t\":0,\"to\":2}
{\"from\":1,\"id\":4,\"op\":\"clone\",\"t\":0,\"to\":3}
{\"from\":3,\"h\":0,\"i\":0,\"id\":5,\"op\":\"set\",\"t\":0}
{\"from\":2,\"h\":1,\"i\":0,\"id\":6,\"op\":\"set\",\"t\":0}
{\"id\":7,\"op\":\"null\",\"t\":0,\"to\":4}
";

// The first of them holds the second no more.
pub const BREAK: &str = "\
{\"from\":4,\"h\":0,\"i\":0,\"id\":8,\"op\":\"set\",\"t\":0}
";

pub const LET_GO: &str = "\
{\"h\":4,\"id\":9,\"op\":\"drop\",\"t\":0}
{\"h\":0,\"id\":10,\"op\":\"drop\",\"t\":0}
{\"h\":1,\"id\":11,\"op\":\"drop\",\"t\":0}
";

// An object that is named by the other, strongly and once.
fn is_held_by(remaining: Option<&Remaining>, other: u32) -> bool {
    match remaining {
        None => false,
        Some(remaining) => {
            let is_named_once = remaining.strong == 1 && remaining.weak == 0;
            match &remaining.entry {
                Entry::Husk => false,
                Entry::Alive(fields) => {
                    is_named_once && fields.as_slice() == [Slot::Strong(other)].as_slice()
                }
            }
        }
    }
}

/// The remains of two heaps that agree.
pub fn remains_of(alloc: Global, new: &Heap, old: &Heap) -> Result<Remains, Fail> {
    match agree(alloc, new, old)? {
        Some(remains) => Ok(remains),
        None => Err(Fail::from("they agree")),
    }
}

/// The cycle is what the remains add, and they take nothing out.
pub fn assert_cycle_is_added(rt: &impl Abort, remains: &Remains) {
    assert_eq!(rt; remains.removed().len(), 0);
    assert_eq!(rt; remains.added().len(), 2);
    assert!(rt; is_held_by(remains.added().get(1), 2));
    assert!(rt; is_held_by(remains.added().get(2), 1));
}

// The remains make the new heap of the old one.
fn assert_made_new(rt: &impl Abort, alloc: Global, new: &Heap, old: &Heap) -> Result<(), Fail> {
    let Some(made) = made_new(alloc, new, old)? else {
        return Err(Fail::from("they agree"));
    };
    assert!(rt; made.same(new));
    Ok(())
}

#[test]
fn leaked_cycle_remains(rt: HostRuntime) -> Result<(), Fail> {
    let alloc = rt.alloc();
    let new = [CYCLE, LET_GO];
    let old = [CYCLE, BREAK, LET_GO];
    with_heaps(alloc, &new, &old, 12, 64, |new, old| {
        assert!(rt; !new.same(old));
        assert_cycle_is_added(&rt, &remains_of(alloc, new, old)?);
        assert_made_new(&rt, alloc, new, old)
    })
}

// As the cycle above, but what leaks names an object that can be reached, weakly.
const NAMES: &str = "\
{\"fields\":[],\"id\":1,\"op\":\"new\",\"t\":0,\"to\":7}
{\"from\":7,\"id\":2,\"op\":\"downgrade\",\"t\":0,\"to\":8}
{\"fields\":[null,8],\"id\":3,\"op\":\"new\",\"t\":0,\"to\":0}
{\"fields\":[null],\"id\":4,\"op\":\"new\",\"t\":0,\"to\":1}
{\"from\":0,\"id\":5,\"op\":\"clone\",\"t\":0,\"to\":2}
{\"from\":1,\"id\":6,\"op\":\"clone\",\"t\":0,\"to\":3}
{\"from\":3,\"h\":0,\"i\":0,\"id\":7,\"op\":\"set\",\"t\":0}
{\"from\":2,\"h\":1,\"i\":0,\"id\":8,\"op\":\"set\",\"t\":0}
{\"id\":9,\"op\":\"null\",\"t\":0,\"to\":4}
";

const UNNAMES: &str = "\
{\"from\":4,\"h\":0,\"i\":0,\"id\":10,\"op\":\"set\",\"t\":0}
";

const LET_THEM_GO: &str = "\
{\"h\":4,\"id\":11,\"op\":\"drop\",\"t\":0}
{\"h\":0,\"id\":12,\"op\":\"drop\",\"t\":0}
{\"h\":1,\"id\":13,\"op\":\"drop\",\"t\":0}
";

// The heaps have the same roots and don't agree.
fn assert_only_roots_agree(
    rt: &impl Abort,
    alloc: Global,
    new: &Heap,
    old: &Heap,
) -> Result<(), Fail> {
    assert!(rt; new.same_roots(old));
    assert!(rt; agree(alloc, new, old)?.is_none());
    Ok(())
}

// The trail that a comparison of two heaps that don't agree leaves.
fn trail_to(rt: &impl Abort, alloc: Global, new: &Heap, old: &Heap) -> Result<Trail, Fail> {
    let mut seen = None;
    assert!(rt; is_apart(&meet(alloc, new, old, &mut seen)?));
    match seen {
        Some(trail) => Ok(trail),
        None => Err(Fail::from("a trail")),
    }
}

// The trail tells the heaps apart, and the old one not from itself.
fn assert_trail(rt: &impl Abort, alloc: Global, new: &Heap, old: &Heap) -> Result<(), Fail> {
    let trail = trail_to(rt, alloc, new, old)?;
    assert!(rt; refutes(&trail, new, old));
    assert!(rt; !refutes(&trail, old, old));
    Ok(())
}

// By its count alone a reached object differs, and the trail to it is found.
#[test]
fn counts_of_reached_objects_differ(rt: HostRuntime) -> Result<(), Fail> {
    let alloc = rt.alloc();
    let new = [NAMES, LET_THEM_GO];
    let old = [NAMES, UNNAMES, LET_THEM_GO];
    with_heaps(alloc, &new, &old, 14, 64, |new, old| {
        assert_eq!(rt; old.weak(1), 0);
        assert_eq!(rt; new.weak(1), 1);
        assert_only_roots_agree(&rt, alloc, new, old)?;
        assert_trail(&rt, alloc, new, old)
    })
}

const HUSK: &str = "\
{\"fields\":[null],\"id\":1,\"op\":\"new\",\"t\":0,\"to\":0}
{\"from\":0,\"id\":2,\"op\":\"downgrade\",\"t\":0,\"to\":5}
{\"from\":0,\"id\":3,\"op\":\"clone\",\"t\":0,\"to\":1}
{\"from\":1,\"h\":0,\"i\":0,\"id\":4,\"op\":\"set\",\"t\":0}
";

const TAKE: &str = "\
{\"h\":0,\"i\":0,\"id\":5,\"op\":\"take\",\"t\":0,\"to\":2}
";

const LET_IT_GO: &str = "\
{\"h\":2,\"id\":6,\"op\":\"drop\",\"t\":0}
{\"h\":0,\"id\":7,\"op\":\"drop\",\"t\":0}
";

// The way to the object that the Weak leads to.
fn way_to_husk(alloc: Global) -> Trail {
    Trail::Path(Path {
        root: Root::Handle(5),
        first: 1,
        rest: Vec::new(alloc),
    })
}

// A Weak leads to the object, which is a husk in one heap and holds itself in the other.
#[test]
fn husk_is_not_alive(rt: HostRuntime) -> Result<(), Fail> {
    let alloc = rt.alloc();
    let new = [HUSK, LET_IT_GO];
    let old = [HUSK, TAKE, LET_IT_GO];
    with_heaps(alloc, &new, &old, 8, 64, |new, old| {
        assert_only_roots_agree(&rt, alloc, new, old)?;
        let trail = way_to_husk(alloc);
        assert!(rt; refutes(&trail, new, old));
        assert!(rt; !refutes(&trail, new, new));
        Ok(())
    })
}

// The trail, and the place of the newest handle, tell the heaps apart; what the handle holds does not.
fn assert_labels_differ(
    rt: &impl Abort,
    alloc: Global,
    new: &Heap,
    old: &Heap,
) -> Result<(), Fail> {
    let trail = trail_to(rt, alloc, new, old)?;
    assert!(rt; refutes(&trail, new, old));
    assert!(rt; refutes(&Trail::Last(0), new, old));
    assert!(rt; !refutes(&Trail::Handle(0), new, old));
    Ok(())
}

// The label of a handle is part of what agrees.
#[test]
fn labels_differ(rt: HostRuntime) -> Result<(), Fail> {
    let alloc = rt.alloc();
    let new = ["{\"id\":1,\"op\":\"null\",\"t\":1,\"to\":0}\n"];
    let old = ["{\"id\":1,\"op\":\"null\",\"t\":0,\"to\":0}\n"];
    with_heaps(alloc, &new, &old, 2, 65, |new, old| {
        assert!(rt; agree(alloc, new, old)?.is_none());
        assert_labels_differ(&rt, alloc, new, old)
    })
}
