//! Operations carried out in order.
ghost use Rattle.std.specs.Prelude.{◌≡◌, ◌≤◌, ◌+◌, ◌++◌, IfOk, OnOk, length};
ghost use Rattle.ownership_model.specs.State.{nothing_held};
ghost use Rattle.ownership_model.specs.Step.{AreNew, outcomes_from, end_from};
ghost use Rattle.ownership_model.specs.Alike.{Covers};
ghost use Rattle.heap_difference.specs.Naming.{with_names};
ghost use Rattle.op_step.specs.Meter.{raised};
ghost use Rattle.op_step.specs.Told.{replay_keys};

use crate::carry::{step_in, step_told_in};
use crate::meter::Meter;
use crate::room::Room;
use object_heap::Heap;
use ownership_model::Key;
use std::alloc::{AllocError, Global};
use trace_types::ops::Op;
use trace_types::outcomes::Outcome;
use trace_types::sequence::Sequence;
use trace_types::trace::Trace;

/// Replays a whole trace, of a program that holds nothing as it begins: the outcomes in order, and the heap in the end.
///
/// The meter is raised by the number of operations, and where memory runs out by at most that.
pub fn replay(
    alloc: Global,
    trace: &Trace,
    meter: &mut Meter,
) -> Result<(Sequence<Outcome>, Heap), AllocError>
    ensures outcomes { IfOk result (λ r. r.0 ≡ outcomes_from nothing_held trace.now) }
    ensures end { IfOk result (λ r. r.1 ≡ end_from nothing_held trace.now) }
    ensures counted { OnOk result (meter.new ≡ raised meter.old (length trace.now)) }
    ensures never_less { meter.old ≤ meter.new }
    ensures never_more { meter.new ≤ meter.old + length trace.now }
{
    replay_from(alloc, Heap::empty(), trace.as_slice(), meter)
}

/// As `replay`, from a heap, which it takes: what it alone holds is changed in place. No object has an operation's number
/// when its turn comes.
pub fn replay_from(
    alloc: Global,
    start: Heap,
    ops: &[Op],
    meter: &mut Meter,
) -> Result<(Sequence<Outcome>, Heap), AllocError>
    requires { AreNew start ops.now }
    ensures outcomes { IfOk result (λ r. r.0 ≡ outcomes_from start ops.now) }
    ensures end { IfOk result (λ r. r.1 ≡ end_from start ops.now) }
    ensures counted { OnOk result (meter.new ≡ raised meter.old (length ops.now)) }
    ensures never_less { meter.old ≤ meter.new }
    ensures never_more { meter.new ≤ meter.old + length ops.now }
{
    let mut outcomes = Vec::with_capacity(alloc, ops.len())?;
    let mut heap = start;
    let mut room = Room::new(alloc);
    for op in ops {
        outcomes.push(step_in(&mut room, &mut heap, op, meter)?)?;
    }
    Ok((Sequence::from_vec(outcomes), heap))
}

/// As `replay_from`, and tells what the operations touch, and what they move or copy beside. Keys that are told already stay, but for what
/// the operations or their outcomes name.
///
/// That it may leave out: `with_names` adds it. It may tell more than that, and the same key more than
/// once. Where memory runs out the keys are unspecified.
pub fn replay_told(
    alloc: Global,
    start: Heap,
    ops: &[Op],
    meter: &mut Meter,
    keys: &mut Vec<Key>,
) -> Result<(Sequence<Outcome>, Heap), AllocError>
    requires { AreNew start ops.now }
    ensures outcomes { IfOk result (λ r. r.0 ≡ outcomes_from start ops.now) }
    ensures end { IfOk result (λ r. r.1 ≡ end_from start ops.now) }
    ensures told { IfOk result (λ r. Covers (with_names keys.new.items ops.now r.0)
        (keys.old.items ++ replay_keys start ops.now)) }

    // The meter counts what was carried out.
    ensures counted { OnOk result (meter.new ≡ raised meter.old (length ops.now)) }
    ensures never_less { meter.old ≤ meter.new }
    ensures never_more { meter.new ≤ meter.old + length ops.now }
{
    let mut outcomes = Vec::with_capacity(alloc, ops.len())?;
    let mut heap = start;
    let mut room = Room::new(alloc);
    for op in ops {
        outcomes.push(step_told_in(&mut room, &mut heap, op, meter, keys)?)?;
    }
    Ok((Sequence::from_vec(outcomes), heap))
}
