//! One operation carried out on a heap.
ghost use Rattle.std.specs.Prelude.{◌≡◌, ◌++◌, [], None, IfOk, OnOk, OnErr, option_to_list};
ghost use Rattle.std.specs.FinMap.{get};
ghost use Rattle.ownership_model.specs.State.{nothing_held};
ghost use Rattle.ownership_model.specs.Bounds.{PlanFits};
ghost use Rattle.ownership_model.specs.Carry.{IsCarriable};
ghost use Rattle.ownership_model.specs.Alike.{Covers};
ghost use Rattle.ownership_model.specs.Step.{step, carried_out};
ghost use Rattle.ownership_model.specs.Step as Step;
ghost use Rattle.heap_difference.specs.Naming.{op_keys, outcome_keys};
ghost use Rattle.op_step.specs.Meter.{raised};
ghost use Rattle.op_step.specs.Told.{step_keys, carried_keys};

use crate::meter::Meter;
use crate::room::Room;
use crate::rows::plan_in;
use crate::told::{tell_object, tell_unnamed, untell_object};
use object_heap::Heap;
use ownership_model::{Key, Plan};
use std::alloc::{AllocError, Global};
use trace_types::ops::Op;
use trace_types::outcomes::{Counts, Event, Outcome, Reason, Verdict};
use trace_types::sequence::Sequence;

/// Carries out one operation, whose number no object has: the heap afterwards, and what the operation did.
///
/// An operation that can't be done is skipped, and its outcome tells why. The meter is raised by one.
pub fn step(
    alloc: Global,
    heap: &Heap,
    op: &Op,
    meter: &mut Meter,
) -> Result<(Heap, Outcome), AllocError>
    requires { get heap.now.objects op.now.id ≡ None }
    ensures state { IfOk result (λ r. r.0 ≡ (step heap.now op.now).state) }
    ensures outcome { IfOk result (λ r. r.1 ≡ (step heap.now op.now).outcome) }
    ensures counted { OnOk result (meter.new ≡ raised meter.old 1) }
    ensures uncounted { OnErr result (meter.new ≡ meter.old) }
{
    let mut next = heap.share()?;
    let outcome = step_in_place(alloc, &mut next, op, meter)?;
    Ok((next, outcome))
}

/// As `step`, in place. Where memory runs out nothing is held any more.
pub fn step_in_place(
    alloc: Global,
    heap: &mut Heap,
    op: &Op,
    meter: &mut Meter,
) -> Result<Outcome, AllocError>
    requires { get heap.old.objects op.now.id ≡ None }
    ensures state { OnOk result (heap.new ≡ (step heap.old op.now).state) }
    ensures outcome { IfOk result (λ r. r ≡ (step heap.old op.now).outcome) }
    ensures err { OnErr result (heap.new ≡ nothing_held) }
    ensures counted { OnOk result (meter.new ≡ raised meter.old 1) }
    ensures uncounted { OnErr result (meter.new ≡ meter.old) }
{
    let mut room = Room::new(alloc);
    step_in(&mut room, heap, op, meter)
}

/// As `step_in_place`, with what it takes memory for on the way in a room.
pub fn step_in(
    room: &mut Room,
    heap: &mut Heap,
    op: &Op,
    meter: &mut Meter,
) -> Result<Outcome, AllocError>
    requires { get heap.old.objects op.now.id ≡ None }
    ensures state { OnOk result (heap.new ≡ (step heap.old op.now).state) }
    ensures outcome { IfOk result (λ r. r ≡ (step heap.old op.now).outcome) }
    ensures err { OnErr result (heap.new ≡ nothing_held) }
    ensures counted { OnOk result (meter.new ≡ raised meter.old 1) }
    ensures uncounted { OnErr result (meter.new ≡ meter.old) }
{
    match carried(room, heap, op) {
        Ok(outcome) => {
            meter.raise();
            Ok(outcome)
        }
        Err(error) => {
            let_go(heap);
            Err(error)
        }
    }
}

/// As `step_in_place`, and tells what the operation touches, and what it moves or copies beside. Keys that are told already stay, but for
/// what the operation or its outcome names.
///
/// That it may leave out: by `op_keys` and `outcome_keys` a caller has it anyway. It may tell more than that, and the same key more than
/// once. Where memory runs out the keys are unspecified.
pub fn step_told(
    alloc: Global,
    heap: &mut Heap,
    op: &Op,
    meter: &mut Meter,
    keys: &mut Vec<Key>,
) -> Result<Outcome, AllocError>
    requires { get heap.old.objects op.now.id ≡ None }
    ensures state { OnOk result (heap.new ≡ (step heap.old op.now).state) }
    ensures outcome { IfOk result (λ r. r ≡ (step heap.old op.now).outcome) }
    ensures told { IfOk result (λ r. Covers (keys.new.items ++ (op_keys op.now ++ outcome_keys r))
        (keys.old.items ++ step_keys heap.old op.now)) }
    ensures err { OnErr result (heap.new ≡ nothing_held) }

    // The meter counts what was carried out.
    ensures counted { OnOk result (meter.new ≡ raised meter.old 1) }
    ensures uncounted { OnErr result (meter.new ≡ meter.old) }
{
    let mut room = Room::new(alloc);
    step_told_in(&mut room, heap, op, meter, keys)
}

/// As `step_told`, with what it takes memory for on the way in a room.
pub fn step_told_in(
    room: &mut Room,
    heap: &mut Heap,
    op: &Op,
    meter: &mut Meter,
    keys: &mut Vec<Key>,
) -> Result<Outcome, AllocError>
    requires { get heap.old.objects op.now.id ≡ None }
    ensures state { OnOk result (heap.new ≡ (step heap.old op.now).state) }
    ensures outcome { IfOk result (λ r. r ≡ (step heap.old op.now).outcome) }
    ensures told { IfOk result (λ r. Covers (keys.new.items ++ (op_keys op.now ++ outcome_keys r))
        (keys.old.items ++ step_keys heap.old op.now)) }
    ensures err { OnErr result (heap.new ≡ nothing_held) }

    // The meter counts what was carried out.
    ensures counted { OnOk result (meter.new ≡ raised meter.old 1) }
    ensures uncounted { OnErr result (meter.new ≡ meter.old) }
{
    match carried_told(room, heap, op, keys) {
        Ok(outcome) => {
            meter.raise();
            Ok(outcome)
        }
        Err(error) => {
            let_go(heap);
            Err(error)
        }
    }
}

// As `carried`, and tells the keys.
fn carried_told(
    room: &mut Room,
    heap: &mut Heap,
    op: &Op,
    keys: &mut Vec<Key>,
) -> Result<Outcome, AllocError>
    requires { get heap.old.objects op.now.id ≡ None }
    ensures state { OnOk result (heap.new ≡ (step heap.old op.now).state) }
    ensures outcome { IfOk result (λ r. r ≡ (step heap.old op.now).outcome) }
    ensures told { IfOk result (λ r. Covers (keys.new.items ++ (op_keys op.now ++ outcome_keys r))
        (keys.old.items ++ step_keys heap.old op.now)) }
{
    let planned = plan_in(room, heap, op)?;
    tell_unnamed(heap, op.kind(), &planned, keys)?;
    heap.show_sound();
    let outcome = carry_out_told(room, heap, op.id(), planned, keys)?;
    Ok(outcome)
}

// As `carry_out`, and tells what the plan moves and drops. What the outcome names may be left out.
fn carry_out_told(
    room: &mut Room,
    heap: &mut Heap,
    id: u32,
    plan: Plan,
    keys: &mut Vec<Key>,
) -> Result<Outcome, AllocError>
    requires carriable { IsCarriable heap.old plan }
    requires fits { PlanFits plan }
    ensures state { OnOk result (heap.new ≡ (carried_out heap.old id plan).state) }
    ensures outcome { IfOk result (λ r. r ≡ (carried_out heap.old id plan).outcome) }
    ensures told { IfOk result (λ r. Covers (keys.new.items ++ outcome_keys r)
        (keys.old.items ++ carried_keys heap.old plan)) }
{
    match plan {
        Plan::Skip(reason) => Ok(skipped(room.alloc(), id, reason)),
        Plan::Act {
            answer,
            changes,
            event,
            pending,
            object,
        } => {
            let alloc = room.alloc();
            let work = room.work();
            tell_object(object, keys)?;
            let released = heap.release_told(
                alloc,
                work,
                changes.as_slice(),
                pending.as_slice(),
                keys,
            )?;
            untell_object(object, keys);
            room.give_back(changes.into_vec(), pending.into_vec());
            Ok(Outcome {
                id,
                verdict: Verdict::Did(answer),
                events: with_named(alloc, event, released)?,
                counts: counts_of(heap, object),
            })
        }
    }
}

// Plans an operation and carries it out. Where memory runs out it isn't told what the heap holds.
fn carried(room: &mut Room, heap: &mut Heap, op: &Op) -> Result<Outcome, AllocError>
    requires { get heap.old.objects op.now.id ≡ None }
    ensures state { OnOk result (heap.new ≡ (step heap.old op.now).state) }
    ensures outcome { IfOk result (λ r. r ≡ (step heap.old op.now).outcome) }
{
    let planned = plan_in(room, heap, op)?;
    heap.show_sound();
    let outcome = carry_out(room, heap, op.id(), planned)?;
    Ok(outcome)
}

// Not inlined, so that a step has no room for a second heap.
#[inline(never)]
fn let_go(heap: &mut Heap)
    ensures { heap.new ≡ nothing_held }
{
    *heap = Heap::empty();
}

fn carry_out(room: &mut Room, heap: &mut Heap, id: u32, plan: Plan) -> Result<Outcome, AllocError>
    requires carriable { IsCarriable heap.old plan }
    requires fits { PlanFits plan }
    ensures state { OnOk result (heap.new ≡ (carried_out heap.old id plan).state) }
    ensures outcome { IfOk result (λ r. r ≡ (carried_out heap.old id plan).outcome) }
{
    match plan {
        Plan::Skip(reason) => Ok(skipped(room.alloc(), id, reason)),
        Plan::Act {
            answer,
            changes,
            event,
            pending,
            object,
        } => {
            let alloc = room.alloc();
            let work = room.work();
            let released = heap.release_on(alloc, work, changes.as_slice(), pending.as_slice())?;
            room.give_back(changes.into_vec(), pending.into_vec());
            Ok(Outcome {
                id,
                verdict: Verdict::Did(answer),
                events: with_named(alloc, event, released)?,
                counts: counts_of(heap, object),
            })
        }
    }
}

fn skipped(alloc: Global, id: u32, reason: Reason) -> Outcome
    ensures { result ≡ record {
      id = id;
      verdict = Verdict.Skipped reason;
      events = [];
      counts = None;
    } }
{
    Outcome {
        id,
        verdict: Verdict::Skipped(reason),
        events: Sequence::empty(alloc),
        counts: None,
    }
}

// The event that an operation names itself comes before those of what it drops.
#[inline(always)]
fn with_named(
    alloc: Global,
    event: Option<Event>,
    released: Sequence<Event>,
) -> Result<Sequence<Event>, AllocError>
    ensures { IfOk result (λ s. s ≡ option_to_list event ++ released) }
{
    let Some(event) = event else {
        return Ok(released);
    };
    let mut events = vec![in alloc; event]?;
    events.extend_from_slice(released.as_slice())?;
    Ok(Sequence::from_vec(events))
}

fn counts_of(heap: &Heap, object: Option<u32>) -> Option<Counts>
    ensures { result ≡ Step.counts_of heap.now object }
{
    match object {
        None => None,
        Some(object) => Some(heap.counts(object)),
    }
}
