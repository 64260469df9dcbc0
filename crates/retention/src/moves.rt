//! What an operation moved: the strong slots that objects lost by it, and the marks that it leaves on objects.
ghost use Rattle.std.specs.Prelude.{◌≡◌, ◌++◌, flat_map, map, IfOk, OnOk, IsSortedBy};
ghost use Rattle.retention_model.specs.Places.{stands_before};
ghost use Rattle.retention_model.specs.Turns as turns;
ghost use Rattle.retention_model.specs.Turns.{moved_if, at_place, is_weak_slot, if_named, lost_mark, gained_mark, ended_mark, marks_by};
ghost use Rattle.retention_model.specs.declared.place.Place.{Place};
ghost use Rattle.leak_report.specs.Lives.{numbered};
ghost use Rattle.retention.specs.Lists.{loss_of};

use crate::lifelines::object_of;
use crate::redated::is_same;
use object_heap::Heap;
use retention_model::{Mark, Marked, Moved, Place};
use std::alloc::AllocError;
use trace_types::outcomes::{Counts, Event};
use trace_types::slots::Slot;

/// That a place no longer holds a strong slot of an object, by this operation.
#[derive(Clone, Copy, Debug)]
pub struct Loss {
    pub object: u32,
    pub id: u32,
}

/// Notes that a place held the one slot before an operation, and holds the other after it.
pub fn note(
    moved: &mut Vec<Moved>,
    place: Place,
    before: Slot,
    after: Slot,
) -> Result<(), AllocError>
    ensures { OnOk result (moved.new.items ≡ moved.old.items ++ moved_if place before after) }
{
    if !is_same(before, after) {
        moved.push(Moved {
            place,
            before,
            after,
        })?;
    }
    Ok(())
}

/// Puts what moved in the order of places.
pub fn sort_moved(moved: &mut Vec<Moved>) -> Result<(), AllocError>
    ensures each { OnOk result
        ((p : Place) → at_place p moved.new.items ≡ at_place p moved.old.items) }
    ensures in_order { OnOk result
        (IsSortedBy (λ x y. stands_before x.place y.place) moved.new.items) }
{
    moved.sort_by_key(|one: &Moved| one.place.order())
}

/// Adds the strong slots that were lost.
pub fn push_losses(losses: &mut Vec<Loss>, moved: &[Moved], id: u32) -> Result<(), AllocError>
    ensures { OnOk result (losses.new.items ≡ losses.old.items ++ flat_map (loss_of id) moved.now) }
{
    for one in moved {
        if let Slot::Strong(object) = one.before {
            losses.push(Loss { object, id })?;
        }
    }
    Ok(())
}

/// Adds the events of an operation, each with the operation's number.
pub fn push_events(all: &mut Vec<(u32, Event)>, id: u32, events: &[Event]) -> Result<(), AllocError>
    ensures { OnOk result (all.new.items ≡ all.old.items ++ numbered id events.now) }
{
    for event in events {
        all.push((id, *event))?;
    }
    Ok(())
}

/// Adds the marks of an operation that left this heap and stands at this position: what was lost, what was gained, and what ended.
pub fn push_marks(
    marked: &mut Vec<Marked>,
    heap: &Heap,
    position: usize,
    moved: &[Moved],
    events: &[Event],
) -> Result<(), AllocError>
    ensures { OnOk result
        (marked.new.items ≡ marked.old.items ++ marks_by position heap.now moved.now events.now) }
{
    push_lost(marked, heap, position, moved)?;
    push_gained(marked, heap, position, moved)?;
    push_ended(marked, heap, position, events)
}

fn push_lost(
    marked: &mut Vec<Marked>,
    heap: &Heap,
    position: usize,
    moved: &[Moved],
) -> Result<(), AllocError>
    ensures { OnOk result
        (marked.new.items ≡ marked.old.items ++ flat_map (lost_mark position heap.now) moved.now) }
{
    for one in moved {
        let mark = Mark::Lost(one.place, is_weak(one.before));
        push_named(marked, heap, position, one.before, mark)?;
    }
    Ok(())
}

fn push_gained(
    marked: &mut Vec<Marked>,
    heap: &Heap,
    position: usize,
    moved: &[Moved],
) -> Result<(), AllocError>
    ensures { OnOk result
        (marked.new.items ≡ marked.old.items
        ++ flat_map (gained_mark position heap.now) moved.now) }
{
    for one in moved {
        let mark = Mark::Gained(one.place, is_weak(one.after));
        push_named(marked, heap, position, one.after, mark)?;
    }
    Ok(())
}

fn push_ended(
    marked: &mut Vec<Marked>,
    heap: &Heap,
    position: usize,
    events: &[Event],
) -> Result<(), AllocError>
    ensures { OnOk result
        (marked.new.items ≡ marked.old.items ++ map (ended_mark position heap.now) events.now) }
{
    for event in events {
        marked.push(ended_by(heap, position, *event))?;
    }
    Ok(())
}

fn ended_by(heap: &Heap, position: usize, event: Event) -> Marked
    ensures { result ≡ ended_mark position heap.now event }
{
    marked_by(heap, position, object_of(event), Mark::Ended(event))
}

// Adds the mark of the object that a slot names, where it names one.
fn push_named(
    marked: &mut Vec<Marked>,
    heap: &Heap,
    position: usize,
    slot: Slot,
    mark: Mark,
) -> Result<(), AllocError>
    ensures { OnOk result
        (marked.new.items ≡ marked.old.items
        ++ if_named slot (turns.marked position heap.now mark)) }
{
    match slot {
        Slot::Strong(object) | Slot::Weak(object) => {
            marked.push(marked_by(heap, position, object, mark))?;
            Ok(())
        }
        Slot::Nothing | Slot::Dangling => Ok(()),
    }
}

fn marked_by(heap: &Heap, position: usize, object: u32, mark: Mark) -> Marked
    ensures { result ≡ turns.marked position heap.now mark object }
{
    let Counts { strong, weak, .. } = heap.counts(object);
    Marked {
        object,
        position,
        strong,
        weak,
        mark,
    }
}

/// Whether it keeps no more than the allocation.
pub fn is_weak(slot: Slot) -> bool
    ensures { result ≡ is_weak_slot slot }
{
    match slot {
        Slot::Weak(_) | Slot::Dangling => true,
        Slot::Nothing | Slot::Strong(_) => false,
    }
}
