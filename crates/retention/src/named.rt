//! The objects at the end of a replay, and the places that name them.
ghost use Rattle.std.specs.Prelude.{ℕ, ◌≡◌, ◌+◌, ◌<◌, ◌++◌, length, map, take, slice_index, IfOk, OnOk};
ghost use Rattle.std.specs.Option.{option_copied};
ghost use Rattle.std.specs.FinMap.{get};
ghost use Rattle.ownership_model.specs.State.{State};
ghost use Rattle.ownership_model.specs.State as definition;
ghost use Rattle.retention_model.specs.declared.place.Place.{Place};
ghost use Rattle.retention.specs.Layout.{AreStarts, AreListed, AreListed-prop};
ghost use Rattle.retention.specs.HeldPlaces.{held_among, root_places_of, field_places_of};
ghost use Rattle.retention.specs.Dates.{Tell};

use crate::dates::Dates;
use object_heap::Heap;
use retention_model::Held;
use std::alloc::{AllocError, Global};
use trace_types::slots::Entry;

/// The objects at the end, and each place that names one with what it holds. A graph is laid out from this alone.
#[derive(Drop)]
pub struct Named {
    pub objects: Vec<u32>,
    // Whether the value of each lives.
    pub alive: Vec<bool>,
    // The places of handles and cells, and then, object by object, those of fields.
    pub held: Vec<Held>,
    // Where the fields of each object begin; the last entry stands behind those of the last one.
    pub starts: Vec<usize>,
    ghost listed: { AreListed objects.items alive.items (length held.items) starts.items } by { AreListed-prop
        objects.items alive.items (length held.items) starts.items },
}

impl Named {
    ghost use Rattle.retention.specs.Named.{IsNamedOf};

    /// What a heap names, of which these are the dates. Both may be let go then.
    pub fn of(alloc: Global, heap: &Heap, dates: &Dates) -> Result<Named, AllocError>
        requires { (since : Place → ℕ) × Tell dates.now heap.now since }
        ensures { IfOk result (λ n. (since : Place → ℕ) → Tell dates.now heap.now since →
            IsNamedOf heap.now since n) }
    {
        let objects = heap.objects(alloc)?;
        let alive = which_live(alloc, heap, &objects)?;
        let mut held = held_roots(alloc, heap, dates)?;
        let starts = push_all_fields(alloc, dates, &objects, &mut held)?;
        Ok(Named {
            objects,
            alive,
            held,
            starts,
        })
    }
}

// Whether the value of each object lives.
fn which_live(alloc: Global, heap: &Heap, objects: &[u32]) -> Result<Vec<bool>, AllocError>
    ensures { IfOk result (λ v.
        v.items ≡ map (λ o. definition.is_alive (get heap.now.objects o)) objects.now) }
{
    let mut alive = Vec::with_capacity(alloc, objects.len())?;
    for object in objects {
        alive.push(is_alive(heap.object(*object)))?;
    }
    Ok(alive)
}

fn is_alive(entry: Option<&Entry>) -> bool
    ensures { result ≡ definition.is_alive (option_copied entry.entry) }
{
    match entry {
        Some(Entry::Alive(_)) => true,
        Some(Entry::Husk) | None => false,
    }
}

// The places of handles and cells that name an object, in order.
fn held_roots(alloc: Global, heap: &Heap, dates: &Dates) -> Result<Vec<Held>, AllocError>
    ensures { IfOk result (λ v. (since : Place → ℕ) → Tell dates.now heap.now since →
        v.items ≡ held_among heap.now since (root_places_of heap.now)) }
{
    let mut held = Vec::new(alloc);
    let handles = heap.handles(alloc)?;
    for handle in &handles {
        dates.push_handle(*handle, &mut held)?;
    }
    let cells = heap.cells(alloc)?;
    for cell in &cells {
        dates.push_cell(*cell, &mut held)?;
    }
    Ok(held)
}

// Adds the fields of objects that name one, in order, and tells where those of each object begin; and at last, where they end.
fn push_all_fields(
    alloc: Global,
    dates: &Dates,
    objects: &[u32],
    held: &mut Vec<Held>,
) -> Result<Vec<usize>, AllocError>
    requires told { (m : State) × ((since : Place → ℕ) × Tell dates.now m since) }
    ensures held { OnOk result ((m : State) (since : Place → ℕ) → Tell dates.now m since →
        held.new.items ≡ held.old.items ++ held_among m since (field_places_of m objects.now)) }
    ensures starts { IfOk result
        (λ v. AreStarts (length objects.now) (length held.new.items) v.items) }
    ensures each { IfOk result (λ v. (m : State) (since : Place → ℕ) → Tell dates.now m since → (i : ℕ) → i < length objects.now + 1
        → slice_index v.items i ≡ length held.old.items + length (held_among m since (field_places_of m (take i objects.now)))) }
{
    let mut starts = Vec::with_capacity(alloc, objects.len() + 1)?;
    for object in objects {
        starts.push(held.len())?;
        dates.push_fields(*object, held)?;
    }
    starts.push(held.len())?;
    Ok(starts)
}
