//! How the lists of a graph are made from each other.
ghost use Rattle.std.specs.Prelude.{ℕ, ◌≡◌, ◌+◌, ◌-◌, ◌<◌, ◌≤◌, [], length, map, replicate, slice_index, IfOk};
ghost use Rattle.retention.specs.Layout.{IsRising, AreSources, AreHolders};
ghost use Rattle.retention.specs.Targets.{AreTargets, IsTarget};

use crate::filled::zeros;
use retention_model::Held;
use std::alloc::{AllocError, Global};
use trace_types::sequence::Sequence;
use trace_types::slots::Slot;

/// Of each place the object of which it is a field, where these are the starts of the fields of each object, and their end.
pub fn sources_of(alloc: Global, starts: &[usize]) -> Result<Vec<usize>, AllocError>
    requires some { 0 < length starts.now }
    requires rising { (i : ℕ) → i + 1 < length starts.now →
        slice_index starts.now i ≤ slice_index starts.now (i + 1) }
    ensures { IfOk result (λ v.
        AreSources (length starts.now - 1)
        (slice_index starts.now (length starts.now - 1)) starts.now v.items) }
{
    let mut sources = zeros(alloc, starts[0])?;
    for index in 0..starts.len() - 1 {
        'fields: while sources.len() < starts[index + 1] {
            sources.push(index)?;
        }
    }
    Ok(sources)
}

/// Of each place the object that it names, among these.
pub fn targets_of(alloc: Global, objects: &[u32], held: &[Held]) -> Result<Vec<usize>, AllocError>
    requires { IsRising objects.now }
    ensures { IfOk result (λ v. AreTargets objects.now held.now v.items) }
{
    let mut targets = Vec::with_capacity(alloc, held.len())?;
    for one in held {
        targets.push(target_of(objects, one.slot))?;
    }
    Ok(targets)
}

// Which of these objects a slot names; none of them would be the number of all.
fn target_of(objects: &[u32], slot: Slot) -> usize
    requires { IsRising objects.now }
    ensures { IsTarget objects.now slot result }
{
    let Some(object) = slot.object() else {
        return objects.len();
    };
    match objects.binary_search(&object) {
        Ok(index) => index,
        Err(_) => objects.len(),
    }
}

/// Of each of so many objects the places that name it.
pub fn holders_of(
    alloc: Global,
    objects: usize,
    targets: &[usize],
) -> Result<Vec<Sequence<usize>>, AllocError>
    ensures { IfOk result (λ v. AreHolders objects targets.now v.items) }
{
    let mut holders = empty_lists(alloc, objects)?;
    for (place, target) in targets.iter().enumerate() {
        if *target < objects {
            let names = &mut holders[*target];
            names.push(place)?;
        }
    }
    Ok(holders)
}

fn empty_lists(alloc: Global, count: usize) -> Result<Vec<Sequence<usize>>, AllocError>
    ensures { IfOk result (λ v. v.items ≡ replicate count []) }
{
    let mut lists = Vec::with_capacity(alloc, count)?;
    'lists: while lists.len() < count {
        lists.push(Sequence::empty(alloc))?;
    }
    Ok(lists)
}
