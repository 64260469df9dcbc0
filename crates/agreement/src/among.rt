//! What suspects alone tell of two heaps with the same roots.
ghost use Rattle.std.specs.Prelude.{[], not, is_some, IfOk, IfSome, IsTrue};
ghost use Rattle.ownership_model.specs.State.{IsSound};
ghost use Rattle.ownership_model.specs.Reach.{has};
ghost use Rattle.ownership_model.specs.Agrees.{HaveSameRoots};
ghost use Rattle.ownership_model.specs.Touched.{AgreeOutside};
ghost use Rattle.ownership_model.specs.Patch.{IsRemains};
ghost use Rattle.agreement.specs.Agreement.{Agree};
ghost use Rattle.agreement.specs.Meeting.{AgreeBut};

use crate::gathering::standing;
use crate::joining::joined;
use crate::named::named_within;
use crate::remains::Remains;
use crate::trail::{Trail, refutes};
use object_heap::Heap;
use std::alloc::{AllocError, Global};
use trace_types::slots::Entry;

/// A trail to a suspect that differs and is surely reached, if there is one.
pub fn sure_difference(new: &Heap, old: &Heap, suspects: &[u32]) -> Option<Trail>
    ensures { IsTrue (is_some result) → ¬ (Agree new.now old.now) }
{
    for object in suspects {
        let trail = Trail::Object(*object);
        if refutes(&trail, new, old) {
            return Some(trail);
        }
    }
    None
}

// How many objects an island may have where others join than those that differ.
const NEAR: usize = 256;

/// The remains, where the suspects and all that differs with them are an island of the new heap, or are one with the objects that they
/// lead to, while these are few: as in a cycle that leaks, of which one member differs. The work is that of these objects and of their
/// fields: the heaps are not walked.
pub fn island_among(
    alloc: Global,
    new: &Heap,
    old: &Heap,
    suspects: &[u32],
) -> Result<Option<Remains>, AllocError>
    requires roots { HaveSameRoots new.now old.now }
    requires outside { AgreeOutside suspects.now new.now old.now }
    ensures { IfOk result (λ r. IfSome r (λ x. AgreeBut new.now old.now x)) }
{
    let alone = island_near(alloc, new, old, suspects, 0)?;
    if alone.is_some() {
        return Ok(alone);
    }
    island_near(alloc, new, old, suspects, NEAR)
}

// The remains, where the suspects are an island with what joins them.
fn island_near(
    alloc: Global,
    new: &Heap,
    old: &Heap,
    suspects: &[u32],
    near: usize,
) -> Result<Option<Remains>, AllocError>
    requires roots { HaveSameRoots new.now old.now }
    requires outside { AgreeOutside suspects.now new.now old.now }
    ensures { IfOk result (λ r. IfSome r (λ x. AgreeBut new.now old.now x)) }
{
    let Some(apart) = joined(alloc, new, old, suspects, near)? else {
        return Ok(None);
    };
    let island = apart.as_slice();
    // asked first: to take objects out of a share is dear
    if are_named_outside(alloc, new, island)? {
        return Ok(None);
    }
    if !new.is_island(alloc, island)? {
        return Ok(None);
    }
    let remains = remains_at(alloc, new, old, island)?;
    Ok(Some(remains))
}

// Whether more slots name the objects than their own fields do: then these are no island. Each is listed once.
fn are_named_outside(alloc: Global, heap: &Heap, objects: &[u32]) -> Result<bool, AllocError> {
    let mut sorted = Vec::new(alloc);
    sorted.extend_from_slice(objects)?;
    sorted.sort_unstable();
    let mut named = 0u64;
    let mut within = 0u64;
    for object in objects {
        let counts = heap.counts(*object);
        named = named
            .saturating_add(counts.strong)
            .saturating_add(counts.weak);
        if let Some(Entry::Alive(fields)) = heap.object(*object) {
            within = within.saturating_add(named_within(&sorted, fields.as_slice()));
        }
    }
    Ok(named > within)
}

// What stands for the objects in each heap.
fn remains_at(alloc: Global, new: &Heap, old: &Heap, objects: &[u32]) -> Result<Remains, AllocError>
    ensures remains { IfOk result
        (λ x. IsRemains (λ o. not (has o objects.now)) new.now old.now x) }
    ensures sound { IsSound new.now [] × IsSound old.now [] }
{
    new.show_sound();
    old.show_sound();
    let removed = standing(alloc, old, objects)?;
    let added = standing(alloc, new, objects)?;
    Remains::new(alloc, removed, added)
}
