//! Which objects leaked, by what they are held, and which husks are left.
ghost use Rattle.std.specs.Prelude.{◌≡◌, ◌&&◌, not, IfOk};
ghost use Rattle.std.specs.Option.{option_copied};
ghost use Rattle.std.specs.Ordering.{nat_cmp};
ghost use Rattle.std.specs.FinMap.{get};
ghost use Rattle.std.specs.BTreeSet.{contains};
ghost use Rattle.ownership_model.specs.State as definition;
ghost use Rattle.ownership_model.specs.Leaks.{leaks_of, leaked_in, husk_of, husks_in};

use crate::holders::{push_holders, without_holders};
use object_heap::Heap;
use object_heap::reach::reach;
use ownership_model::{HuskLeft, Leaks, Link};
use std::alloc::{AllocError, Global};
use std::collections::BTreeSet;
use trace_types::sequence::Sequence;
use trace_types::slots::Entry;

/// The objects that leaked, with all that holds them, and the husks with their weak counts, each rising.
///
/// Each field is read at most twice: once to find what is reached, and once to find what is held.
pub fn find_leaks(alloc: Global, heap: &Heap) -> Result<Leaks, AllocError>
    ensures { IfOk result (λ leaks. leaks ≡ leaks_of heap.now) }
{
    let objects = heap.objects(alloc)?;
    let reached = reach(alloc, heap, Link::StrongOnly)?;
    let names = leaked_among(alloc, heap, &objects, &reached)?;
    let mut leaked = without_holders(alloc, &names)?;
    push_holders(heap, &objects, &names, &mut leaked)?;
    let husks = husks_among(alloc, heap, &objects)?;
    Ok(Leaks {
        leaked: Sequence::from_vec(leaked),
        husks: Sequence::from_vec(husks),
    })
}

fn leaked_among(
    alloc: Global,
    heap: &Heap,
    objects: &[u32],
    reached: &BTreeSet<u32>,
) -> Result<Vec<u32>, AllocError>
    ensures { IfOk result (λ v. v.items
        ≡ leaked_in (λ o. contains nat_cmp reached.now o) heap.now objects.now) }
{
    let mut names = Vec::new(alloc);
    for object in objects {
        if is_leaked(heap, *object, reached) {
            names.push(*object)?;
        }
    }
    Ok(names)
}

fn is_leaked(heap: &Heap, object: u32, reached: &BTreeSet<u32>) -> bool
    ensures { result ≡ (definition.is_alive (get heap.now.objects object)
        && not (contains nat_cmp reached.now object)) }
{
    is_alive(heap.object(object)) && !reached.contains(&object)
}

fn is_alive(entry: Option<&Entry>) -> bool
    ensures { result ≡ definition.is_alive (option_copied entry.entry) }
{
    match entry {
        Some(Entry::Alive(_)) => true,
        Some(Entry::Husk) | None => false,
    }
}

fn husks_among(alloc: Global, heap: &Heap, objects: &[u32]) -> Result<Vec<HuskLeft>, AllocError>
    ensures { IfOk result (λ v. v.items ≡ husks_in heap.now objects.now) }
{
    let mut husks = Vec::new(alloc);
    for object in objects {
        if let Some(husk) = husk_at(heap, *object) {
            husks.push(husk)?;
        }
    }
    Ok(husks)
}

fn husk_at(heap: &Heap, object: u32) -> Option<HuskLeft>
    ensures { result ≡ husk_of heap.now object (get heap.now.objects object) }
{
    match heap.object(object) {
        Some(Entry::Husk) => Some(HuskLeft {
            object,
            weak: heap.weak(object),
        }),
        Some(Entry::Alive(_)) | None => None,
    }
}
