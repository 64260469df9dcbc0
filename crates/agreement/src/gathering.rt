//! Objects of a heap gathered as they would remain: with their counts.
ghost use Rattle.std.specs.Prelude.{◌≡◌, ℕ, None, not, if◌then◌else◌, IfOk, OnOk};
ghost use Rattle.std.specs.Ordering.{nat_cmp};
ghost use Rattle.std.specs.FinMap as map;
ghost use Rattle.std.specs.BTreeSet.{contains};
ghost use Rattle.ownership_model.specs.Reach.{has};
ghost use Rattle.ownership_model.specs.Patch.{remaining_at};
ghost use Rattle.agreement.specs.Gathering.{with_remaining};

use object_heap::Heap;
use ownership_model::remaining::Remaining;
use share_tree::ShareTree;
use std::alloc::{AllocError, Global};
use std::collections::BTreeSet;
use trace_types::outcomes::Counts;

/// The objects of a heap that are not in the set.
pub fn unreached(
    alloc: Global,
    heap: &Heap,
    reached: &BTreeSet<u32>,
) -> Result<ShareTree<Remaining>, AllocError>
    ensures { IfOk result (λ t. (q : ℕ) → map.get t q ≡
        (if contains nat_cmp reached.now q then None
        else remaining_at heap.now q (map.get heap.now.objects q))) }
{
    let mut rest = ShareTree::empty();
    let objects = heap.objects(alloc)?;
    for object in &objects {
        if !reached.contains(object) {
            push_remaining(alloc, &mut rest, heap, *object)?;
        }
    }
    Ok(rest)
}

/// The listed objects of a heap. The work is that of the list.
pub fn standing(
    alloc: Global,
    heap: &Heap,
    objects: &[u32],
) -> Result<ShareTree<Remaining>, AllocError>
    ensures { IfOk result (λ t. (q : ℕ) → map.get t q ≡
        (if not (has q objects.now) then None
        else remaining_at heap.now q (map.get heap.now.objects q))) }
{
    let mut rest = ShareTree::empty();
    for object in objects {
        push_remaining(alloc, &mut rest, heap, *object)?;
    }
    Ok(rest)
}

fn push_remaining(
    alloc: Global,
    rest: &mut ShareTree<Remaining>,
    heap: &Heap,
    object: u32,
) -> Result<(), AllocError>
    ensures { OnOk result ((q : ℕ) → map.get rest.new q
        ≡ with_remaining heap.now rest.old object q) }
{
    match heap.object(object) {
        Some(entry) => {
            let copy = entry.clone()?;
            let Counts { strong, weak, .. } = heap.counts(object);
            let remaining = Remaining {
                entry: copy,
                strong,
                weak,
            };
            rest.insert(alloc, object, remaining)
        }
        None => Ok(()),
    }
}
