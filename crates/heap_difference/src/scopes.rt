//! Where handles stand in the scopes of two heaps.
ghost use Rattle.std.specs.Prelude.{◌≡◌, ◌↔◌, ◌++◌, not, true, ℕ, filter, flat_map, option_to_list, IfOk, OnOk, IsTrue};
ghost use Rattle.std.specs.Option.{option_copied};
ghost use Rattle.std.specs.Ordering.{nat_cmp};
ghost use Rattle.std.specs.FinMap as map;
ghost use Rattle.std.specs.BTreeSet.{contains};
ghost use Rattle.ownership_model.specs.Reach.{has};
ghost use Rattle.object_heap.specs.Links.{first_of, under};
ghost use Rattle.heap_difference.specs.Differences.{labels_of, AreScopesAlike, StandsAlike, IsAlikeAt};

use crate::numbers::Numbers;
use object_heap::Heap;
use std::alloc::{AllocError, Global};
use std::collections::BTreeSet;
use trace_types::same::Same;
use trace_types::slots::Holding;

/// Whether a handle holds the same in both, and stands in the same place of the same scope, among those that are not in the set. All
/// others that are not in it do already.
pub fn stands_alike(old: &Heap, new: &Heap, set: &BTreeSet<u32>, handle: u32) -> bool
    requires { AreScopesAlike (λ g. contains nat_cmp set.now g) old.now new.now }
    ensures { IsTrue result
        ↔ StandsAlike (λ g. contains nat_cmp set.now g) old.now new.now handle }
{
    old.show_sound();
    new.show_sound();
    is_alike(old, new, set, handle)
}

// Whether what the handle holds, its label, and the first handle under it that is not in the set are the same in both.
fn is_alike(old: &Heap, new: &Heap, set: &BTreeSet<u32>, handle: u32) -> bool
    ensures { IsTrue result ↔ IsAlikeAt (λ g. contains nat_cmp set.now g) old.now new.now handle }
{
    is_same_holding(old.holding(handle), new.holding(handle))
        && old.label(handle) == new.label(handle)
        && first_under(old, set, handle) == first_under(new, set, handle)
}

fn is_same_holding(old: Option<&Holding>, new: Option<&Holding>) -> bool
    ensures { IsTrue result ↔ (option_copied old.entry ≡ option_copied new.entry) }
{
    match (old, new) {
        (Some(holding), Some(other)) => holding.same(other),
        (None, None) => true,
        (Some(_), None) | (None, Some(_)) => false,
    }
}

/// The first handle under this one in its scope that is not in the set. Takes no memory.
pub fn first_under(heap: &Heap, set: &BTreeSet<u32>, handle: u32) -> Option<u32>
    ensures { result ≡ first_of (filter (λ g. not (contains nat_cmp set.now g))
        (under handle heap.now.scopes)) }
{
    heap.show_sound();
    let mut at = heap.earlier(handle);
    while let Some(next) = at {
        if !set.contains(&next) {
            return Some(next);
        }
        at = heap.earlier(next);
    }
    None
}

/// The labels of the scopes in which the handles stand, in either.
pub fn labels(
    alloc: Global,
    old: &Heap,
    new: &Heap,
    handles: &Numbers,
) -> Result<Numbers, AllocError>
    ensures { IfOk result (λ n. (t : ℕ) →
        has t n ≡ has t (flat_map (labels_of old.now new.now) handles.now)) }
{
    let mut labels = Vec::new(alloc);
    for handle in handles.as_slice() {
        push_label(&mut labels, old.label(*handle))?;
        push_label(&mut labels, new.label(*handle))?;
    }
    Ok(Numbers::of(labels))
}

fn push_label(labels: &mut Vec<u32>, label: Option<u32>) -> Result<(), AllocError>
    ensures { OnOk result (labels.new.items ≡ labels.old.items ++ option_to_list label) }
{
    match label {
        Some(label) => Ok(labels.push(label)?),
        None => Ok(()),
    }
}
