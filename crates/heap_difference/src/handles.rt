//! Which of some handles differ.
ghost use Rattle.std.specs.Prelude.{◌≡◌, false, ℕ, IfOk};
ghost use Rattle.std.specs.Ordering.{nat_cmp};
ghost use Rattle.std.specs.BTreeSet.{contains};
ghost use Rattle.ownership_model.specs.Reach.{has};
ghost use Rattle.heap_difference.specs.Differences.{AreScopesAlike, AreHandlesFound};
ghost use Rattle.heap_difference.specs.Sifts.{IsSifted};

use crate::numbers::Numbers;
use crate::scopes::stands_alike;
use object_heap::Heap;
use std::alloc::{AllocError, Global};
use std::collections::BTreeSet;

/// Those of the handles that don't hold the same in both, or don't stand in the same place. In scopes all others do.
///
/// Of two that have changed places one may be left out: the other one is told.
pub fn differing_handles(
    alloc: Global,
    old: &Heap,
    new: &Heap,
    handles: &Numbers,
) -> Result<Numbers, AllocError>
    requires { AreScopesAlike (λ g. has g handles.now) old.now new.now }
    ensures { IfOk result (λ n. AreHandlesFound handles.now old.now new.now n) }
{
    let mut differing = set_of(alloc, handles)?;
    for handle in handles.as_slice() {
        if stands_alike(old, new, &differing, *handle) {
            differing.remove(handle);
        }
    }
    those_in(alloc, handles, &differing)
}

/// The numbers as a set to look up in.
pub fn set_of(alloc: Global, numbers: &Numbers) -> Result<BTreeSet<u32>, AllocError>
    ensures { IfOk result (λ s. (q : ℕ) → contains nat_cmp s q ≡ has q numbers.now) }
{
    let mut set = BTreeSet::new(alloc);
    for number in numbers.as_slice() {
        set.insert(*number)?;
    }
    Ok(set)
}

// Those of the numbers that are in the set.
fn those_in(alloc: Global, numbers: &Numbers, set: &BTreeSet<u32>) -> Result<Numbers, AllocError>
    ensures { IfOk result (λ n. IsSifted (λ q. contains nat_cmp set.now q ≡ false) numbers.now n) }
{
    let mut rest = Vec::new(alloc);
    for number in numbers.as_slice() {
        if set.contains(number) {
            rest.push(*number)?;
        }
    }
    Ok(Numbers::of(rest))
}
