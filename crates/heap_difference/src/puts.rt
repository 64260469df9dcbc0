//! The handles of a set that a heap holds, to be put into the scopes of another heap.
ghost use Rattle.std.specs.Prelude.{◌≡◌, ℕ, IfOk};
ghost use Rattle.std.specs.Ordering.{nat_cmp};
ghost use Rattle.std.specs.BTreeSet.{contains};
ghost use Rattle.ownership_model.specs.Reach.{has};
ghost use Rattle.heap_difference.specs.Puts.{ArePuts, IsPutOf, unders};

use crate::handles::set_of;
use crate::numbers::Numbers;
use crate::scopes::first_under;
use object_heap::{Heap, Put};
use std::alloc::{AllocError, Global};
use std::collections::BTreeSet;

/// The handles that the heap holds, each with its place among those that are not in the set or are put in before it.
pub fn puts_of(alloc: Global, heap: &Heap, handles: &Numbers) -> Result<Vec<Put>, AllocError>
    ensures { IfOk result (λ v. ArePuts (λ h. has h handles.now) heap.now v.items) }
{
    let mut left = set_of(alloc, handles)?;
    let mut puts = Vec::new(alloc);
    for handle in handles.as_slice() {
        let put = put_of(heap, &left, *handle)?;
        if let Some(put) = put {
            left.remove(handle);
            puts.push(put)?;
        }
    }
    Ok(puts)
}

/// The handles just under those that are put in.
pub fn unders_of(alloc: Global, puts: &[Put]) -> Result<Numbers, AllocError>
    ensures { IfOk result (λ n. (q : ℕ) → has q n ≡ has q (unders puts.now)) }
{
    let mut handles = Vec::new(alloc);
    for put in puts {
        if let Some(under) = put.under {
            handles.push(under)?;
        }
    }
    Ok(Numbers::of(handles))
}

// The put of a handle of the set, if the heap holds it.
fn put_of(heap: &Heap, set: &BTreeSet<u32>, handle: u32) -> Result<Option<Put>, AllocError>
    ensures { IfOk result (λ o. IsPutOf (λ g. contains nat_cmp set.now g) heap.now handle o) }
{
    if !set.contains(&handle) {
        return Ok(None);
    }
    let Some(holding) = heap.holding(handle) else {
        return Ok(None);
    };
    let Some(label) = heap.label(handle) else {
        return Ok(None);
    };
    Ok(Some(Put {
        label,
        handle,
        under: first_under(heap, set, handle),
        holding: holding.clone()?,
    }))
}
