//! What differs between two heaps, among keys that have all of it.
ghost use Rattle.std.specs.Prelude.{IfOk};
ghost use Rattle.heap_difference.specs.Differences.{HasDifference, IsFound};

use crate::handles::differing_handles;
use crate::key_set::KeySet;
use crate::scopes::labels;
use crate::sifted::{differing_cells, differing_objects};
use object_heap::Heap;
use std::alloc::{AllocError, Global};

/// The keys at which two heaps differ, among keys that have all of them. The work is that of these keys, and of the way from each handle down
/// its scope past others of them: the heaps are not walked.
///
/// Of the scopes it tells those in which a handle that differs stands in either heap.
pub fn found(alloc: Global, old: &Heap, new: &Heap, among: &KeySet) -> Result<KeySet, AllocError>
    requires { HasDifference among.now old.now new.now }
    ensures { IfOk result (λ d. IsFound among.now old.now new.now d) }
{
    old.show_sound();
    new.show_sound();
    let handles = differing_handles(alloc, old, new, &among.handles)?;
    let cells = differing_cells(alloc, old, new, &among.cells)?;
    let objects = differing_objects(alloc, old, new, &among.objects)?;
    let labels = labels(alloc, old, new, &handles)?;
    Ok(KeySet {
        handles,
        cells,
        objects,
        labels,
    })
}
