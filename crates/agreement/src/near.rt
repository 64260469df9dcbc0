//! A short trail to an object at which two heaps differ.

use crate::agree::agree_at;
use crate::named::named_among;
use crate::trail::{Path, Root, Trail};
use object_heap::Heap;
use std::alloc::{AllocError, Global};
use trace_types::slots::{Entry, Holding, Slot};

/// After how many slots no root is begun: those of roots count, and those of what these name.
const MOST: usize = 16_384;

/// A way from a root to one of these objects that differs, by what stands for it or by a count, with at most one object between, if one is found: any
/// will do. It is a hint: the caller looks whether the heaps differ there.
///
/// Where none of them differs no root is begun, and else none after 16,384 slots. No object is looked at but these and those that roots name.
pub fn near_root(
    alloc: Global,
    new: &Heap,
    old: &Heap,
    objects: &[u32],
) -> Result<Option<Trail>, AllocError> {
    let mut sorted = Vec::new(alloc);
    for object in objects {
        if !agree_at(new, old, *object) {
            sorted.push(*object)?;
        }
    }
    if sorted.is_empty() {
        return Ok(None);
    }
    sorted.sort_unstable();
    let mut left = MOST;
    if let Some(trail) = near_handle(alloc, new, &sorted, &mut left)? {
        return Ok(Some(trail));
    }
    near_cell(alloc, new, &sorted, &mut left)
}

// Ends before the next handle once no slots are left.
fn near_handle(
    alloc: Global,
    heap: &Heap,
    sorted: &[u32],
    left: &mut usize,
) -> Result<Option<Trail>, AllocError> {
    let handles = heap.handles(alloc)?;
    for handle in &handles {
        if *left == 0 {
            return Ok(None);
        }
        let root = Root::Handle(*handle);
        let found = match heap.holding(*handle) {
            None => None,
            Some(Holding::Slot(slot)) => behind(alloc, heap, sorted, root, *slot, left)?,
            Some(Holding::Bare(fields)) => {
                behind_any(alloc, heap, sorted, root, fields.as_slice(), left)?
            }
        };
        if found.is_some() {
            return Ok(found);
        }
    }
    Ok(None)
}

fn near_cell(
    alloc: Global,
    heap: &Heap,
    sorted: &[u32],
    left: &mut usize,
) -> Result<Option<Trail>, AllocError> {
    let cells = heap.cells(alloc)?;
    for cell in &cells {
        if *left == 0 {
            return Ok(None);
        }
        if let Some(slot) = heap.cell(*cell) {
            let found = behind(alloc, heap, sorted, Root::Cell(*cell), slot, left)?;
            if found.is_some() {
                return Ok(found);
            }
        }
    }
    Ok(None)
}

fn behind_any(
    alloc: Global,
    heap: &Heap,
    sorted: &[u32],
    root: Root,
    slots: &[Slot],
    left: &mut usize,
) -> Result<Option<Trail>, AllocError> {
    for slot in slots {
        let found = behind(alloc, heap, sorted, root, *slot, left)?;
        if found.is_some() {
            return Ok(found);
        }
    }
    Ok(None)
}

// The trail from a root to what this slot of it names, or to what a field of that does, if that is among the objects, which rise. The slots that are
// looked at are counted.
fn behind(
    alloc: Global,
    heap: &Heap,
    sorted: &[u32],
    root: Root,
    slot: Slot,
    left: &mut usize,
) -> Result<Option<Trail>, AllocError> {
    *left = left.saturating_sub(1);
    let Some(first) = slot.object() else {
        return Ok(None);
    };
    let mut rest = Vec::new(alloc);
    if sorted.binary_search(&first).is_err() {
        let Some(Entry::Alive(fields)) = heap.object(first) else {
            return Ok(None);
        };
        *left = left.saturating_sub(fields.as_slice().len());
        let Some(object) = named_among(sorted, fields.as_slice()) else {
            return Ok(None);
        };
        rest.push(object)?;
    }
    Ok(Some(Trail::Path(Path { root, first, rest })))
}
