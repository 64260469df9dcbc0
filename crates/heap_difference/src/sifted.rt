//! Which of some cells and objects differ.
ghost use Rattle.std.specs.Prelude.{◌↔◌, IfOk, IsTrue};
ghost use Rattle.heap_difference.specs.Differences.{IsSameCell, IsSameObject};
ghost use Rattle.heap_difference.specs.Sifts.{IsSifted};

use crate::numbers::Numbers;
use object_heap::Heap;
use std::alloc::{AllocError, Global};

/// Those of the cells that don't hold the same in both.
pub fn differing_cells(
    alloc: Global,
    old: &Heap,
    new: &Heap,
    cells: &Numbers,
) -> Result<Numbers, AllocError>
    ensures { IfOk result (λ n. IsSifted (IsSameCell old.now new.now) cells.now n) }
{
    let mut differing = Vec::new(alloc);
    for cell in cells.as_slice() {
        if !is_same_cell(old, new, *cell) {
            differing.push(*cell)?;
        }
    }
    Ok(Numbers::of(differing))
}

/// Those of the objects that aren't the same in both, with both of their counts.
pub fn differing_objects(
    alloc: Global,
    old: &Heap,
    new: &Heap,
    objects: &Numbers,
) -> Result<Numbers, AllocError>
    ensures { IfOk result (λ n. IsSifted (IsSameObject old.now new.now) objects.now n) }
{
    let mut differing = Vec::new(alloc);
    for object in objects.as_slice() {
        if !is_same_object(old, new, *object) {
            differing.push(*object)?;
        }
    }
    Ok(Numbers::of(differing))
}

fn is_same_cell(old: &Heap, new: &Heap, cell: u32) -> bool
    ensures { IsTrue result ↔ IsSameCell old.now new.now cell }
{
    old.cell(cell) == new.cell(cell)
}

fn is_same_object(old: &Heap, new: &Heap, object: u32) -> bool
    ensures { IsTrue result ↔ IsSameObject old.now new.now object }
{
    old.same_at(new, object)
}
