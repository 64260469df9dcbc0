//! Which objects can be reached from handles and cells.
ghost use Rattle.std.specs.Prelude.{◌≡◌, ◌++◌, IfOk, OnOk};
ghost use Rattle.std.specs.Option.{option_copied};
ghost use Rattle.std.specs.Ordering.{nat_cmp};
ghost use Rattle.std.specs.FinMap as map;
ghost use Rattle.std.specs.BTreeSet.{contains};
ghost use Rattle.ownership_model.specs.Reach.{named, slots_names, holding_names, cell_names, entry_names, handle_names, all_cell_names, root_names, IsReach};

use crate::heap::Heap;
use ownership_model::link::Link;
use std::alloc::{AllocError, Global};
use std::collections::BTreeSet;
use trace_types::slots::{Entry, Holding, Slot};

/// The objects that handles and cells lead to by such slots; husks too, where weak slots are followed.
///
/// Looks each of them up once and each of their fields through once, on a list of what waits: a chain of any length
/// takes no deeper calls. Takes memory for the numbers.
pub fn reach(alloc: Global, heap: &Heap, by: Link) -> Result<BTreeSet<u32>, AllocError>
    ensures { IfOk result (λ s. IsReach by heap.now (λ o. contains nat_cmp s o)) }
{
    let mut todo = roots(alloc, heap, by)?;
    let mut seen = BTreeSet::new(alloc);
    while let Some(object) = todo.pop() {
        if seen.insert(object)? {
            push_entry(&mut todo, heap.object(object), by)?;
        }
    }
    Ok(seen)
}

// What handles and cells name themselves.
fn roots(alloc: Global, heap: &Heap, by: Link) -> Result<Vec<u32>, AllocError>
    ensures { IfOk result (λ v. v.items ≡ root_names by heap.now) }
{
    let mut names = Vec::new(alloc);
    push_handles(alloc, &mut names, heap, by)?;
    push_cells(alloc, &mut names, heap, by)?;
    Ok(names)
}

fn push_handles(
    alloc: Global,
    names: &mut Vec<u32>,
    heap: &Heap,
    by: Link,
) -> Result<(), AllocError>
    ensures { OnOk result (names.new.items ≡ names.old.items
        ++ handle_names by heap.now (map.keys heap.now.handles)) }
{
    let handles = heap.handles(alloc)?;
    for handle in &handles {
        push_holding(names, heap.holding(*handle), by)?;
    }
    Ok(())
}

fn push_cells(alloc: Global, names: &mut Vec<u32>, heap: &Heap, by: Link) -> Result<(), AllocError>
    ensures { OnOk result (names.new.items ≡ names.old.items
        ++ all_cell_names by heap.now (map.keys heap.now.cells)) }
{
    let cells = heap.cells(alloc)?;
    for cell in &cells {
        push_cell(names, heap.cell(*cell), by)?;
    }
    Ok(())
}

fn push_holding(names: &mut Vec<u32>, holding: Option<&Holding>, by: Link) -> Result<(), AllocError>
    ensures { OnOk result (names.new.items ≡ names.old.items
        ++ holding_names by (option_copied holding.entry)) }
{
    match holding {
        None => Ok(()),
        Some(Holding::Slot(slot)) => push_slot(names, *slot, by),
        Some(Holding::Bare(fields)) => push_slots(names, fields.as_slice(), by),
    }
}

fn push_cell(names: &mut Vec<u32>, cell: Option<Slot>, by: Link) -> Result<(), AllocError>
    ensures { OnOk result (names.new.items ≡ names.old.items ++ cell_names by cell) }
{
    match cell {
        None => Ok(()),
        Some(slot) => push_slot(names, slot, by),
    }
}

fn push_entry(names: &mut Vec<u32>, entry: Option<&Entry>, by: Link) -> Result<(), AllocError>
    ensures { OnOk result (names.new.items ≡ names.old.items
        ++ entry_names by (option_copied entry.entry)) }
{
    match entry {
        Some(Entry::Alive(fields)) => push_slots(names, fields.as_slice(), by),
        Some(Entry::Husk) | None => Ok(()),
    }
}

fn push_slots(names: &mut Vec<u32>, slots: &[Slot], by: Link) -> Result<(), AllocError>
    ensures { OnOk result (names.new.items ≡ names.old.items ++ slots_names by slots.now) }
{
    for slot in slots {
        push_slot(names, *slot, by)?;
    }
    Ok(())
}

fn push_slot(names: &mut Vec<u32>, slot: Slot, by: Link) -> Result<(), AllocError>
    ensures { OnOk result (names.new.items ≡ names.old.items ++ named by slot) }
{
    match (slot, by) {
        (Slot::Strong(object), _) | (Slot::Weak(object), Link::StrongOrWeak) => {
            names.push(object)?;
            Ok(())
        }
        (Slot::Nothing, _) | (Slot::Weak(_), Link::StrongOnly) | (Slot::Dangling, _) => Ok(()),
    }
}
