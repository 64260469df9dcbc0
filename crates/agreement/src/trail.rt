//! Where two heaps differ in what can be reached: a trail that still leads there refutes an agreement without a search.
ghost use Rattle.std.specs.Prelude.{◌≡◌, true, IsTrue};
ghost use Rattle.std.specs.Option.{option_copied};
ghost use Rattle.ownership_model.specs.declared.link.Link.TheVariants.{StrongOrWeak};
ghost use Rattle.ownership_model.specs.Reach.{has, is_reached, named, slots_names, holding_names, cell_names, entry_names};
ghost use Rattle.agreement.specs.Agreement.{Agree};

use crate::agree::agree_at;
use object_heap::Heap;
use trace_types::same::Same;
use trace_types::slots::{Entry, Holding, Slot};

/// A place where two heaps were found to differ. It is a hint: nothing is kept of it.
#[derive(Debug, Drop)]
pub enum Trail {
    Handle(u32),
    Cell(u32),
    /// The handle made last of a label.
    Last(u32),
    /// The handle made before this one, of those in its scope.
    Earlier(u32),
    /// An object that is surely reached.
    Object(u32),
    Path(Path),
}

/// Objects that lead from a root to one at which two heaps differ.
#[derive(Debug, Drop)]
pub struct Path {
    pub root: Root,
    /// What the root names.
    pub first: u32,
    /// Each is named by a field of the one before.
    pub rest: Vec<u32>,
}

/// What a path begins at.
#[derive(Clone, Copy, Debug, PartialEq, Eq)]
pub enum Root {
    Handle(u32),
    Cell(u32),
}

/// Whether the trail leads to a place where the heaps differ. Then they don't agree.
///
/// Looks at no more objects than the trail has, and takes no memory.
pub fn refutes(trail: &Trail, new: &Heap, old: &Heap) -> bool
    ensures { IsTrue result → ¬ (Agree new.now old.now) }
{
    match trail {
        Trail::Handle(handle) => !same_holding(new, old, *handle),
        Trail::Cell(cell) => !same_cell(new, old, *cell),
        Trail::Last(label) => !same_last(new, old, *label),
        Trail::Earlier(handle) => !same_earlier(new, old, *handle),
        Trail::Object(object) => is_reached_difference(*object, new, old),
        Trail::Path(path) => leads_to_difference(path, new, old),
    }
}

fn same_holding(new: &Heap, old: &Heap, handle: u32) -> bool
    ensures { new.now.handles ≡ old.now.handles → IsTrue result }
{
    match (new.holding(handle), old.holding(handle)) {
        (None, None) => true,
        (Some(holding), Some(other)) => holding.same(other),
        (None, Some(_)) | (Some(_), None) => false,
    }
}

fn same_cell(new: &Heap, old: &Heap, cell: u32) -> bool
    ensures { new.now.cells ≡ old.now.cells → IsTrue result }
{
    new.cell(cell) == old.cell(cell)
}

fn same_last(new: &Heap, old: &Heap, label: u32) -> bool
    ensures { new.now.scopes ≡ old.now.scopes → IsTrue result }
{
    new.last(label) == old.last(label)
}

fn same_earlier(new: &Heap, old: &Heap, handle: u32) -> bool
    ensures { new.now.scopes ≡ old.now.scopes → IsTrue result }
{
    new.earlier(handle) == old.earlier(handle)
}

// Whether the object is surely reached in the new heap, and is not the same in the old one.
fn is_reached_difference(object: u32, new: &Heap, old: &Heap) -> bool
    ensures { IsTrue result → ¬ (Agree new.now old.now) }
{
    new.is_surely_reached(object) && !agree_at(new, old, object)
}

// Whether the path stands in the new heap, and its last object is not the same in the old one.
fn leads_to_difference(path: &Path, new: &Heap, old: &Heap) -> bool
    ensures { IsTrue result → ¬ (Agree new.now old.now) }
{
    if !is_named_by_root(new, path.root, path.first) {
        return false;
    }
    let mut at = path.first;
    for object in &path.rest {
        if !is_named_by_entry(new.object(at), *object) {
            return false;
        }
        at = *object;
    }
    !agree_at(new, old, at)
}

fn is_named_by_root(heap: &Heap, root: Root, object: u32) -> bool
    ensures { result ≡ true → is_reached StrongOrWeak heap.now object ≡ true }
{
    match root {
        Root::Handle(handle) => is_named_by_holding(heap.holding(handle), object),
        Root::Cell(cell) => is_named_by_cell(heap.cell(cell), object),
    }
}

fn is_named_by_holding(holding: Option<&Holding>, object: u32) -> bool
    ensures { result ≡ has object (holding_names StrongOrWeak (option_copied holding.entry)) }
{
    match holding {
        None => false,
        Some(Holding::Slot(slot)) => is_named_by(*slot, object),
        Some(Holding::Bare(fields)) => is_named_by_any(fields.as_slice(), object),
    }
}

fn is_named_by_cell(cell: Option<Slot>, object: u32) -> bool
    ensures { result ≡ has object (cell_names StrongOrWeak cell) }
{
    match cell {
        None => false,
        Some(slot) => is_named_by(slot, object),
    }
}

fn is_named_by_entry(entry: Option<&Entry>, object: u32) -> bool
    ensures { result ≡ has object (entry_names StrongOrWeak (option_copied entry.entry)) }
{
    match entry {
        Some(Entry::Alive(fields)) => is_named_by_any(fields.as_slice(), object),
        Some(Entry::Husk) | None => false,
    }
}

fn is_named_by_any(slots: &[Slot], object: u32) -> bool
    ensures { result ≡ has object (slots_names StrongOrWeak slots.now) }
{
    for slot in slots {
        if is_named_by(*slot, object) {
            return true;
        }
    }
    false
}

fn is_named_by(slot: Slot, object: u32) -> bool
    ensures { result ≡ has object (named StrongOrWeak slot) }
{
    match slot {
        Slot::Strong(named) | Slot::Weak(named) => named == object,
        Slot::Nothing | Slot::Dangling => false,
    }
}
