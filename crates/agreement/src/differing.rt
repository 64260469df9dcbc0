//! A trail to an object that can be reached and at which two heaps differ.
use crate::agree::agree_at;
use crate::trail::{Path, Root, Trail};
use object_heap::Heap;
use std::alloc::{AllocError, Global};
use std::collections::BTreeMap;
use trace_types::limits::MAX_ID;
use trace_types::slots::{Entry, Holding, Slot};

// How an object was come to first.
#[derive(Clone, Copy, Debug, PartialEq, Eq)]
enum Step {
    Root(Root),
    Field(u32),
}

// How each object was come to, and the objects in the order in which they were: so they are looked at.
#[derive(Drop)]
struct Search {
    from: BTreeMap<u32, Step>,
    todo: Vec<u32>,
}

/// A trail to an object that differs, if one is found: any will do. Where the object is surely reached its number is enough.
pub fn differing_object(
    alloc: Global,
    new: &Heap,
    old: &Heap,
) -> Result<Option<Trail>, AllocError> {
    let mut search = from_roots(alloc, new)?;
    // each object is taken at most once, first come first: so the way begins at a root with a low number, which mostly lives longer
    for at in 0..MAX_ID + 1 {
        let Some(object) = search.todo.get(at as usize).copied() else {
            return Ok(None);
        };
        if !agree_at(new, old, object) {
            if new.is_surely_reached(object) {
                return Ok(Some(Trail::Object(object)));
            }
            return path_to(alloc, &search.from, object);
        }
        if let Some(Entry::Alive(fields)) = new.object(object) {
            search.come_to_all(fields.as_slice(), Step::Field(object))?;
        }
    }
    Ok(None)
}

fn from_roots(alloc: Global, heap: &Heap) -> Result<Search, AllocError> {
    let mut search = Search {
        from: BTreeMap::new(alloc),
        todo: Vec::new(alloc),
    };
    let handles = heap.handles(alloc)?;
    for handle in &handles {
        let step = Step::Root(Root::Handle(*handle));
        match heap.holding(*handle) {
            None => {}
            Some(Holding::Slot(slot)) => search.come_to(*slot, step)?,
            Some(Holding::Bare(fields)) => search.come_to_all(fields.as_slice(), step)?,
        }
    }
    let cells = heap.cells(alloc)?;
    for cell in &cells {
        if let Some(slot) = heap.cell(*cell) {
            search.come_to(slot, Step::Root(Root::Cell(*cell)))?;
        }
    }
    Ok(search)
}

impl Search {
    fn come_to_all(&mut self, slots: &[Slot], step: Step) -> Result<(), AllocError> {
        for slot in slots {
            self.come_to(*slot, step)?;
        }
        Ok(())
    }

    fn come_to(&mut self, slot: Slot, step: Step) -> Result<(), AllocError> {
        if let Some(object) = slot.object() {
            if !self.from.contains_key(&object) {
                self.from.insert(object, step)?;
                self.todo.push(object)?;
            }
        }
        Ok(())
    }
}

// The path by which the object was come to, back to its root.
fn path_to(
    alloc: Global,
    from: &BTreeMap<u32, Step>,
    object: u32,
) -> Result<Option<Trail>, AllocError> {
    let mut rest = Vec::new(alloc);
    let mut at = object;
    for _ in 0..MAX_ID + 1 {
        match from.get(&at) {
            None => return Ok(None),
            Some(Step::Field(holder)) => {
                rest.push(at)?;
                at = *holder;
            }
            Some(Step::Root(root)) => {
                rest.reverse();
                return Ok(Some(Trail::Path(Path {
                    root: *root,
                    first: at,
                    rest,
                })));
            }
        }
    }
    Ok(None)
}
