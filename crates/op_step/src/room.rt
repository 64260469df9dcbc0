//! Memory that operations use in turn.
ghost use Rattle.std.specs.Prelude.{◌≡◌, [], ◌∷◌, IfOk};

use std::alloc::{AllocError, Global};
use std::collections::VecDeque;
use std::mem::replace;
use trace_types::slots::{Change, Item};

/// Lists that are emptied and used again: those of a plan, and the work list of what it sets off. A replay has one of each, so that
/// an operation takes memory for them only where none before it had as much.
#[derive(Drop)]
pub struct Room {
    alloc: Global,
    changes: Vec<Change>,
    pending: Vec<Item>,
    work: VecDeque<Item>,
}

impl Room {
    /// Takes no memory.
    pub fn new(alloc: Global) -> Room {
        Room {
            alloc,
            changes: Vec::new(alloc),
            pending: Vec::new(alloc),
            work: VecDeque::new(alloc),
        }
    }

    /// The allocator, for what is kept.
    pub fn alloc(&self) -> Global {
        self.alloc
    }

    /// A list of no changes.
    pub fn changes(&mut self) -> Vec<Change>
        ensures { result.items ≡ [] }
    {
        let mut changes = replace(&mut self.changes, Vec::new(self.alloc));
        changes.clear();
        changes
    }

    /// A list of this change.
    pub fn change(&mut self, change: Change) -> Result<Vec<Change>, AllocError>
        ensures { IfOk result (λ v. v.items ≡ change ∷ []) }
    {
        let mut changes = self.changes();
        changes.push(change)?;
        Ok(changes)
    }

    /// A list of both changes.
    pub fn both(&mut self, first: Change, second: Change) -> Result<Vec<Change>, AllocError>
        ensures { IfOk result (λ v. v.items ≡ first ∷ second ∷ []) }
    {
        let mut changes = self.changes();
        changes.push(first)?;
        changes.push(second)?;
        Ok(changes)
    }

    /// A list in which nothing is pending.
    pub fn nothing(&mut self) -> Vec<Item>
        ensures { result.items ≡ [] }
    {
        let mut pending = replace(&mut self.pending, Vec::new(self.alloc));
        pending.clear();
        pending
    }

    /// A list in which this item is pending.
    pub fn item(&mut self, item: Item) -> Result<Vec<Item>, AllocError>
        ensures { IfOk result (λ v. v.items ≡ item ∷ []) }
    {
        let mut pending = self.nothing();
        pending.push(item)?;
        Ok(pending)
    }

    /// The work list, with whatever the last operation left.
    pub fn work(&mut self) -> &mut VecDeque<Item> {
        &mut self.work
    }

    /// Takes the lists of a plan back, where their own places are empty.
    #[inline(always)]
    pub fn give_back(&mut self, changes: Vec<Change>, pending: Vec<Item>) {
        if self.changes.capacity() == 0 {
            self.changes = changes;
        }
        if self.pending.capacity() == 0 {
            self.pending = pending;
        }
    }
}
