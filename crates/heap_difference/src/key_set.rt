//! Sets of keys.
ghost use Rattle.std.specs.Prelude.{◌≡◌, ◌==◌, ◌||◌, ◌+◌, ◌-◌, ◌^◌, ◌↔◌, ◌∷◌, [], ℕ, true, IfOk, OnOk, IsTrue, length, min};
ghost use Rattle.ownership_model.specs.Reach.{has};
ghost use Rattle.heap_difference.specs.KeySets.{nothing, is_among, set_of, set_of_lists, meet, Has};

use crate::numbers::Numbers;
use ownership_model::Key;
use std::alloc::{AllocError, Global};

/// A set of keys: the handles, the cells, the objects, and the labels of scopes that are in it.
#[derive(Drop)]
pub struct KeySet {
    pub handles: Numbers,
    pub cells: Numbers,
    pub objects: Numbers,
    pub labels: Numbers,
}

impl KeySet {
    /// No key. Takes no memory.
    pub fn none(alloc: Global) -> KeySet
        ensures { result ≡ nothing }
    {
        KeySet {
            handles: Numbers::none(alloc),
            cells: Numbers::none(alloc),
            objects: Numbers::none(alloc),
            labels: Numbers::none(alloc),
        }
    }

    /// The keys of a list, which may come in any order and more than once, as a replay tells them. The list is gone through once.
    pub fn of(alloc: Global, keys: &[Key]) -> Result<KeySet, AllocError>
        ensures { IfOk result (λ d. Has d keys.now) }
    {
        let mut lists = Lists::none(alloc);
        lists.add(keys)?;
        Ok(lists.into_set())
    }

    /// How many keys it has, or the greatest number there is if they are more.
    pub fn len(&self) -> usize
        ensures { result ≡ min (length self.now.handles + length self.now.cells
            + length self.now.objects + length self.now.labels) (2 ^ 64 - 1) }
    {
        self.handles
            .len()
            .saturating_add(self.cells.len())
            .saturating_add(self.objects.len())
            .saturating_add(self.labels.len())
    }

    /// Whether the key is in the set. The work grows with the logarithm of how many it has of the kind.
    #[inline(always)]
    pub fn has(&self, key: Key) -> bool
        ensures { result ≡ is_among self.now key }
    {
        match key {
            Key::Handle(number) => self.handles.has(number),
            Key::Cell(number) => self.cells.has(number),
            Key::Object(number) => self.objects.has(number),
            Key::Scope(number) => self.labels.has(number),
        }
    }

    /// Whether all keys of another set are in this one. Each is looked up, until one isn't there.
    pub fn has_all(&self, other: &KeySet) -> bool
        ensures { IsTrue result
            ↔ ((x : Key) → is_among other.now x ≡ true → is_among self.now x ≡ true) }
    {
        self.handles.has_all(&other.handles)
            && self.cells.has_all(&other.cells)
            && self.objects.has_all(&other.objects)
            && self.labels.has_all(&other.labels)
    }

    /// Whether any key of a list is in the set. The list is gone through once, and each of its keys is looked up in the set.
    pub fn touches(&self, keys: &[Key]) -> bool
        ensures { result ≡ meet self.now (set_of keys.now) }
    {
        for key in keys {
            if self.has(*key) {
                return true;
            }
        }
        false
    }

    /// The keys of both.
    pub fn joined(&self, alloc: Global, other: &KeySet) -> Result<KeySet, AllocError>
        ensures { IfOk result (λ d. (x : Key) →
            is_among d x ≡ (is_among self.now x || is_among other.now x)) }
    {
        Ok(KeySet {
            handles: self.handles.joined(alloc, &other.handles)?,
            cells: self.cells.joined(alloc, &other.cells)?,
            objects: self.objects.joined(alloc, &other.objects)?,
            labels: self.labels.joined(alloc, &other.labels)?,
        })
    }
}

// The numbers of keys, kind by kind, in any order and perhaps more than once.
#[derive(Drop)]
struct Lists {
    handles: Vec<u32>,
    cells: Vec<u32>,
    objects: Vec<u32>,
    labels: Vec<u32>,
}

impl Lists {
    fn none(alloc: Global) -> Lists
        ensures { set_of_lists result ≡ nothing }
    {
        Lists {
            handles: Vec::new(alloc),
            cells: Vec::new(alloc),
            objects: Vec::new(alloc),
            labels: Vec::new(alloc),
        }
    }

    // Adds the number of each key to those of its kind.
    fn add(&mut self, keys: &[Key]) -> Result<(), AllocError>
        ensures { OnOk result ((x : Key) → is_among (set_of_lists self.new) x
            ≡ (is_among (set_of_lists self.old) x || is_among (set_of keys.now) x)) }
    {
        for key in keys {
            self.push(*key)?;
        }
        Ok(())
    }

    fn push(&mut self, key: Key) -> Result<(), AllocError>
        ensures { OnOk result ((x : Key) → is_among (set_of_lists self.new) x
            ≡ (is_among (set_of_lists self.old) x || is_among (set_of (key ∷ [])) x)) }
    {
        match key {
            Key::Handle(number) => push_next(&mut self.handles, number),
            Key::Cell(number) => push_next(&mut self.cells, number),
            Key::Object(number) => push_next(&mut self.objects, number),
            Key::Scope(number) => push_next(&mut self.labels, number),
        }
    }

    fn into_set(self) -> KeySet
        ensures { (x : Key) → is_among result x ≡ is_among (set_of_lists self) x }
    {
        KeySet {
            handles: Numbers::of(self.handles),
            cells: Numbers::of(self.cells),
            objects: Numbers::of(self.objects),
            labels: Numbers::of(self.labels),
        }
    }
}

// Pushes a number, unless it is the last one already: a replay tells many keys twice in a row.
fn push_next(numbers: &mut Vec<u32>, number: u32) -> Result<(), AllocError>
    ensures { OnOk result ((q : ℕ) →
        has q numbers.new.items ≡ (has q numbers.old.items || number == q)) }
{
    if numbers.last().copied() == Some(number) {
        return Ok(());
    }
    Ok(numbers.push(number)?)
}
