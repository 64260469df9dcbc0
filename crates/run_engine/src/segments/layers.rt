//! Layers that are laid over a heap, one over the other.
ghost use Rattle.std.specs.Prelude.{◌≡◌, ◌++◌, ◌∷◌, [], true, IfOk, IsTrue};
ghost use Rattle.ownership_model.specs.declared.key.Key.{Key};
ghost use Rattle.heap_difference.specs.KeySets.{is_among};
ghost use Rattle.run_engine.specs.inner.Layered.{with_all, AreLaid, AreWithin};

use crate::segments::over::Over;
use heap_difference::{KeySet, Layer};
use object_heap::Heap;
use std::alloc::{AllocError, Global};
use std::marker::Model;

/// How many layers may lie under the last one.
const MOST_LAYERS: usize = 16;

/// How many keys they and the last one may have where another one comes over them, one counted for each layer that has it, and each object that goes or
/// comes below one: all are laid when the heap is asked for.
const MOST_KEYS: usize = 128;

/// Layers that lie over a heap, each with what is exchanged below it, the lowest first. Contracts see the list of them.
#[derive(Drop)]
pub struct Layers {
    items: Vec<Over>,
}

impl Model for Layers {
    ghost use Rattle.std.specs.Prelude.{List};
    ghost use Rattle.std.specs.Coded.{coded_list};
    ghost use Rattle.run_engine.specs.inner.Layered.{OverView, over_code};

    ghost Value = { List OverView };

    ghost coded = { coded_list over_code };

    ghost view = { λ l. l.items.items };
}

impl Layers {
    /// One layer alone.
    pub fn of(alloc: Global, layer: &Over) -> Result<Self, AllocError>
        ensures { IfOk result (λ l. l ≡ layer.now ∷ []) }
    {
        let mut items = Vec::new(alloc);
        items.push(layer.share()?)?;
        Ok(Layers { items })
    }

    /// A heap with all of them laid over it. The work is that of their keys, and of what is exchanged.
    pub fn laid(&self, alloc: Global, heap: Heap) -> Result<Heap, AllocError>
        requires { AreLaid self.now heap }
        ensures { IfOk result (λ h. h ≡ with_all self.now heap) }
    {
        let mut laid = heap;
        for i in 0..self.items.len() {
            laid = self.items[i].laid(alloc, laid)?;
        }
        Ok(laid)
    }

    /// These layers, which are shared, and another one over them.
    pub fn and(&self, alloc: Global, layer: &Over) -> Result<Self, AllocError>
        ensures { IfOk result (λ l. l ≡ self.now ++ layer.now ∷ []) }
    {
        let len = self.items.len();
        let mut items = Vec::with_capacity(alloc, len.saturating_add(1))?;
        for i in 0..len {
            items.push(self.items[i].share()?)?;
        }
        items.push(layer.share()?)?;
        Ok(Layers { items })
    }

    /// Whether a layer may lie over them, and then another one with so many keys and objects that go or come below it.
    pub fn have_room(&self, layer: &Over, work: usize) -> bool {
        let mut len = layer.work().saturating_add(work);
        for layer in &self.items {
            len = len.saturating_add(layer.work());
        }
        self.items.len() < MOST_LAYERS && len <= MOST_KEYS
    }

    /// Whether below none of them something is exchanged, and all that they lay is laid by another layer.
    pub fn are_within(&self, layer: &Layer) -> bool
        ensures { IsTrue result → AreWithin self.now layer.now }
    {
        for i in 0..self.items.len() {
            if !self.items[i].is_within(layer) {
                return false;
            }
        }
        true
    }

    /// Whether one of them lays an object. It is a hint.
    pub fn have_object(&self, object: u32) -> bool {
        for layer in &self.items {
            if layer.keys().objects.has(object) {
                return true;
            }
        }
        false
    }

    /// The keys, and those of all the layers.
    pub fn with_keys(&self, alloc: Global, keys: KeySet) -> Result<KeySet, AllocError>
        ensures { IfOk result (λ d. (x : Key) → is_among keys x ≡ true → is_among d x ≡ true) }
    {
        let mut all = keys;
        for layer in &self.items {
            all = all.joined(alloc, layer.keys())?;
        }
        Ok(all)
    }
}
