//! What is laid over the heaps of a segment.
ghost use Rattle.std.specs.Prelude.{◌≡◌, ◌++◌, ◌∷◌, [], true, IfOk, IfSome, IsTrue};
ghost use Rattle.std.specs.Arc.{arc_value};
ghost use Rattle.std.specs.Option.{option_map};
ghost use Rattle.ownership_model.specs.declared.key.Key.{Key};
ghost use Rattle.heap_difference.specs.KeySets.{is_among};
ghost use Rattle.run_engine.specs.inner.Layered.{with_all, stacked, covering, AreLaid, IsWithin, AreWithin, IsOver};

use crate::segments::layers::Layers;
use crate::segments::over::Over;
use agreement::Exchange;
use heap_difference::{KeySet, Layer};
use object_heap::Heap;
use std::alloc::{AllocError, Global};
use std::marker::Model;
use std::sync::Arc;

/// Layers that lie over a heap, one over the other, each with what is exchanged below it. Contracts see the list of them, the lowest first.
///
/// The last one stands by itself: so another one in its place takes no memory.
#[derive(Drop)]
pub struct Cover {
    lower: Option<Arc<Layers>>,
    top: Option<Over>,
}

impl Model for Cover {
    ghost use Rattle.std.specs.Prelude.{List};
    ghost use Rattle.std.specs.Coded.{coded_list};
    ghost use Rattle.std.specs.Arc.{arc_value};
    ghost use Rattle.std.specs.Option.{option_map};
    ghost use Rattle.run_engine.specs.inner.Layered.{OverView, over_code, covering};

    ghost Value = { List OverView };

    ghost coded = { coded_list over_code };

    ghost view = { λ c. covering (option_map arc_value c.lower) c.top };
}

impl Cover {
    /// No layer.
    pub fn nothing() -> Self
        ensures { result ≡ [] }
    {
        Cover {
            lower: None,
            top: None,
        }
    }

    /// The same layers, which are shared.
    pub fn share(&self) -> Result<Self, AllocError>
        ensures { IfOk result (λ c. c ≡ self.now) }
    {
        Ok(Cover {
            lower: shared_layers(&self.lower)?,
            top: shared_layer(&self.top)?,
        })
    }

    /// A heap with all of them laid over it. The work is that of their keys, and of what is exchanged.
    pub fn laid(&self, alloc: Global, heap: Heap) -> Result<Heap, AllocError>
        requires { AreLaid self.now heap }
        ensures { IfOk result (λ h. h ≡ with_all self.now heap) }
    {
        let below = with_lower(alloc, &self.lower, heap)?;
        match &self.top {
            None => Ok(below),
            Some(layer) => {
                let laid = layer.laid(alloc, below)?;
                Ok(laid)
            }
        }
    }

    /// These layers with another one over them, below which something is exchanged, if anything is. If nothing is it comes in place of all if it lays all that
    /// they do, or else of the last one if it lays what that does. None if none can go, and they would be too many or have too many keys.
    pub fn under(
        &self,
        alloc: Global,
        exchange: &Option<Arc<Exchange>>,
        layer: &Arc<Layer>,
    ) -> Result<Option<Self>, AllocError>
        ensures { IfOk result (λ o. IfSome o (IsOver self.now
            (option_map arc_value exchange.now) (arc_value layer.now))) }
    {
        let top = Over::of(exchange, layer)?;
        if exchange.is_some() || !is_within(&self.top, layer) {
            return self.with_top(alloc, top);
        }
        if are_within(&self.lower, layer) {
            return Ok(Some(Cover {
                lower: None,
                top: Some(top),
            }));
        }
        Ok(Some(Cover {
            lower: shared_layers(&self.lower)?,
            top: Some(top),
        }))
    }

    // These layers with another one over them, if they aren't too many then.
    fn with_top(&self, alloc: Global, layer: Over) -> Result<Option<Self>, AllocError>
        ensures { IfOk result (λ o. IfSome o (λ c. c ≡ self.now ++ layer ∷ [])) }
    {
        let Some(lower) = self.lowered(alloc, layer.work())? else {
            return Ok(None);
        };
        Ok(Some(Cover {
            lower,
            top: Some(layer),
        }))
    }

    // All of them as lower ones, if another one may lie over them that has so much to lay and to exchange.
    fn lowered(&self, alloc: Global, work: usize) -> Result<Option<Option<Arc<Layers>>>, AllocError>
        ensures { IfOk result (λ o. IfSome o (λ l. stacked (option_map arc_value l) ≡ self.now)) }
    {
        let Some(top) = &self.top else {
            return Ok(Some(shared_layers(&self.lower)?));
        };
        let all = match &self.lower {
            None => Layers::of(alloc, top)?,
            Some(lower) => {
                if !lower.have_room(top, work) {
                    return Ok(None);
                }
                lower.and(alloc, top)?
            }
        };
        Ok(Some(Some(Arc::new(alloc, all)?)))
    }

    /// Whether one of them lays an object. It is a hint.
    pub fn has_object(&self, object: u32) -> bool {
        let below = match &self.lower {
            None => false,
            Some(lower) => lower.have_object(object),
        };
        let above = match &self.top {
            None => false,
            Some(top) => top.keys().objects.has(object),
        };
        below || above
    }

    /// The keys that a layer is to have so that it can lie over these and has the given ones: these alone, or with them the keys of all layers, in
    /// whose place it is then, where they would be too many or have too many keys.
    pub fn wanted(&self, alloc: Global, keys: &KeySet) -> Result<KeySet, AllocError>
        ensures { IfOk result (λ d. (x : Key) →
            is_among keys.now x ≡ true → is_among d x ≡ true) }
    {
        let (Some(lower), Some(top)) = (&self.lower, &self.top) else {
            return keys.joined(alloc, &KeySet::none(alloc));
        };
        if keys.has_all(top.keys()) || lower.have_room(top, keys.len()) {
            return keys.joined(alloc, &KeySet::none(alloc));
        }
        let more = keys.joined(alloc, top.keys())?;
        let all = lower.with_keys(alloc, more)?;
        Ok(all)
    }
}

// A heap with the lower layers laid over it, if there are any.
fn with_lower(alloc: Global, lower: &Option<Arc<Layers>>, heap: Heap) -> Result<Heap, AllocError>
    requires { AreLaid (stacked (option_map arc_value lower.now)) heap }
    ensures { IfOk result
        (λ h. h ≡ with_all (stacked (option_map arc_value lower.now)) heap) }
{
    match lower {
        None => Ok(heap),
        Some(layers) => layers.laid(alloc, heap),
    }
}

// The layers once more.
fn shared_layers(layers: &Option<Arc<Layers>>) -> Result<Option<Arc<Layers>>, AllocError>
    ensures { IfOk result (λ l. option_map arc_value l ≡ option_map arc_value layers.now) }
{
    match layers {
        None => Ok(None),
        Some(layers) => Ok(Some(Arc::try_clone(layers)?)),
    }
}

// The layer once more.
fn shared_layer(layer: &Option<Over>) -> Result<Option<Over>, AllocError>
    ensures { IfOk result (λ l. l ≡ layer.now) }
{
    match layer {
        None => Ok(None),
        Some(layer) => Ok(Some(layer.share()?)),
    }
}

// Whether all that a layer lays, if there is one, is laid by another, and nothing is exchanged below it.
fn is_within(layer: &Option<Over>, other: &Layer) -> bool
    ensures { IsTrue result → IsWithin layer.now other.now }
{
    match layer {
        None => true,
        Some(layer) => layer.is_within(other),
    }
}

// Whether all that the layers lay, if there are any, is laid by another, and nothing is exchanged below one of them.
fn are_within(layers: &Option<Arc<Layers>>, layer: &Layer) -> bool
    ensures { IsTrue result → AreWithin (stacked (option_map arc_value layers.now)) layer.now }
{
    match layers {
        None => true,
        Some(layers) => layers.are_within(layer),
    }
}
