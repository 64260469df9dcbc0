//! A layer over a heap in which something is exchanged first, if anything is.
ghost use Rattle.std.specs.Prelude.{◌≡◌, IfOk, IsTrue};
ghost use Rattle.std.specs.Arc.{arc_value};
ghost use Rattle.std.specs.Option.{option_map};
ghost use Rattle.ownership_model.specs.declared.key.Key.{Key};
ghost use Rattle.heap_difference.specs.KeySets.{is_among};
ghost use Rattle.run_engine.specs.inner.Layered.{with_over, CanLie, IsCovered};

use crate::segments::laid::{exchanged, laid_in, made_in, shared};
use agreement::Exchange;
use heap_difference::{KeySet, Layer};
use object_heap::Heap;
use std::alloc::{AllocError, Global};
use std::marker::Model;
use std::sync::Arc;

/// A layer, beside what is exchanged in a heap before the layer is laid over it, if anything is. Many may share both.
#[derive(Drop)]
pub struct Over {
    exchange: Option<Arc<Exchange>>,
    layer: Arc<Layer>,
}

impl Model for Over {
    ghost use Rattle.std.specs.Arc.{arc_value};
    ghost use Rattle.std.specs.Option.{option_map};
    ghost use Rattle.run_engine.specs.inner.Layered.{OverView, over_code};

    ghost Value = { OverView };

    ghost coded = { over_code };

    ghost view = { λ o. record {
      below = option_map arc_value o.exchange;
      layer = arc_value o.layer;
    } };
}

impl Over {
    /// A layer, and what is exchanged before, which both are shared.
    pub fn of(exchange: &Option<Arc<Exchange>>, layer: &Arc<Layer>) -> Result<Self, AllocError>
        ensures { IfOk result (λ o. o ≡ record {
          below = option_map arc_value exchange.now;
          layer = arc_value layer.now;
        }) }
    {
        Ok(Over {
            exchange: shared(exchange)?,
            layer: Arc::try_clone(layer)?,
        })
    }

    /// The same once more.
    pub fn share(&self) -> Result<Self, AllocError>
        ensures { IfOk result (λ o. o ≡ self.now) }
    {
        Over::of(&self.exchange, &self.layer)
    }

    /// A heap with the exchange made in it, and the layer laid over that.
    pub fn laid(&self, alloc: Global, heap: Heap) -> Result<Heap, AllocError>
        requires { CanLie self.now heap }
        ensures { IfOk result (λ h. h ≡ with_over self.now heap) }
    {
        let below = made_in(alloc, laid_in(&self.exchange), heap)?;
        self.layer.laid(alloc, below)
    }

    /// Whether nothing is exchanged, and all that the layer lays is laid by another one.
    pub fn is_within(&self, layer: &Layer) -> bool
        ensures { IsTrue result → IsCovered self.now layer.now }
    {
        self.exchange.is_none() && layer.covers(&self.layer)
    }

    /// The keys of the layer.
    pub fn keys(&self) -> &KeySet
        ensures { result.now ≡ self.now.layer.keys }
    {
        self.layer.keys()
    }

    /// How many keys are laid, and how many objects go and come before: so much is done where a heap is asked for.
    pub fn work(&self) -> usize {
        self.keys().len().saturating_add(exchanged(&self.exchange))
    }
}
