//! What is laid over a block.
ghost use Rattle.std.specs.Prelude.{◌≡◌, IfOk};
ghost use Rattle.std.specs.Arc.{arc_value};
ghost use Rattle.std.specs.Option.{option_copied, option_map};
ghost use Rattle.agreement.specs.Laid.{with_laid, IsSoundWith};
ghost use Rattle.run_engine.specs.inner.Blocks.{IsBoth};

use agreement::{Exchange, Remains};
use object_heap::Heap;
use std::alloc::{AllocError, Global};
use std::sync::Arc;

/// What is exchanged, where it stands.
pub fn laid_in(laid: &Option<Arc<Exchange>>) -> Option<&Exchange>
    ensures { option_copied result ≡ option_map arc_value laid.now }
{
    match laid {
        None => None,
        Some(exchange) => Some(exchange),
    }
}

/// How many objects go and come where something is exchanged: so much is done each time it is made.
pub fn exchanged(laid: &Option<Arc<Exchange>>) -> usize {
    match laid {
        None => 0,
        Some(exchange) => {
            let len = exchange
                .removed()
                .len()
                .saturating_add(exchange.added().len());
            len as usize
        }
    }
}

/// A heap with the exchange made in it, if there is one.
pub fn made_in(alloc: Global, laid: Option<&Exchange>, heap: Heap) -> Result<Heap, AllocError>
    requires { IsSoundWith (option_copied laid) heap }
    ensures { IfOk result (λ h. h ≡ with_laid (option_copied laid.entry) heap) }
{
    match laid {
        None => Ok(heap),
        Some(exchange) => exchange.made_in(alloc, heap),
    }
}

/// The same once more.
pub fn shared(laid: &Option<Arc<Exchange>>) -> Result<Option<Arc<Exchange>>, AllocError>
    ensures { IfOk result (λ l. option_map arc_value l ≡ option_map arc_value laid.now) }
{
    match laid {
        None => Ok(None),
        Some(exchange) => Ok(Some(Arc::try_clone(exchange)?)),
    }
}

/// What is laid over a block, and then what differs in the remains, as one exchange.
pub fn both(
    alloc: Global,
    laid: &Option<Arc<Exchange>>,
    remains: &Remains,
) -> Result<Arc<Exchange>, AllocError>
    ensures { IfOk result (λ x. IsBoth (option_map arc_value laid.now) remains.now (arc_value x)) }
{
    let next = remains.differing();
    match laid {
        None => Ok(Arc::try_clone(next)?),
        Some(exchange) => Ok(Arc::new(alloc, exchange.then(alloc, next)?)?),
    }
}
