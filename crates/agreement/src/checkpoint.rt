//! A checkpoint of a replay: a heap that is kept as an older one, with what is to be exchanged in it.
ghost use Rattle.std.specs.Prelude.{◌≡◌, [], IfOk};
ghost use Rattle.ownership_model.specs.State.{IsSound};
ghost use Rattle.ownership_model.specs.Patch.{patched};

use crate::exchange::Exchange;
use object_heap::Heap;
use std::alloc::{AllocError, Global};
use std::marker::Model;

/// A heap of a replay, as it is or as an older one beside an exchange, which is made when the heap is asked for. Both stand
/// elsewhere: many checkpoints may share one exchange. Contracts see the heap that it stands for.
#[derive(Drop)]
pub struct Checkpoint<'a> {
    base: &'a Heap,
    laid: Option<&'a Exchange>,
}

impl<'a> Model for Checkpoint<'a> {
    ghost use Rattle.std.specs.Option.{option_copied};
    ghost use Rattle.ownership_model.specs.State.{State};
    ghost use Rattle.object_heap.specs.StateCode.{state_code};
    ghost use Rattle.agreement.specs.Laid.{with_laid, IsSoundWith};

    ghost Value = { State };

    ghost coded = { state_code };

    ghost view = { λ c. with_laid (option_copied c.laid) c.base.now };

    ghost invariant = { λ c. IsSoundWith (option_copied c.laid) c.base.now };
}

impl<'a> Checkpoint<'a> {
    /// A heap as it is.
    pub fn of(heap: &'a Heap) -> Self
        ensures { result ≡ heap.entry.now }
    {
        Checkpoint {
            base: heap,
            laid: None,
        }
    }

    /// A heap with an exchange made, which leaves it sound.
    pub fn under(heap: &'a Heap, exchange: &'a Exchange) -> Self
        requires { IsSound (patched heap.now exchange.now) [] }
        ensures { result ≡ patched heap.entry.now exchange.entry.now }
    {
        Checkpoint {
            base: heap,
            laid: Some(exchange),
        }
    }

    /// The heap that it stands for. Takes memory only where there is something to be exchanged.
    pub fn heap(&self, alloc: Global) -> Result<Heap, AllocError>
        ensures { IfOk result (λ h. h ≡ self.now) }
    {
        let heap = self.base.share()?;
        match self.laid {
            None => Ok(heap),
            Some(exchange) => exchange.made_in(alloc, heap),
        }
    }
}
