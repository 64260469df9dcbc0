//! A heap that is kept as it is, or as an older one with layers over it.
ghost use Rattle.std.specs.Prelude.{◌≡◌, IfOk};
ghost use Rattle.run_engine.specs.inner.Layered.{with_all, AreLaid};

use crate::segments::cover::Cover;
use object_heap::Heap;
use std::alloc::{AllocError, Global};
use std::marker::Model;

/// A heap that is kept, beside the layers that are laid over it when the heap is asked for. Both stand elsewhere: many may share
/// a layer. Contracts see the heap that it stands for.
#[derive(Drop)]
pub struct Kept<'a> {
    base: &'a Heap,
    cover: &'a Cover,
}

impl<'a> Model for Kept<'a> {
    ghost use Rattle.ownership_model.specs.State.{State};
    ghost use Rattle.object_heap.specs.StateCode.{state_code};
    ghost use Rattle.run_engine.specs.inner.Layered.{with_all, AreLaid};

    ghost Value = { State };

    ghost coded = { state_code };

    ghost view = { λ k. with_all k.cover.now k.base.now };

    ghost invariant = { λ k. AreLaid k.cover.now k.base.now };
}

impl<'a> Kept<'a> {
    /// A heap under what is laid over it, if anything is.
    pub fn new(base: &'a Heap, cover: &'a Cover) -> Self
        requires { AreLaid cover.now base.now }
        ensures { result ≡ with_all cover.entry.now base.entry.now }
    {
        Kept { base, cover }
    }

    /// The heap that it stands for. Takes memory only where something is laid over it.
    pub fn heap(&self, alloc: Global) -> Result<Heap, AllocError>
        ensures { IfOk result (λ h. h ≡ self.now) }
    {
        let heap = self.base.share()?;
        self.cover.laid(alloc, heap)
    }
}
