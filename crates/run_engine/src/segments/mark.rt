//! A checkpoint or an anchor of a run, which is made when its heap is asked for.
ghost use Rattle.std.specs.Prelude.{◌≡◌, IfOk};
ghost use Rattle.std.specs.Option.{option_copied};
ghost use Rattle.agreement.specs.Laid.{with_laid, IsSoundWith};

use crate::segments::kept::Kept;
use crate::segments::laid::made_in;
use agreement::Exchange;
use object_heap::Heap;
use std::alloc::{AllocError, Global};
use std::marker::Model;

/// A heap that is kept, beside what is to be exchanged in it, if anything is. Contracts see the heap that it stands for.
#[derive(Drop)]
pub struct Mark<'a> {
    kept: Kept<'a>,
    laid: Option<&'a Exchange>,
}

impl<'a> Model for Mark<'a> {
    ghost use Rattle.std.specs.Option.{option_copied};
    ghost use Rattle.ownership_model.specs.State.{State};
    ghost use Rattle.object_heap.specs.StateCode.{state_code};
    ghost use Rattle.agreement.specs.Laid.{with_laid, IsSoundWith};

    ghost Value = { State };

    ghost coded = { state_code };

    ghost view = { λ m. with_laid (option_copied m.laid) m.kept };

    ghost invariant = { λ m. IsSoundWith (option_copied m.laid) m.kept };
}

impl<'a> Mark<'a> {
    /// A heap that is kept, with an exchange made if there is one, which leaves it sound.
    pub fn new(kept: Kept<'a>, laid: Option<&'a Exchange>) -> Self
        requires { IsSoundWith (option_copied laid) kept }
        ensures { result ≡ with_laid (option_copied laid.entry) kept.entry }
    {
        Mark { kept, laid }
    }

    /// The heap that it stands for. Takes memory only where something is laid over it, or exchanged.
    pub fn heap(&self, alloc: Global) -> Result<Heap, AllocError>
        ensures { IfOk result (λ h. h ≡ self.now) }
    {
        let heap = self.kept.heap(alloc)?;
        made_in(alloc, self.laid, heap)
    }
}
