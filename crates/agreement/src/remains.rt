//! What two heaps that agree have for themselves, and a later heap with it exchanged.
ghost use Rattle.std.specs.Prelude.{◌≡◌, ◌↔◌, [], IfOk, IsTrue};
ghost use Rattle.std.specs.Arc.{arc_value};
ghost use Rattle.ownership_model.specs.State.{State, IsSound};
ghost use Rattle.ownership_model.specs.Patch.{patched, AreThere};
ghost use Rattle.object_heap.specs.Exchange.{AreWithinLimits};
ghost use Rattle.agreement.specs.Trimmed.{AreTheSame, IsTrimmed};

use crate::exchange::Exchange;
use object_heap::Heap;
use ownership_model::remaining::Remaining;
use share_tree::ShareTree;
use std::alloc::{AllocError, Global};
use std::marker::Model;
use std::sync::Arc;

/// Objects that can't be reached: those of an old heap, which are to go, and those of a new one, which come. They need not be all that
/// can't be reached, but those at which the two heaps differ are among them.
///
/// Beside all of them they keep those that differ, over the same nodes: only these are exchanged, and a checkpoint shares these alone.
#[derive(Drop)]
pub struct Remains {
    all: Exchange,
    differing: Arc<Exchange>,
}

impl Model for Remains {
    ghost use Rattle.std.specs.Arc.{arc_value};
    ghost use Rattle.ownership_model.specs.Patch as patch;
    ghost use Rattle.agreement.specs.RemainsCode.{remains_code};
    ghost use Rattle.agreement.specs.Trimmed.{IsTrimmed};

    ghost Value = { patch.Remains };

    ghost coded = { remains_code };

    ghost view = { λ r. r.all };

    ghost invariant = { λ r. IsTrimmed r.all (arc_value r.differing) };
}

impl Remains {
    /// What of an old heap is to go, and what comes in its place.
    pub fn new(
        alloc: Global,
        removed: ShareTree<Remaining>,
        added: ShareTree<Remaining>,
    ) -> Result<Remains, AllocError>
        requires { AreWithinLimits added }
        ensures { IfOk result (λ r. r ≡ record { removed = removed; added = added }) }
    {
        let all = Exchange::new(removed, added);
        let differing = Arc::new(alloc, all.trimmed(alloc)?)?;
        Ok(Remains { all, differing })
    }

    /// What is to go of the old heap, with its counts.
    pub fn removed(&self) -> &ShareTree<Remaining>
        ensures { result.now ≡ self.now.removed }
    {
        self.all.removed()
    }

    /// What comes of the new heap, with its counts.
    pub fn added(&self) -> &ShareTree<Remaining>
        ensures { result.now ≡ self.now.added }
    {
        self.all.added()
    }

    /// Whether what is to go and what comes are the same objects. Then a patch gives the same heap again.
    pub fn changes_nothing(&self) -> bool
        ensures answer { IsTrue result ↔ AreTheSame self.now }
        ensures patch { IsTrue result → (m : State) → AreThere m self.now → patched m self.now ≡ m }
    {
        self.differing.is_nothing()
    }

    /// Those that differ, which make the same patch. Checkpoints share them.
    pub fn differing(&self) -> &Arc<Exchange>
        ensures less { IsTrimmed self.now (arc_value result.now) }
        ensures patch { (m : State) → AreThere m self.now →
            patched m (arc_value result.now) ≡ patched m self.now }
    {
        &self.differing
    }
}

/// A later heap of the old replay, made one of the new replay. The later heap stays as it is.
///
/// The work is that of what differs in the remains, and not of the heap: what stays is shared. Where nothing differs the heap is
/// shared as it is, and no memory is taken.
pub fn patch(alloc: Global, later: &Heap, remains: &Remains) -> Result<Heap, AllocError>
    requires sound { IsSound (patched later.now remains.now) [] }
    requires there { AreThere later.now remains.now }
    ensures { IfOk result (λ h. h ≡ patched later.now remains.now) }
{
    remains.differing().made_in(alloc, later.share()?)
}
