//! Objects that are to go and others that come, and what of them differs.
ghost use Rattle.std.specs.Prelude.{◌≡◌, ◌↔◌, [], IfOk, OnOk, IsTrue};
ghost use Rattle.ownership_model.specs.State.{IsSound};
ghost use Rattle.ownership_model.specs.Patch.{patched, AreBoth};
ghost use Rattle.object_heap.specs.Exchange.{AreWithinLimits};
ghost use Rattle.agreement.specs.Trimmed.{nothing, without_number, IsSameAt, IsTrimmed};

use crate::merged::{replaced_by, with_missing, without_all};
use object_heap::Heap;
use ownership_model::remaining::Remaining;
use share_tree::ShareTree;
use std::alloc::{AllocError, Global};
use std::marker::Model;
use trace_types::same::Same;

/// Objects that are to go, and those that come in their place, which are within the limits.
#[derive(Drop)]
pub struct Exchange {
    removed: ShareTree<Remaining>,
    added: ShareTree<Remaining>,
}

impl Model for Exchange {
    ghost use Rattle.ownership_model.specs.Patch as patch;
    ghost use Rattle.object_heap.specs.Exchange.{AreWithinLimits};
    ghost use Rattle.agreement.specs.RemainsCode.{remains_code};

    ghost Value = { patch.Remains };

    ghost coded = { remains_code };

    ghost view = { λ x. record { removed = x.removed; added = x.added } };

    ghost invariant = { λ x. AreWithinLimits x.added };
}

impl Exchange {
    /// What is to go, and what comes.
    pub fn new(removed: ShareTree<Remaining>, added: ShareTree<Remaining>) -> Exchange
        requires { AreWithinLimits added }
        ensures { result ≡ record { removed = removed; added = added } }
    {
        Exchange { removed, added }
    }

    /// What is to go.
    pub fn removed(&self) -> &ShareTree<Remaining>
        ensures { result.now ≡ self.now.removed }
    {
        &self.removed
    }

    /// What comes.
    pub fn added(&self) -> &ShareTree<Remaining>
        ensures { result.now ≡ self.now.added }
    {
        &self.added
    }

    /// Whether nothing goes and nothing comes.
    pub fn is_nothing(&self) -> bool
        ensures { IsTrue result ↔ (self.now ≡ nothing) }
    {
        self.removed.len() == 0 && self.added.len() == 0
    }

    /// A heap with the exchange made in it. The result is to be sound. What the heap alone holds is changed in place.
    pub fn made_in(&self, alloc: Global, heap: Heap) -> Result<Heap, AllocError>
        requires { IsSound (patched heap self.now) [] }
        ensures { IfOk result (λ h. h ≡ patched heap self.now) }
    {
        heap.exchanged(alloc, &self.removed, &self.added)
    }

    /// The exchange without each object that is the same on both sides. It shares what is left.
    pub fn trimmed(&self, alloc: Global) -> Result<Exchange, AllocError>
        ensures { IfOk result (λ x. IsTrimmed self.now x) }
    {
        let mut rest = self.share()?;
        let objects = self.removed.keys(alloc)?;
        for object in &objects {
            if self.is_same_at(*object) {
                rest.leave_out(alloc, *object)?;
            }
        }
        Ok(rest)
    }

    /// The exchange and then another, as one that makes the same. It shares what it has with the first: the work is that of the other.
    pub fn then(&self, alloc: Global, next: &Exchange) -> Result<Exchange, AllocError>
        ensures { IfOk result (λ x. AreBoth self.now next.now x) }
    {
        let removed = with_missing(alloc, &self.removed, &next.removed)?;
        let stays = without_all(alloc, &self.added, &next.removed)?;
        let added = replaced_by(alloc, &stays, &next.added)?;
        Ok(Exchange { removed, added })
    }

    fn share(&self) -> Result<Exchange, AllocError>
        ensures { IfOk result (λ x. x ≡ self.now) }
    {
        Ok(Exchange {
            removed: self.removed.share()?,
            added: self.added.share()?,
        })
    }

    // Whether what goes of an object comes again.
    fn is_same_at(&self, object: u32) -> bool
        ensures { IsTrue result ↔ IsSameAt self.now object }
    {
        match (self.removed.get(object), self.added.get(object)) {
            (Some(old), Some(new)) => new.entry.same(&old.entry),
            (None, None) => true,
            (Some(_), None) | (None, Some(_)) => false,
        }
    }

    // Where memory runs out the exchange is unspecified: let it go.
    fn leave_out(&mut self, alloc: Global, object: u32) -> Result<(), AllocError>
        ensures { OnOk result (self.new ≡ without_number self.old object) }
    {
        self.removed.remove(alloc, object)?;
        self.added.remove(alloc, object)
    }
}
