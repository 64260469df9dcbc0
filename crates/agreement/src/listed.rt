//! Objects in the order in which they were listed, each once.
ghost use Rattle.std.specs.Prelude.{◌≡◌, ◌++◌, ◌∷◌, [], ℕ, true, get_or, length, OnOk, IsTrue};
ghost use Rattle.ownership_model.specs.Reach.{has};
ghost use Rattle.agreement.specs.Joining.{IsListed};

use std::alloc::{AllocError, Global};
use std::collections::BTreeSet;
use std::marker::Model;

/// A list of objects that knows its members, so that none joins twice. Contracts see the list.
#[derive(Drop)]
pub struct Listed {
    objects: Vec<u32>,
    members: BTreeSet<u32>,
    // among so many an object that is the same in both heaps joins, too
    near: usize,
}

impl Model for Listed {
    ghost use Rattle.std.specs.Prelude.{List, ℕ};
    ghost use Rattle.std.specs.Coded.{coded_list, coded_ℕ};
    ghost use Rattle.agreement.specs.Joining.{AreListed};

    ghost Value = { List ℕ };

    ghost coded = { coded_list coded_ℕ };

    ghost view = { λ l. l.objects.items };

    ghost invariant = { λ l. AreListed l.members l.objects.items };
}

impl Listed {
    /// No object. While fewer than `near` are listed others are near them. Takes no memory.
    pub fn none(alloc: Global, near: usize) -> Listed
        ensures { result ≡ [] }
    {
        Listed {
            objects: Vec::new(alloc),
            members: BTreeSet::new(alloc),
            near,
        }
    }

    /// Whether few objects are listed.
    pub fn is_near(&self) -> bool {
        self.objects.len() < self.near
    }

    /// The objects, where they stand.
    pub fn as_slice(&self) -> &[u32]
        ensures { result.now ≡ self.now }
    {
        self.objects.as_slice()
    }

    /// Takes no memory.
    pub fn into_vec(self) -> Vec<u32>
        ensures { result.items ≡ self }
    {
        let Listed {
            objects,
            members: _,
            near: _,
        } = self;
        objects
    }

    /// Whether the object was listed.
    pub fn has(&self, object: u32) -> bool
        ensures { IsTrue result → has object self.now ≡ true }
    {
        self.members.contains(&object)
    }

    /// The object joins at the end, unless it was listed.
    pub fn join(&mut self, object: u32) -> Result<(), AllocError>
        ensures { OnOk result (IsListed object self.old self.new) }
    {
        if !self.has(object) {
            self.objects.push(object)?;
            self.members.insert(object)?;
        }
        Ok(())
    }
}
