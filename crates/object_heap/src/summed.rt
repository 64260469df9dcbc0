//! A map with a sum over what stands in it, by which most maps that differ are told apart.
ghost use Rattle.std.specs.Prelude.{◌≡◌, ◌↔◌, IfOk, OnOk, OnErr, IsTrue};
ghost use Rattle.std.specs.Option.{option_copied};
ghost use Rattle.std.specs.FinMap as map;

use crate::weight::{Weigh, added};
use share_tree::ShareTree;
use std::alloc::{AllocError, Global};
use std::marker::Model;
use trace_types::same::Same;

/// A persistent map from `u32`. Contracts see it as a finite map.
///
/// It also keeps a sum, to which each entry adds a number of its own: equal maps have equal sums, however they came about, and others
/// have different ones, but for a rare chance. No clause speaks of the sum: it is a hint, which saves a walk.
pub struct Summed<V: Drop> {
    entries: ShareTree<V>,
    sum: u64,
}

impl<V: Drop> Model for Summed<V> {
    ghost use Rattle.std.specs.Ordering.{nat_cmp};
    ghost use Rattle.std.specs.FinMap as map;
    ghost use Rattle.std.specs.Coded.{coded_ℕ};

    ghost Value = { map.FinMap nat_cmp V };

    ghost coded = { map.code coded_ℕ V.code };

    ghost view = { λ s. s.entries };
}

impl<V: Drop> Drop for Summed<V> {
    fn drop(self) {
        let Summed { entries: _, sum: _ } = self;
    }
}

impl<V: Drop + Weigh> Summed<V> {
    /// A map with no entries. Takes no memory.
    pub fn empty() -> Self
        ensures { result ≡ map.empty }
    {
        Summed {
            entries: ShareTree::empty(),
            sum: 0,
        }
    }

    /// The same again, whose nodes both have. Fails only where a node has as many owners as can be counted.
    pub fn share(&self) -> Result<Self, AllocError>
        ensures { IfOk result (λ s. s ≡ self.now) }
    {
        Ok(Summed {
            entries: self.entries.share()?,
            sum: self.sum,
        })
    }

    /// The value of a key.
    pub fn get(&self, key: u32) -> Option<&V>
        ensures { option_copied result ≡ map.get self.now key }
    {
        self.entries.get(key)
    }

    /// The keys, rising.
    pub fn keys(&self, alloc: Global) -> Result<Vec<u32>, AllocError>
        ensures { IfOk result (λ v. v.items ≡ map.keys self.now) }
    {
        self.entries.keys(alloc)
    }

    /// Adds an entry, or replaces the value of its key. `part` is what the key's entry added to the sum.
    pub fn replace(
        &mut self,
        alloc: Global,
        key: u32,
        part: u64,
        value: V,
    ) -> Result<(), AllocError>
        ensures ok { OnOk result (self.new ≡ map.insert self.old key value) }
        ensures err { OnErr result (self.new ≡ self.old) }
    {
        let rest = self.sum.wrapping_sub(part);
        let sum = rest.wrapping_add(added(key, Some(&value)));
        self.entries.insert(alloc, key, value)?;
        self.sum = sum;
        Ok(())
    }

    /// Takes out the entry of a key, if there is one. `part` is what it added to the sum.
    pub fn take(&mut self, alloc: Global, key: u32, part: u64) -> Result<(), AllocError>
        ensures ok { OnOk result (self.new ≡ map.remove self.old key) }
        ensures err { OnErr result (self.new ≡ self.old) }
    {
        let rest = self.sum.wrapping_sub(part);
        self.entries.remove(alloc, key)?;
        self.sum = rest;
        Ok(())
    }

    /// Whether both have the same entries.
    pub fn same(&self, other: &Self) -> bool
    where
        V: Same,
        ensures { IsTrue result ↔ (self.now ≡ other.now) }
    {
        self.entries.same(&other.entries)
    }

    /// A number that equal maps have in common.
    pub fn sum(&self) -> u64 {
        self.sum
    }
}
