//! The objects of a heap with their counters, and from which rank on they are named by those of higher ranks alone.
ghost use Rattle.std.specs.Prelude.{◌≡◌, ◌↔◌, true, false, is_some, IfOk, OnOk, OnErr, IsTrue};
ghost use Rattle.std.specs.Option.{option_copied};
ghost use Rattle.std.specs.FinMap as map;
ghost use Rattle.trace_types.specs.declared.slots.Entry.TheVariants.{Husk};
ghost use Rattle.ownership_model.specs.Changes.{HasField, with_field};
ghost use Rattle.object_heap.specs.TableView.{counters_at, are_zero, kept_at, minus, plus, AreAmong, HasRoomFor, AreAlike, AllStand};
ghost use Rattle.object_heap.specs.Gains.{IsSetAt};
ghost use Rattle.object_heap.specs.Descent.{DescendTo, IsUnnamed};

use crate::counters::Counters;
use crate::object::Object;
use crate::ranks::{MAX_RANK, lower_from, rank_of, rank_over, slot_lower_from};
use crate::table::Table;
use crate::updates::SetField;
use share_tree::ShareTree;
use std::alloc::{AllocError, Global};
use std::marker::Model;
use trace_types::slots::{Entry, Slot};

/// The objects that stand, and how often each is named. Contracts see two finite maps.
///
/// It also keeps a rank from which on no field names an object of its own object's rank or a higher one. An object ranks by its
/// number, or higher, where it was made with a name of a later one: that rank is kept. The bound never falls.
pub struct Objects {
    table: Table,
    ranks: ShareTree<u64>,
    from: u64,
}

impl Model for Objects {
    ghost use Rattle.trace_types.specs.declared.slots.Entry.TheVariants.{Husk};
    ghost use Rattle.ownership_model.specs.Changes.{HasField, with_field};
    ghost use Rattle.object_heap.specs.TableView.{TableView, table_code};
    ghost use Rattle.object_heap.specs.Descent.{AreRanked};

    ghost Value = { TableView };

    ghost coded = { table_code };

    ghost view = { λ o. o.table };

    ghost invariant = { λ o. AreRanked o.ranks o.from o.table.entries };
}

impl Drop for Objects {
    fn drop(self) {
        let Objects {
            table: _,
            ranks: _,
            from: _,
        } = self;
    }
}

impl Objects {
    /// No object stands, and none is named.
    pub fn empty() -> Objects
        ensures { result ≡ record { entries = map.empty; counts = map.empty } }
    {
        Objects {
            table: Table::empty(),
            ranks: ShareTree::empty(),
            from: 0,
        }
    }

    /// The same again, whose nodes both have.
    pub fn share(&self) -> Result<Objects, AllocError>
        ensures { IfOk result (λ o. o ≡ self.now) }
    {
        Ok(Objects {
            table: self.table.share()?,
            ranks: self.ranks.share()?,
            from: self.from,
        })
    }

    /// Whether the object is among those that are named by objects of higher ranks alone.
    pub fn descend_to(&self, object: u32) -> bool
        ensures { result ≡ true → DescendTo self.now.entries object }
    {
        self.from <= rank_of(&self.ranks, object)
    }

    /// What stands for an object.
    pub fn get(&self, object: u32) -> Option<&Entry>
        ensures { option_copied result ≡ map.get self.now.entries object }
    {
        self.table.get(object)
    }

    /// What is kept for an object, if anything is.
    pub fn kept(&self, object: u32) -> Option<&Object>
        ensures { kept_at (option_copied result) ≡ (
          map.get self.now.entries object,
          counters_at (map.get self.now.counts object),
        ) }
    {
        self.table.kept(object)
    }

    /// What is kept for an object. It shares what stands, which is there while others change, and takes no memory.
    pub fn at(&self, object: u32) -> Result<Object, AllocError>
        ensures { IfOk result (λ x. x ≡ (
          map.get self.now.entries object,
          counters_at (map.get self.now.counts object),
        )) }
    {
        self.table.at(object)
    }

    /// The counters of an object; zeros where none are kept.
    pub fn counters(&self, object: u32) -> Counters
        ensures { result ≡ counters_at (map.get self.now.counts object) }
    {
        self.table.counters(object)
    }

    /// The numbers of those that stand, rising. All that are named do.
    pub fn keys(&self, alloc: Global) -> Result<Vec<u32>, AllocError>
        requires { AllStand self.now }
        ensures { IfOk result (λ v. v.items ≡ map.keys self.now.entries) }
    {
        self.table.keys(alloc)
    }

    /// Whether the same stands in both, and is named as often.
    pub fn same(&self, other: &Objects) -> bool
        ensures { IsTrue result ↔ AreAlike self.now other.now }
    {
        self.table.same(&other.table)
    }

    /// A number that is the same where the same stands.
    pub fn sum(&self) -> u64 {
        self.table.sum()
    }

    /// Something else stands for an object, or it comes to be. Its counters stay.
    pub fn insert(&mut self, alloc: Global, object: u32, entry: Entry) -> Result<(), AllocError>
        ensures ok { OnOk result (self.new ≡ record self.old {
          entries = map.insert self.old.entries object entry;
        }) }
        ensures err { OnErr result (self.new ≡ self.old) }
    {
        let rank = rank_of(&self.ranks, object);
        self.from = lower_from(&self.ranks, self.from, rank, &entry);
        self.table.insert(alloc, object, entry)
    }

    /// A field of an object that is alive holds this from now on, set where it stands if no share holds it. Its counters stay.
    pub fn set_field(
        &mut self,
        alloc: Global,
        object: u32,
        field: SetField,
    ) -> Result<(), AllocError>
        requires { HasField (map.get self.old.entries object) field.index }
        ensures ok { OnOk result (self.new ≡ record self.old {
          entries = map.insert self.old.entries object
              (with_field (map.get self.old.entries object) field.index field.slot);
        }) }
        ensures err { OnErr result (self.new ≡ self.old) }
    {
        let rank = rank_of(&self.ranks, object);
        self.from = slot_lower_from(&self.ranks, self.from, rank, field.slot);
        self.table.set_field(alloc, object, field)
    }

    /// Nothing stands for an object any more. Its counters stay, and its rank is left: no other object gets its number.
    pub fn remove(&mut self, alloc: Global, object: u32) -> Result<(), AllocError>
        ensures ok { OnOk result (self.new ≡ record self.old {
          entries = map.remove self.old.entries object;
        }) }
        ensures err { OnErr result (self.new ≡ self.old) }
    {
        self.table.remove(alloc, object)
    }

    /// A husk stands for an object that stood, in the place of what did, and it has these counters. `part` is what stood there added to
    /// the sum.
    pub fn set_husk(
        &mut self,
        alloc: Global,
        object: u32,
        part: u64,
        counters: Counters,
    ) -> Result<(), AllocError>
        requires { is_some (map.get self.old.entries object) ≡ true }
        ensures entries { OnOk result (self.new.entries ≡ map.insert self.old.entries object Husk) }
        ensures set { OnOk result (IsSetAt self.old.counts self.new.counts object counters) }
        ensures err { OnErr result (self.new ≡ self.old) }
    {
        self.table.set_husk(alloc, object, part, counters)
    }

    /// Nothing stands for an object any more, and it has these counters. `part` is what stood there added to the sum. Its
    /// rank is left: no other object gets its number.
    pub fn free(
        &mut self,
        alloc: Global,
        object: u32,
        part: u64,
        counters: Counters,
    ) -> Result<(), AllocError>
        ensures entries { OnOk result (self.new.entries ≡ map.remove self.old.entries object) }
        ensures set { OnOk result (IsSetAt self.old.counts self.new.counts object counters) }
        ensures err { OnErr result (self.new ≡ self.old) }
    {
        self.table.free(alloc, object, part, counters)
    }

    /// An object has these counters from now on. What stands for it stays.
    pub fn set_counters(
        &mut self,
        alloc: Global,
        object: u32,
        counters: Counters,
    ) -> Result<(), AllocError>
        ensures set { OnOk result (IsSetAt self.old.counts self.new.counts object counters) }
        ensures entries { self.new.entries ≡ self.old.entries }
    {
        self.table.set_counters(alloc, object, counters)
    }

    /// An object has these counters besides its own, not all of them zero. What stands for it stays.
    pub fn count_more(
        &mut self,
        alloc: Global,
        object: u32,
        more: Counters,
    ) -> Result<(), AllocError>
        requires any { are_zero more ≡ false }
        requires room { HasRoomFor (counters_at (map.get self.old.counts object)) more }
        ensures set { OnOk result (IsSetAt self.old.counts self.new.counts object
            (plus (counters_at (map.get self.old.counts object)) more)) }
        ensures entries { self.new.entries ≡ self.old.entries }
    {
        self.table.count_more(alloc, object, more)
    }

    /// These counters are taken off an object's own. What stands for it stays.
    pub fn count_less(
        &mut self,
        alloc: Global,
        object: u32,
        less: Counters,
    ) -> Result<(), AllocError>
        requires { AreAmong less (counters_at (map.get self.old.counts object)) }
        ensures set { OnOk result (IsSetAt self.old.counts self.new.counts object
            (minus (counters_at (map.get self.old.counts object)) less)) }
        ensures entries { self.new.entries ≡ self.old.entries }
    {
        self.table.count_less(alloc, object, less)
    }

    /// A rank over those of what the slots name.
    pub fn rank_over(&self, slots: &[Slot]) -> u64 {
        rank_over(&self.ranks, slots)
    }

    /// Where no field names the object its rank may rise. It does to this one, if that is within the limit.
    pub fn raise(&mut self, alloc: Global, object: u32, rank: u64) -> Result<(), AllocError>
        requires { IsUnnamed self.old.entries object }
        ensures { self.new ≡ self.old }
    {
        if rank > rank_of(&self.ranks, object) && rank <= MAX_RANK {
            self.ranks.insert(alloc, object, rank)?;
        }
        Ok(())
    }
}
