//! What stands for each object and how often each is named, in one tree.
ghost use Rattle.std.specs.Prelude.{◌≡◌, ◌↔◌, ℕ, true, false, is_some, Some, None, IfOk, OnOk, OnErr, IsTrue, ◌==◌, if◌then◌else◌};
ghost use Rattle.std.specs.Option.{option_copied};
ghost use Rattle.std.specs.FinMap as map;
ghost use Rattle.trace_types.specs.declared.slots.Entry.TheVariants.{Husk};
ghost use Rattle.ownership_model.specs.Changes.{HasField, with_field};
ghost use Rattle.object_heap.specs.TableView.{counters_at, are_zero, kept_at, kept_of, minus, plus, AreAmong, HasRoomFor, AreAlike, AllStand};
ghost use Rattle.object_heap.specs.Gains.{IsSetAt};

use crate::counters::{Counters, NOTHING};
use crate::object::{Object, counters_of, entry_of, share_of};
use crate::updates::{Less, More, SetField, TurnHusk};
use crate::weight::{added, field_change};
use share_tree::ShareTree;
use std::alloc::{AllocError, Global};
use std::marker::Model;
use trace_types::slots::Entry;

/// The objects by their numbers. Contracts see what stands for each, and the counters of each that is named, as two finite maps.
///
/// It also keeps a sum over what stands, as `Summed` does. Nothing is kept for an object that doesn't stand and that nothing names.
pub struct Table {
    kept: ShareTree<Object>,
    sum: u64,
}

impl Model for Table {
    ghost use Rattle.ownership_model.specs.Changes.{HasField, with_field};
    ghost use Rattle.object_heap.specs.TableView.{TableView, table_code, table_of, IsLean};

    ghost Value = { TableView };

    ghost coded = { table_code };

    ghost view = { λ t. table_of t.kept };

    ghost invariant = { λ t. IsLean t.kept };
}

impl Drop for Table {
    fn drop(self) {
        let Table { kept: _, sum: _ } = self;
    }
}

impl Table {
    /// No object stands, and none is named.
    pub fn empty() -> Table
        ensures { result ≡ record { entries = map.empty; counts = map.empty } }
    {
        Table {
            kept: ShareTree::empty(),
            sum: 0,
        }
    }

    /// The same again, whose nodes both have.
    pub fn share(&self) -> Result<Table, AllocError>
        ensures { IfOk result (λ t. t ≡ self.now) }
    {
        Ok(Table {
            kept: self.kept.share()?,
            sum: self.sum,
        })
    }

    /// What stands for an object.
    pub fn get(&self, object: u32) -> Option<&Entry>
        ensures { option_copied result ≡ map.get self.now.entries object }
    {
        entry_of(self.kept(object))
    }

    /// What is kept for an object, if anything is.
    pub fn kept(&self, object: u32) -> Option<&Object>
        ensures { kept_at (option_copied result) ≡ (
          map.get self.now.entries object,
          counters_at (map.get self.now.counts object),
        ) }
    {
        self.kept.get(object)
    }

    /// What is kept for an object. It shares what stands, which is there while others change, and takes no memory.
    pub fn at(&self, object: u32) -> Result<Object, AllocError>
        ensures { IfOk result (λ x. x ≡ (
          map.get self.now.entries object,
          counters_at (map.get self.now.counts object),
        )) }
    {
        share_of(self.kept(object))
    }

    /// The counters of an object; zeros where none are kept.
    pub fn counters(&self, object: u32) -> Counters
        ensures { result ≡ counters_at (map.get self.now.counts object) }
    {
        counters_of(self.kept(object))
    }

    /// The numbers of those that stand, rising. All that are named do.
    pub fn keys(&self, alloc: Global) -> Result<Vec<u32>, AllocError>
        requires { AllStand self.now }
        ensures { IfOk result (λ v. v.items ≡ map.keys self.now.entries) }
    {
        self.kept.keys(alloc)
    }

    /// Whether the same stands in both, and is named as often.
    pub fn same(&self, other: &Table) -> bool
        ensures { IsTrue result ↔ AreAlike self.now other.now }
    {
        self.kept.same(&other.kept)
    }

    /// A number that is the same where the same stands.
    pub fn sum(&self) -> u64 {
        self.sum
    }

    /// Something else stands for an object, or it comes to be. Its counters stay.
    pub fn insert(&mut self, alloc: Global, object: u32, entry: Entry) -> Result<(), AllocError>
        ensures ok { OnOk result (self.new ≡ record self.old {
          entries = map.insert self.old.entries object entry;
        }) }
        ensures err { OnErr result (self.new ≡ self.old) }
    {
        let (rest, counters) = self.rest(object);
        let sum = rest.wrapping_add(added(object, Some(&entry)));
        let kept = Object::standing(alloc, entry, counters)?;
        store(alloc, &mut self.kept, object, kept)?;
        self.sum = sum;
        Ok(())
    }

    /// Nothing stands for an object any more. Its counters stay.
    pub fn remove(&mut self, alloc: Global, object: u32) -> Result<(), AllocError>
        ensures ok { OnOk result (self.new ≡ record self.old {
          entries = map.remove self.old.entries object;
        }) }
        ensures err { OnErr result (self.new ≡ self.old) }
    {
        let (rest, counters) = self.rest(object);
        store(alloc, &mut self.kept, object, Object::named(counters))?;
        self.sum = rest;
        Ok(())
    }

    /// Nothing stands for an object any more, and it has these counters. `part` is what stood there added to the sum.
    pub fn free(
        &mut self,
        alloc: Global,
        object: u32,
        part: u64,
        counters: Counters,
    ) -> Result<(), AllocError>
        ensures entries { OnOk result (self.new.entries ≡ map.remove self.old.entries object) }
        ensures set { OnOk result (IsSetAt self.old.counts self.new.counts object counters) }
        ensures err { OnErr result (self.new ≡ self.old) }
    {
        let rest = self.sum.wrapping_sub(part);
        store(alloc, &mut self.kept, object, Object::named(counters))?;
        self.sum = rest;
        Ok(())
    }

    /// A husk stands for an object that stood, in the place of what did, and it has these counters. `part` is what stood there added to
    /// the sum.
    pub fn set_husk(
        &mut self,
        alloc: Global,
        object: u32,
        part: u64,
        counters: Counters,
    ) -> Result<(), AllocError>
        requires { is_some (map.get self.old.entries object) ≡ true }
        ensures entries { OnOk result (self.new.entries ≡ map.insert self.old.entries object Husk) }
        ensures set { OnOk result (IsSetAt self.old.counts self.new.counts object counters) }
        ensures err { OnErr result (self.new ≡ self.old) }
    {
        let rest = self.sum.wrapping_sub(part);
        let sum = rest.wrapping_add(added(object, Some(&Entry::Husk)));
        self.kept.update(alloc, object, &TurnHusk(counters))?;
        self.sum = sum;
        Ok(())
    }

    /// A field of an object that is alive holds this from now on, set where it stands if no share holds it. Its counters stay.
    pub fn set_field(
        &mut self,
        alloc: Global,
        object: u32,
        field: SetField,
    ) -> Result<(), AllocError>
        requires { HasField (map.get self.old.entries object) field.index }
        ensures ok { OnOk result (self.new ≡ record self.old {
          entries = map.insert self.old.entries object
              (with_field (map.get self.old.entries object) field.index field.slot);
        }) }
        ensures err { OnErr result (self.new ≡ self.old) }
    {
        let sum = self
            .sum
            .wrapping_add(change_of(object, self.get(object), field));
        self.kept.update(alloc, object, &field)?;
        self.sum = sum;
        Ok(())
    }

    /// An object has these counters from now on. What stands for it stays.
    pub fn set_counters(
        &mut self,
        alloc: Global,
        object: u32,
        counters: Counters,
    ) -> Result<(), AllocError>
        ensures set { OnOk result (IsSetAt self.old.counts self.new.counts object counters) }
        ensures entries { self.new.entries ≡ self.old.entries }
    {
        if !counters.are_zero() && self.kept.update(alloc, object, &counters)? {
            return Ok(());
        }
        self.put_counters(alloc, object, counters)
    }

    /// An object has these counters besides its own, not all of them zero. What stands for it stays.
    pub fn count_more(
        &mut self,
        alloc: Global,
        object: u32,
        more: Counters,
    ) -> Result<(), AllocError>
        requires any { are_zero more ≡ false }
        requires room { HasRoomFor (counters_at (map.get self.old.counts object)) more }
        ensures set { OnOk result (IsSetAt self.old.counts self.new.counts object
            (plus (counters_at (map.get self.old.counts object)) more)) }
        ensures entries { self.new.entries ≡ self.old.entries }
    {
        if self.kept.update(alloc, object, &More(more))? {
            return Ok(());
        }
        self.put_counters(alloc, object, more)
    }

    /// These counters are taken off an object's own. What stands for it stays.
    pub fn count_less(
        &mut self,
        alloc: Global,
        object: u32,
        less: Counters,
    ) -> Result<(), AllocError>
        requires { AreAmong less (counters_at (map.get self.old.counts object)) }
        ensures set { OnOk result (IsSetAt self.old.counts self.new.counts object
            (minus (counters_at (map.get self.old.counts object)) less)) }
        ensures entries { self.new.entries ≡ self.old.entries }
    {
        if self.kept.update(alloc, object, &Less(less))? {
            return Ok(());
        }
        let counters = self.counters(object).minus(less);
        self.put_counters(alloc, object, counters)
    }

    // As `set_counters`, where nothing is kept for the object, or where nothing may be from now on.
    #[inline(never)]
    fn put_counters(
        &mut self,
        alloc: Global,
        object: u32,
        counters: Counters,
    ) -> Result<(), AllocError>
        ensures set { OnOk result (IsSetAt self.old.counts self.new.counts object counters) }
        ensures entries { self.new.entries ≡ self.old.entries }
    {
        let kept = self.at(object)?;
        store(alloc, &mut self.kept, object, kept.with_counters(counters))
    }

    // The sum without what stands for an object, and its counters.
    fn rest(&self, object: u32) -> (u64, Counters)
        ensures { result.1 ≡ counters_at (map.get self.now.counts object) }
    {
        let kept = self.kept(object);
        let part = added(object, entry_of(kept));
        (self.sum.wrapping_sub(part), counters_of(kept))
    }
}

// What the sum changes by where a field is set.
fn change_of(object: u32, entry: Option<&Entry>, field: SetField) -> u64
    requires { HasField (option_copied entry) field.index }
{
    let Some(Entry::Alive(fields)) = entry else {
        unreachable!()
    };
    field_change(object, fields.as_slice(), field.index, field.slot)
}

// Keeps this for an object, or nothing where nothing stands for it and nothing names it.
fn store(
    alloc: Global,
    tree: &mut ShareTree<Object>,
    object: u32,
    kept: Object,
) -> Result<(), AllocError>
    ensures ok { OnOk result ((q : ℕ) → map.get tree.new q
        ≡ (if object == q then kept_of kept.0 kept.1 else map.get tree.old q)) }
    ensures err { OnErr result (tree.new ≡ tree.old) }
{
    if kept.is_needed() {
        tree.insert(alloc, object, kept)
    } else {
        tree.remove(alloc, object)
    }
}
