//! A state that is being changed, with the counts of its slots and of what is pending.
ghost use Rattle.std.specs.Prelude.{◌≡◌, ◌↔◌, ◌++◌, OnOk, IfOk, IsTrue};
ghost use Rattle.std.specs.FinMap as map;
ghost use Rattle.ownership_model.specs.State.{nothing_held, IsSound};
ghost use Rattle.ownership_model.specs.Bounds.{ChangesFit};
ghost use Rattle.ownership_model.specs.Alike.{Covers};
ghost use Rattle.ownership_model.specs.Changes.{changed, CanChange};
ghost use Rattle.ownership_model.specs.Release.{release};
ghost use Rattle.object_heap.specs.Counted.{drafted, IsKept};
ghost use Rattle.object_heap.specs.Told.{release_keys, event_keys};

use crate::handles::Handles;
use crate::objects::Objects;
use crate::summed::Summed;
use crate::told::tell_at_once;
use ownership_model::Key;
use std::alloc::{AllocError, Global};
use std::collections::VecDeque;
use trace_types::outcomes::Event;
use trace_types::slots::{Change, Item, Slot};

/// What handles and cells hold, in which scopes the handles stand, which objects stand, and how often each is named.
#[derive(Drop)]
pub struct Draft {
    pub handles: Handles,
    pub cells: Summed<Slot>,
    pub objects: Objects,
}

impl Draft {
    /// Nothing is held.
    pub fn empty() -> Draft
        ensures state { drafted result ≡ nothing_held }
        ensures counts { result.objects.counts ≡ map.empty }
    {
        Draft {
            handles: Handles::empty(),
            cells: Summed::empty(),
            objects: Objects::empty(),
        }
    }

    /// Nothing is held any more.
    #[inline(never)]
    pub fn let_go(&mut self)
        ensures state { drafted self.new ≡ nothing_held }
        ensures counts { self.new.objects.counts ≡ map.empty }
    {
        *self = Draft::empty();
    }

    /// Makes the changes, drops all that is then pending, on a work list, and tells what became of objects, in order. Where memory runs
    /// out the draft is unspecified: let it go.
    pub fn carry_out(
        &mut self,
        alloc: Global,
        work: &mut VecDeque<Item>,
        changes: &[Change],
        pending: &[Item],
    ) -> Result<Vec<Event>, AllocError>
        requires kept { IsKept self.old }
        requires can { CanChange (drafted self.old) changes.now }
        requires fits { ChangesFit changes.now }
        requires sound { IsSound (changed (drafted self.old) changes.now) pending.now }

        // What the draft holds then, and what became of objects.
        ensures kept { OnOk result (IsKept self.new) }
        ensures state { OnOk result (drafted self.new
            ≡ (release (changed (drafted self.old) changes.now) pending.now).state) }
        ensures events { IfOk result (λ v. v.items ≡ (release
            (changed (drafted self.old) changes.now) pending.now).events) }
    {
        self.apply(alloc, changes)?;
        work.clear();
        let mut events = Vec::new(alloc);
        self.begin(alloc, pending, work, &mut events)?;
        self.release(alloc, work, &mut events)?;
        Ok(events)
    }

    /// As `carry_out`, and tells what changes move or copy, and what is then dropped and no event tells of. Where memory runs out the keys
    /// are unspecified, too.
    pub fn carry_out_told(
        &mut self,
        alloc: Global,
        work: &mut VecDeque<Item>,
        changes: &[Change],
        pending: &[Item],
        keys: &mut Vec<Key>,
    ) -> Result<Vec<Event>, AllocError>
        requires kept { IsKept self.old }
        requires can { CanChange (drafted self.old) changes.now }
        requires fits { ChangesFit changes.now }
        requires sound { IsSound (changed (drafted self.old) changes.now) pending.now }

        // What the draft holds then, what became of objects, and what is told.
        ensures kept { OnOk result (IsKept self.new) }
        ensures state { OnOk result (drafted self.new
            ≡ (release (changed (drafted self.old) changes.now) pending.now).state) }
        ensures events { IfOk result (λ v. v.items ≡ (release
            (changed (drafted self.old) changes.now) pending.now).events) }
        ensures told { IfOk result (λ v. Covers (keys.new.items ++ event_keys v.items)
            (keys.old.items ++ release_keys (drafted self.old) changes.now pending.now)) }
    {
        self.apply_told(alloc, changes, keys)?;
        work.clear();
        let mut events = Vec::new(alloc);
        tell_at_once(pending, keys)?;
        self.begin(alloc, pending, work, &mut events)?;
        self.release_told(alloc, work, &mut events, keys)?;
        Ok(events)
    }

    /// The same again, whose nodes both have.
    pub fn share(&self) -> Result<Draft, AllocError>
        ensures state { IfOk result (λ d. drafted d ≡ drafted self.now) }
        ensures counts { IfOk result (λ d. d.objects.counts ≡ self.now.objects.counts) }
    {
        Ok(Draft {
            handles: self.handles.share()?,
            cells: self.cells.share()?,
            objects: self.objects.share()?,
        })
    }

    /// Whether both hold the same. What is counted tells nothing more.
    pub fn same(&self, other: &Draft) -> bool
        requires kept { IsKept self.now × IsKept other.now }
        ensures { IsTrue result ↔ (drafted self.now ≡ drafted other.now) }
    {
        self.handles.same(&other.handles)
            && self.cells.same(&other.cells)
            && self.objects.same(&other.objects)
    }

    /// A number that equal states have in common.
    pub fn sum(&self) -> u64 {
        let held = self
            .handles
            .sum()
            .wrapping_add(self.cells.sum().wrapping_mul(3));
        let objects = self.objects.sum().wrapping_mul(5);
        held.wrapping_add(objects)
    }
}
