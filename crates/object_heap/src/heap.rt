//! The heap of a traced program at one moment.
ghost use Rattle.std.specs.Prelude.{◌≡◌, ◌↔◌, ◌++◌, [], true, not, IfOk, OnOk, OnErr, IsTrue};
ghost use Rattle.std.specs.Option.{option_copied};
ghost use Rattle.std.specs.FinMap as map;
ghost use Rattle.ownership_model.specs.State.{nothing_held, strong, weak, IsSound};
ghost use Rattle.ownership_model.specs.Bounds.{IsBounded, ChangesFit};
ghost use Rattle.ownership_model.specs.Changes.{changed, CanChange};
ghost use Rattle.ownership_model.specs.Release.{release};
ghost use Rattle.ownership_model.specs.Falling.{CascadesTo};
ghost use Rattle.ownership_model.specs.Scopes.{scope_of};
ghost use Rattle.ownership_model.specs.Agrees.{HaveSameRoots};
ghost use Rattle.ownership_model.specs.declared.link.Link.TheVariants.{StrongOrWeak};
ghost use Rattle.ownership_model.specs.Reach.{has, is_reached, IsClosed};
ghost use Rattle.ownership_model.specs.Patch.{patched};
ghost use Rattle.ownership_model.specs.Alike.{Covers};
ghost use Rattle.object_heap.specs.Exchange.{AreWithinLimits};
ghost use Rattle.object_heap.specs.Told.{release_keys, event_keys};
ghost use Rattle.object_heap.specs.Laid.{without_handles, CanPut, PutsFit, laid_over, with_fields, CanSet};
ghost use Rattle.object_heap.specs.Links.{first_of, earlier_in, label_in};

use crate::counters::Counters;
use crate::draft::Draft;
use crate::object::same_kept;
use crate::put::{FieldPut, Put};
use ownership_model::Key;
use ownership_model::remaining::Remaining;
use share_tree::ShareTree;
use std::alloc::{AllocError, Global};
use std::collections::VecDeque;
use std::marker::Model;
use trace_types::outcomes::{Counts, Event};
use trace_types::sequence::Sequence;
use trace_types::slots::{Change, Entry, Holding, Item, Slot};

/// What handles and cells hold, which objects stand, and in which scopes the handles stand. Contracts see a sound state within the limits.
///
/// It also counts how often each object is named. Two heaps share what is the same in both.
pub struct Heap {
    draft: Draft,
}

impl Model for Heap {
    ghost use Rattle.ownership_model.specs.State.{State};
    ghost use Rattle.object_heap.specs.StateCode.{state_code};

    ghost Value = { State };

    ghost coded = { state_code };

    ghost use Rattle.object_heap.specs.Counted.{drafted, IsKept};

    ghost view = { λ h. drafted h.draft };

    ghost invariant = { λ h. IsKept h.draft };
}

impl Drop for Heap {
    fn drop(self) {
        let Heap { draft: _ } = self;
    }
}

impl Heap {
    /// Nothing is held. Takes no memory.
    pub fn empty() -> Heap
        ensures { result ≡ nothing_held }
    {
        Heap {
            draft: Draft::empty(),
        }
    }

    /// The same heap again. Takes no memory, and fails only where a node has as many owners as can be counted.
    pub fn share(&self) -> Result<Heap, AllocError>
        ensures { IfOk result (λ h. h ≡ self.now) }
    {
        Ok(Heap {
            draft: self.draft.share()?,
        })
    }

    /// Does nothing. Its clauses tell the caller that every heap is sound and within the limits.
    pub fn show_sound(&self)
        ensures sound { IsSound self.now [] }
        ensures bounded { IsBounded self.now }
    {
        let _ = &self.draft;
    }

    /// What a handle holds. By its clauses a caller knows that every heap is sound and within the limits.
    pub fn holding(&self, handle: u32) -> Option<&Holding>
        ensures value { option_copied result ≡ map.get self.now.handles handle }
        ensures sound { IsSound self.now [] }
        ensures bounded { IsBounded self.now }
    {
        self.draft.handles.get(handle)
    }

    /// The handle of the label's scope that was made last. Takes no memory.
    pub fn last(&self, label: u32) -> Option<u32>
        ensures { result ≡ first_of (scope_of label self.now.scopes) }
    {
        self.draft.handles.last(label)
    }

    /// The handle that was made before this one, of those still in its scope. Takes no memory.
    pub fn earlier(&self, handle: u32) -> Option<u32>
        ensures { result ≡ earlier_in handle self.now.scopes }
    {
        self.draft.handles.earlier(handle)
    }

    /// The label in whose scope the handle stands: that of the operation that made it. Takes no memory.
    pub fn label(&self, handle: u32) -> Option<u32>
        ensures { result ≡ label_in handle self.now.scopes }
    {
        self.draft.handles.label(handle)
    }

    /// What a cell holds.
    pub fn cell(&self, cell: u32) -> Option<Slot>
        ensures { result ≡ map.get self.now.cells cell }
    {
        self.draft.cells.get(cell).copied()
    }

    /// What stands for an object.
    pub fn object(&self, object: u32) -> Option<&Entry>
        ensures { option_copied result ≡ map.get self.now.objects object }
    {
        self.draft.objects.get(object)
    }

    /// Whether it is known without a search that handles and cells lead to the object, by strong or weak slots. Takes no memory.
    ///
    /// It is known of an object that stands, where neither it nor what was made after it was ever named by a field of its own or of
    /// something made before: as where each object is made with the one before it in a field. Where it isn't known the answer is false.
    pub fn is_surely_reached(&self, object: u32) -> bool
        ensures { result ≡ true → is_reached StrongOrWeak self.now object ≡ true }
    {
        match self.object(object) {
            Some(_) => self.draft.objects.descend_to(object),
            None => false,
        }
    }

    /// Whether nothing but fields of these objects names any of them: neither handles nor cells, nor fields of other objects.
    ///
    /// One may be listed twice, or not stand at all. The work is that of the objects and of their fields: the rest isn't looked at.
    /// May take memory. It is a help for speed, and no clause says that an island is told as one.
    pub fn is_island(&self, alloc: Global, objects: &[u32]) -> Result<bool, AllocError>
        ensures { IfOk result (λ b. IsTrue b → IsClosed StrongOrWeak self.now
            (λ o. not (has o objects.now))) }
    {
        self.draft.is_island(alloc, objects)
    }

    /// How many slots name the object strongly.
    pub fn strong(&self, object: u32) -> u64
        ensures { result ≡ strong self.now [] object }
    {
        self.draft.objects.counters(object).strong
    }

    /// How many slots name the object weakly.
    pub fn weak(&self, object: u32) -> u64
        ensures { result ≡ weak self.now [] object }
    {
        self.draft.objects.counters(object).weak
    }

    /// How many slots name the object, strongly and weakly. It is looked up once.
    pub fn counts(&self, object: u32) -> Counts
        ensures { result ≡ record {
          object = object;
          strong = strong self.now [] object;
          weak = weak self.now [] object;
        } }
    {
        let Counters { strong, weak, .. } = self.draft.objects.counters(object);
        Counts {
            object,
            strong,
            weak,
        }
    }

    /// A number that equal heaps have in common. Others have different ones, but for a rare chance, so that they are told apart without a
    /// walk. It sees what stands for each handle, cell and object, and each handle's scope. It is a hint, and no clause speaks of it.
    pub fn sum(&self) -> u64 {
        self.draft.sum()
    }

    /// The handles that are held, rising.
    pub fn handles(&self, alloc: Global) -> Result<Vec<u32>, AllocError>
        ensures { IfOk result (λ v. v.items ≡ map.keys self.now.handles) }
    {
        self.draft.handles.keys(alloc)
    }

    /// The cells that are there, rising.
    pub fn cells(&self, alloc: Global) -> Result<Vec<u32>, AllocError>
        ensures { IfOk result (λ v. v.items ≡ map.keys self.now.cells) }
    {
        self.draft.cells.keys(alloc)
    }

    /// The objects that stand, rising.
    pub fn objects(&self, alloc: Global) -> Result<Vec<u32>, AllocError>
        ensures { IfOk result (λ v. v.items ≡ map.keys self.now.objects) }
    {
        self.draft.objects.keys(alloc)
    }

    /// Whether both have the same roots: handles, cells and scopes. By its clauses a caller knows that both are sound and within the
    /// limits.
    pub fn same_roots(&self, other: &Heap) -> bool
        ensures answer { IsTrue result ↔ HaveSameRoots self.now other.now }
        ensures sound { IsSound self.now [] × IsSound other.now [] }
        ensures bounded { IsBounded self.now × IsBounded other.now }
    {
        self.draft.handles.same(&other.draft.handles) && self.draft.cells.same(&other.draft.cells)
    }

    /// Whether both hold the same.
    pub fn same(&self, other: &Heap) -> bool
        ensures { IsTrue result ↔ (self.now ≡ other.now) }
    {
        self.draft.same(&other.draft)
    }

    /// Whether the same stands for an object in both heaps, and is named as often. Looks it up once in each.
    pub fn same_at(&self, other: &Heap, object: u32) -> bool
        ensures { IsTrue result
            ↔ ((map.get self.now.objects object ≡ map.get other.now.objects object)
            × (strong self.now [] object ≡ strong other.now [] object)
            × (weak self.now [] object ≡ weak other.now [] object)) }
    {
        same_kept(
            self.draft.objects.kept(object),
            other.draft.objects.kept(object),
        )
    }

    /// The heap after the changes, when all that is then pending was dropped, and what became of objects, in order.
    ///
    /// The heap itself is kept as it was: what both have in common they share. May take memory. The changes can be made
    /// in turn and keep the limits, and leave, with what is pending, a sound state.
    pub fn release(
        &self,
        alloc: Global,
        changes: &[Change],
        pending: &[Item],
    ) -> Result<(Heap, Sequence<Event>), AllocError>
        requires can { CanChange self.now changes.now }
        requires fits { ChangesFit changes.now }
        requires sound { IsSound (changed self.now changes.now) pending.now }
        ensures state { IfOk result (λ r. r.0 ≡ (release (changed self.now changes.now)
            pending.now).state) }
        ensures events { IfOk result (λ r. r.1 ≡ (release (changed self.now changes.now)
            pending.now).events) }
        ensures cascade { IfOk result (λ r. CascadesTo (changed self.now changes.now) r.0 r.1) }
    {
        self.share()?.released(alloc, changes, pending)
    }

    /// As `release`, of a heap that is used up: what it alone holds is changed in place.
    pub fn released(
        self,
        alloc: Global,
        changes: &[Change],
        pending: &[Item],
    ) -> Result<(Heap, Sequence<Event>), AllocError>
        requires can { CanChange self changes.now }
        requires fits { ChangesFit changes.now }
        requires sound { IsSound (changed self changes.now) pending.now }
        ensures state { IfOk result (λ r. r.0 ≡ (release (changed self changes.now)
            pending.now).state) }
        ensures events { IfOk result (λ r. r.1 ≡ (release (changed self changes.now)
            pending.now).events) }
        ensures cascade { IfOk result (λ r. CascadesTo (changed self changes.now) r.0 r.1) }
    {
        let mut heap = self;
        let events = heap.release_in_place(alloc, changes, pending)?;
        Ok((heap, events))
    }

    /// As `released`, in place. Where memory runs out nothing is held any more.
    pub fn release_in_place(
        &mut self,
        alloc: Global,
        changes: &[Change],
        pending: &[Item],
    ) -> Result<Sequence<Event>, AllocError>
        requires can { CanChange self.old changes.now }
        requires fits { ChangesFit changes.now }
        requires sound { IsSound (changed self.old changes.now) pending.now }

        // What the heap holds then, and what became of objects.
        ensures state { OnOk result (self.new ≡ (release (changed self.old changes.now)
            pending.now).state) }
        ensures events { IfOk result (λ events. events
            ≡ (release (changed self.old changes.now) pending.now).events) }
        ensures cascade { IfOk result (λ events. CascadesTo (changed self.old changes.now) self.new
            events) }
        ensures err { OnErr result (self.new ≡ nothing_held) }
    {
        let mut work = VecDeque::new(alloc);
        self.release_on(alloc, &mut work, changes, pending)
    }

    /// As `release_in_place`, on a work list that is emptied first: one that serves again and again takes memory once.
    pub fn release_on(
        &mut self,
        alloc: Global,
        work: &mut VecDeque<Item>,
        changes: &[Change],
        pending: &[Item],
    ) -> Result<Sequence<Event>, AllocError>
        requires can { CanChange self.old changes.now }
        requires fits { ChangesFit changes.now }
        requires sound { IsSound (changed self.old changes.now) pending.now }

        // What the heap holds then, and what became of objects.
        ensures state { OnOk result (self.new ≡ (release (changed self.old changes.now)
            pending.now).state) }
        ensures events { IfOk result (λ events. events
            ≡ (release (changed self.old changes.now) pending.now).events) }
        ensures cascade { IfOk result (λ events. CascadesTo (changed self.old changes.now) self.new
            events) }
        ensures err { OnErr result (self.new ≡ nothing_held) }
    {
        match self.draft.carry_out(alloc, work, changes, pending) {
            Ok(events) => Ok(Sequence::from_vec(events)),
            Err(error) => {
                self.draft.let_go();
                Err(error)
            }
        }
    }

    /// As `release_on`, and tells what is moved and dropped: the objects named by slots that the changes move or copy, and those of all items
    /// that are dropped. Keys that are told already stay, but for objects that its events tell of.
    ///
    /// It leaves out the places that the changes set, and may leave out those objects. It may tell more than that, and the
    /// same key more than once.
    pub fn release_told(
        &mut self,
        alloc: Global,
        work: &mut VecDeque<Item>,
        changes: &[Change],
        pending: &[Item],
        keys: &mut Vec<Key>,
    ) -> Result<Sequence<Event>, AllocError>
        requires can { CanChange self.old changes.now }
        requires fits { ChangesFit changes.now }
        requires sound { IsSound (changed self.old changes.now) pending.now }

        // What the heap holds then, what became of objects, and what is told.
        ensures state { OnOk result (self.new ≡ (release (changed self.old changes.now)
            pending.now).state) }
        ensures events { IfOk result (λ events. events
            ≡ (release (changed self.old changes.now) pending.now).events) }
        ensures cascade { IfOk result (λ events. CascadesTo (changed self.old changes.now) self.new
            events) }
        ensures told { IfOk result (λ events. Covers (keys.new.items ++ event_keys events)
            (keys.old.items ++ release_keys self.old changes.now pending.now)) }
        ensures err { OnErr result (self.new ≡ nothing_held) }
    {
        match self
            .draft
            .carry_out_told(alloc, work, changes, pending, keys)
        {
            Ok(events) => Ok(Sequence::from_vec(events)),
            Err(error) => {
                self.draft.let_go();
                Err(error)
            }
        }
    }

    /// The heap without some objects and with others. The result is to be sound.
    ///
    /// The work is that of the objects that go and come, and of their fields: the rest isn't looked at. What this heap alone holds is
    /// changed in place.
    pub fn exchanged(
        self,
        alloc: Global,
        removed: &ShareTree<Remaining>,
        added: &ShareTree<Remaining>,
    ) -> Result<Heap, AllocError>
        requires fits { AreWithinLimits added.now }
        requires sound { IsSound (patched self (record {
          removed = removed.now;
          added = added.now;
        })) [] }
        ensures { IfOk result (λ h. h ≡ patched self (record {
          removed = removed.now;
          added = added.now;
        })) }
    {
        let Heap { mut draft } = self;
        draft.exchange(alloc, removed, added)?;
        Ok(Heap { draft })
    }

    /// The heap without some handles, with others put into their scopes, and with the cells and objects of another heap at these numbers.
    /// None of what is put is held then. Last, fields of objects are set, one after another: each is there when its turn comes. The result is
    /// to be sound.
    ///
    /// The work is that of these handles, cells and objects, of their fields, and of the fields that are set: the rest isn't looked at, but for
    /// a scope at whose end a handle is put. What this heap alone holds is changed in place.
    pub fn laid(
        self,
        alloc: Global,
        from: &Heap,
        handles: &[u32],
        cells: &[u32],
        objects: &[u32],
        puts: &[Put],
        fields: &[FieldPut],
    ) -> Result<Heap, AllocError>
        requires can { CanPut (without_handles handles.now self) puts.now }
        requires fits { PutsFit puts.now }
        requires set { CanSet (laid_over from.now handles.now cells.now objects.now puts.now self)
            fields.now }
        requires sound { IsSound (with_fields fields.now (laid_over from.now handles.now cells.now
            objects.now puts.now self)) [] }
        ensures { IfOk result (λ h. h ≡ with_fields fields.now
            (laid_over from.now handles.now cells.now objects.now puts.now self)) }
    {
        let Heap { mut draft } = self;
        draft.lay(alloc, &from.draft, handles, cells, objects, puts, fields)?;
        Ok(Heap { draft })
    }
}
