//! What letting go sets off: what is pending is dropped, one item after another.
ghost use Rattle.std.specs.Prelude.{◌≡◌, ◌∷◌, ◌++◌, [], true, OnOk, ◌<◌, ◌^◌, ◌&&◌, ◌==◌, length, flat_map};
ghost use Rattle.std.specs.Option.{option_copied};
ghost use Rattle.std.specs.FinMap as map;
ghost use Rattle.trace_types.specs.declared.slots.Item.TheVariants as item;
ghost use Rattle.trace_types.specs.declared.slots.Slot.TheVariants as slot;
ghost use Rattle.ownership_model.specs.State.{State, is_alive, IsSound};
ghost use Rattle.ownership_model.specs.Release.{release, after, drops, fall, is_husk, left_by, Becomes, Goes};
ghost use Rattle.ownership_model.specs.Bounds.{IsBounded};
ghost use Rattle.ownership_model.specs.Alike.{Covers};
ghost use Rattle.ownership_model.specs.Footprint.{item_keys, taken};
ghost use Rattle.object_heap.specs.Counted.{drafted, IsCounted};
ghost use Rattle.object_heap.specs.TableView.{counters_at};
ghost use Rattle.object_heap.specs.Drops.{DropsFirst};
ghost use Rattle.object_heap.specs.Told.{at_once, event_keys, IsItemTold};
ghost use Rattle.object_heap.specs.Gains.{IsSetAt};

use crate::counters::Counters;
use crate::counting::hold_item;
use crate::draft::Draft;
use crate::object::{counters_of, entry_of};
use crate::told::tell_item;
use crate::weight::added;
use ownership_model::Key;
use std::alloc::{AllocError, Global};
use std::collections::VecDeque;
use trace_types::outcomes::Event;
use trace_types::slots::{Entry, Item, Slot};

impl Draft {
    /// All items are pending, in order, on a list that was empty. Where the first is a strong slot, it is dropped at once: its count isn't
    /// raised only to be lowered next. Where memory runs out the draft is unspecified: let it go.
    #[inline(always)]
    pub fn begin(
        &mut self,
        alloc: Global,
        items: &[Item],
        pending: &mut VecDeque<Item>,
        events: &mut Vec<Event>,
    ) -> Result<(), AllocError>
        requires sound { IsSound (drafted self.old) items.now }
        requires counted { IsCounted self.old.objects.counts (drafted self.old) [] }
        requires bounded { IsBounded (drafted self.old) }
        requires none { pending.old.items ≡ [] }

        // What is still to be dropped.
        ensures rest { OnOk result (after events.new.items
            (release (drafted self.new) pending.new.items)
            ≡ after events.old.items (release (drafted self.old) items.now)) }
        ensures sound { OnOk result (IsSound (drafted self.new) pending.new.items) }
        ensures counted { OnOk result (IsCounted self.new.objects.counts (drafted self.new)
            pending.new.items) }
        ensures taken { OnOk result (taken (drafted self.old) items.now
            ≡ at_once items.now ++ taken (drafted self.new) pending.new.items) }
    {
        if let Some((Item::Slot(Slot::Strong(object)), rest)) = items.split_first() {
            self.add_all(alloc, rest, pending)?;
            return self.drop_uncounted(alloc, *object, pending, events);
        }
        self.add_all(alloc, items, pending)
    }

    // All items are pending, in order. Where memory runs out the draft is unspecified: let it go.
    fn add_all(
        &mut self,
        alloc: Global,
        items: &[Item],
        pending: &mut VecDeque<Item>,
    ) -> Result<(), AllocError>
        requires counted { IsCounted self.old.objects.counts (drafted self.old) [] }
        requires bounded { IsBounded (drafted self.old) }
        requires none { pending.old.items ≡ [] }
        ensures state { OnOk result (drafted self.new ≡ drafted self.old) }
        ensures pending { OnOk result (pending.new.items ≡ items.now) }
        ensures counted { OnOk result (IsCounted self.new.objects.counts (drafted self.new)
            items.now) }
    {
        for item in items {
            self.add(alloc, *item, pending)?;
        }
        Ok(())
    }

    // One item more is pending, after the others.
    fn add(
        &mut self,
        alloc: Global,
        item: Item,
        pending: &mut VecDeque<Item>,
    ) -> Result<(), AllocError>
        requires counted { IsCounted self.old.objects.counts (drafted self.old) pending.old.items }
        requires bounded { IsBounded (drafted self.old) }
        requires short { length pending.old.items < 2 ^ 63 }
        ensures state { OnOk result (drafted self.new ≡ drafted self.old) }
        ensures pending { OnOk result (pending.new.items ≡ pending.old.items ++ item ∷ []) }
        ensures counted { OnOk result (IsCounted self.new.objects.counts (drafted self.new)
            pending.new.items) }
    {
        hold_item(alloc, &mut self.objects, item)?;
        Ok(pending.push_back(item)?)
    }

    /// Drops what is pending, one item after another. Where memory runs out the draft is unspecified: let it go.
    pub fn release(
        &mut self,
        alloc: Global,
        pending: &mut VecDeque<Item>,
        events: &mut Vec<Event>,
    ) -> Result<(), AllocError>
        requires sound { IsSound (drafted self.old) pending.old.items }
        requires counted { IsCounted self.old.objects.counts (drafted self.old) pending.old.items }
        ensures state { OnOk result (drafted self.new
            ≡ (release (drafted self.old) pending.old.items).state) }
        ensures events { OnOk result (events.new.items
            ≡ events.old.items ++ (release (drafted self.old) pending.old.items).events) }
        ensures sound { OnOk result (IsSound (drafted self.new) []) }
        ensures counted { OnOk result (IsCounted self.new.objects.counts (drafted self.new) []) }
    {
        while let Some(item) = pending.pop_front() {
            self.drop_item(alloc, item, pending, events)?;
        }
        Ok(())
    }

    /// As `release`, and tells the object of each item that is dropped, unless an event tells of it. Where memory runs out the keys are
    /// unspecified, too.
    pub fn release_told(
        &mut self,
        alloc: Global,
        pending: &mut VecDeque<Item>,
        events: &mut Vec<Event>,
        keys: &mut Vec<Key>,
    ) -> Result<(), AllocError>
        requires sound { IsSound (drafted self.old) pending.old.items }
        requires counted { IsCounted self.old.objects.counts (drafted self.old) pending.old.items }

        // What is left, and what is told.
        ensures state { OnOk result (drafted self.new
            ≡ (release (drafted self.old) pending.old.items).state) }
        ensures events { OnOk result (events.new.items
            ≡ events.old.items ++ (release (drafted self.old) pending.old.items).events) }
        ensures sound { OnOk result (IsSound (drafted self.new) []) }
        ensures counted { OnOk result (IsCounted self.new.objects.counts (drafted self.new) []) }
        ensures told { OnOk result (Covers (keys.new.items ++ event_keys events.new.items)
            (keys.old.items ++ flat_map item_keys (taken (drafted self.old) pending.old.items))) }
    {
        while let Some(item) = pending.pop_front() {
            let before = events.len();
            self.drop_item(alloc, item, pending, events)?;
            tell_silent(item, events.len() > before, keys)?;
        }
        Ok(())
    }

    // Drops the first item of those that are pending.
    #[inline(always)]
    fn drop_item(
        &mut self,
        alloc: Global,
        item: Item,
        pending: &mut VecDeque<Item>,
        events: &mut Vec<Event>,
    ) -> Result<(), AllocError>
        requires sound { IsSound (drafted self.old) (item ∷ pending.old.items) }
        requires counted { IsCounted self.old.objects.counts (drafted self.old)
            (item ∷ pending.old.items) }
        ensures { OnOk result (DropsFirst self.old self.new item pending.old.items pending.new.items
            events.old.items events.new.items) }
    {
        match item {
            Item::Slot(Slot::Strong(object)) => self.drop_strong(alloc, object, pending, events),
            Item::Slot(Slot::Weak(object)) => self.drop_weak(alloc, object, pending, events),
            Item::End(object) => self.drop_end(alloc, object, pending, events),
            Item::Slot(Slot::Nothing | Slot::Dangling) => Ok(()),
        }
    }

    // Drops a strong slot: it is counted no more, and the value goes with the last one.
    fn drop_strong(
        &mut self,
        alloc: Global,
        object: u32,
        pending: &mut VecDeque<Item>,
        events: &mut Vec<Event>,
    ) -> Result<(), AllocError>
        requires sound { IsSound (drafted self.old) (item.Slot (slot.Strong object)
            ∷ pending.old.items) }
        requires counted { IsCounted self.old.objects.counts (drafted self.old)
            (item.Slot (slot.Strong object) ∷ pending.old.items) }
        ensures { OnOk result (DropsFirst self.old self.new (item.Slot (slot.Strong object))
            pending.old.items pending.new.items events.old.items events.new.items) }
    {
        let kept = self.objects.kept(object);
        let was = counters_of(kept);
        let less = Counters {
            strong: was.strong - 1,
            ..was
        };
        if less.strong == 0 {
            let part = fall(entry_of(kept), object, pending, events)?;
            return self.objects.set_husk(alloc, object, part, was.ended());
        }
        self.objects.set_counters(alloc, object, less)
    }

    // Drops a strong slot that isn't counted any more, while the others are.
    fn drop_uncounted(
        &mut self,
        alloc: Global,
        object: u32,
        pending: &mut VecDeque<Item>,
        events: &mut Vec<Event>,
    ) -> Result<(), AllocError>
        requires sound { IsSound (drafted self.old) (item.Slot (slot.Strong object)
            ∷ pending.old.items) }
        requires counted { IsCounted self.old.objects.counts (drafted self.old) pending.old.items }
        ensures { OnOk result (DropsFirst self.old self.new (item.Slot (slot.Strong object))
            pending.old.items pending.new.items events.old.items events.new.items) }
    {
        let kept = self.objects.kept(object);
        let was = counters_of(kept);
        if was.strong != 0 {
            return Ok(());
        }
        let part = fall(entry_of(kept), object, pending, events)?;
        self.objects.set_husk(alloc, object, part, was.ended())
    }

    // Drops a weak slot: it is counted no more, and the allocation goes with the last one, where the value is gone.
    fn drop_weak(
        &mut self,
        alloc: Global,
        object: u32,
        rest: &VecDeque<Item>,
        events: &mut Vec<Event>,
    ) -> Result<(), AllocError>
        requires sound { IsSound (drafted self.old) (item.Slot (slot.Weak object)
            ∷ rest.now.items) }
        requires counted { IsCounted self.old.objects.counts (drafted self.old)
            (item.Slot (slot.Weak object) ∷ rest.now.items) }
        ensures { OnOk result (DropsFirst self.old self.new (item.Slot (slot.Weak object))
            rest.now.items rest.now.items events.old.items events.new.items) }
    {
        let kept = self.objects.kept(object);
        let was = counters_of(kept);
        let less = Counters {
            weak: was.weak - 1,
            ..was
        };
        if is_last(entry_of(kept), less) {
            let part = added(object, entry_of(kept));
            return self.free(alloc, object, part, less, events);
        }
        self.objects.set_counters(alloc, object, less)
    }

    // Drops the end of a value that is gone: the allocation goes, where no weak slot holds it.
    fn drop_end(
        &mut self,
        alloc: Global,
        object: u32,
        rest: &VecDeque<Item>,
        events: &mut Vec<Event>,
    ) -> Result<(), AllocError>
        requires sound { IsSound (drafted self.old) (item.End object ∷ rest.now.items) }
        requires counted { IsCounted self.old.objects.counts (drafted self.old)
            (item.End object ∷ rest.now.items) }
        ensures { OnOk result (DropsFirst self.old self.new (item.End object) rest.now.items
            rest.now.items events.old.items events.new.items) }
    {
        let kept = self.objects.kept(object);
        let was = counters_of(kept);
        let less = Counters {
            ends: was.ends - 1,
            ..was
        };
        if less.weak == 0 {
            let part = added(object, entry_of(kept));
            return self.free(alloc, object, part, less, events);
        }
        self.objects.set_counters(alloc, object, less)
    }

    // The allocation of the object is gone: neither a weak slot nor its value holds it (`std::sync::Weak`). It has these counters, and
    // what stood there added this part to the sum.
    fn free(
        &mut self,
        alloc: Global,
        object: u32,
        part: u64,
        counters: Counters,
        events: &mut Vec<Event>,
    ) -> Result<(), AllocError>
        ensures step { OnOk result (Becomes (drafted self.new) [] events.old.items events.new.items
            (left_by (drafted self.old) [] (Goes object))) }
        ensures set { OnOk result (IsSetAt self.old.objects.counts self.new.objects.counts object
            counters) }
    {
        events.push(Event::Freed(object))?;
        self.objects.free(alloc, object, part, counters)
    }
}

// Tells the object of an item that was dropped, if no event tells of it.
#[inline(always)]
fn tell_silent(item: Item, has_event: bool, keys: &mut Vec<Key>) -> Result<(), AllocError>
    ensures { OnOk result (IsItemTold item has_event keys.old.items keys.new.items) }
{
    if has_event {
        return Ok(());
    }
    tell_item(item, keys)
}

// Whether nothing names a husk any more.
fn is_last(entry: Option<&Entry>, counters: Counters) -> bool
    ensures { result ≡ ((counters.weak == 0) && (is_husk (option_copied entry.entry)
        && (counters.ends == 0))) }
{
    counters.weak == 0 && matches!(entry, Some(Entry::Husk)) && counters.ends == 0
}

// The value of an object falls with its last strong slot: that it is destroyed is told, and its fields, and then its end, are pending
// before all else. Gives what the value added to the sum.
fn fall(
    entry: Option<&Entry>,
    object: u32,
    pending: &mut VecDeque<Item>,
    events: &mut Vec<Event>,
) -> Result<u64, AllocError>
    requires { is_alive (option_copied entry) ≡ true }
    ensures pending { OnOk result ((m : State) → pending.new.items
        ≡ (left_by m pending.old.items (fall object (option_copied entry.entry))).pending) }
    ensures events { OnOk result ((m : State) → events.new.items
        ≡ events.old.items ++ (left_by m pending.old.items
        (fall object (option_copied entry.entry))).events) }
{
    let Some(Entry::Alive(fields)) = entry else {
        unreachable!()
    };
    push_fields(fields.as_slice(), object, pending)?;
    events.push(Event::Destroyed(object))?;
    Ok(added(object, entry))
}

// The fields in the order of their declaration (Rust Reference, Destructors), and then the end of the object, go before
// what is pending: all that a field sets off comes before the next field.
fn push_fields(fields: &[Slot], object: u32, pending: &mut VecDeque<Item>) -> Result<(), AllocError>
    ensures { OnOk result (pending.new.items ≡ drops fields.now
        (item.End object ∷ pending.old.items)) }
{
    pending.push_front(Item::End(object))?;
    let mut left = fields.len();
    while left > 0 {
        left -= 1;
        pending.push_front(Item::Slot(fields[left]))?;
    }
    Ok(())
}
