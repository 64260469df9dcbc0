//! Keys that are told beside what is done: the objects of slots that are moved or dropped.
ghost use Rattle.std.specs.Prelude.{◌≡◌, ◌++◌, ◌∷◌, [], Some, OnOk, IsTrue, flat_map, slice_get};
ghost use Rattle.std.specs.Option.{option_copied};
ghost use Rattle.ownership_model.specs.declared.key.Key.TheVariants as key;
ghost use Rattle.ownership_model.specs.Alike.{Covers};
ghost use Rattle.ownership_model.specs.Table.{fields_of};
ghost use Rattle.ownership_model.specs.Footprint.{slot_keys, slots_keys, holding_keys, cell_keys, item_keys, moved_by};
ghost use Rattle.object_heap.specs.Counted.{drafted};
ghost use Rattle.object_heap.specs.Told.{at_once, IsLast};

use crate::draft::Draft;
use ownership_model::Key;
use std::alloc::AllocError;
use trace_types::slots::{Change, Entry, Holding, Item, Slot};

/// Tells an object, unless it is the key that was told last.
#[inline(always)]
pub fn tell_once(object: u32, keys: &mut Vec<Key>) -> Result<(), AllocError>
    ensures { OnOk result (Covers keys.new.items (keys.old.items ++ key.Object object ∷ [])) }
{
    if is_last(object, keys.as_slice()) {
        return Ok(());
    }
    Ok(keys.push(Key::Object(object))?)
}

/// Takes an object back, if it is the key that was told last. All other keys stay.
#[inline(always)]
pub fn take_back(object: u32, keys: &mut Vec<Key>)
    ensures { Covers (keys.new.items ++ key.Object object ∷ []) keys.old.items }
{
    if is_last(object, keys.as_slice()) {
        let _key = keys.pop();
    }
}

// Whether an object is the key that was told last.
#[inline(always)]
fn is_last(object: u32, keys: &[Key]) -> bool
    ensures { IsTrue result → IsLast (key.Object object) keys.now }
{
    match keys.last() {
        Some(Key::Object(last)) => *last == object,
        Some(Key::Handle(_) | Key::Cell(_) | Key::Scope(_)) | None => false,
    }
}

/// Tells the object of an item that is dropped.
pub fn tell_item(item: Item, keys: &mut Vec<Key>) -> Result<(), AllocError>
    ensures { OnOk result (Covers keys.new.items (keys.old.items ++ item_keys item)) }
{
    match item {
        Item::Slot(slot) => tell_slot(slot, keys),
        Item::End(object) => tell_once(object, keys),
    }
}

/// Tells the object of an item that is dropped at once: the first one, where it is a strong slot.
pub fn tell_at_once(items: &[Item], keys: &mut Vec<Key>) -> Result<(), AllocError>
    ensures { OnOk result (Covers keys.new.items
        (keys.old.items ++ flat_map item_keys (at_once items.now))) }
{
    if let Some((Item::Slot(Slot::Strong(object)), _)) = items.split_first() {
        return tell_once(*object, keys);
    }
    Ok(())
}

impl Draft {
    /// Tells what a change moves or copies, before it is made. The place that it sets isn't told.
    #[inline(always)]
    pub fn tell_change(&self, change: &Change, keys: &mut Vec<Key>) -> Result<(), AllocError>
        ensures { OnOk result (Covers keys.new.items
            (keys.old.items ++ moved_by (drafted self.now) change.now)) }
    {
        match change {
            Change::SetHandle(_, handle, holding) => {
                tell_holding(holding, keys)?;
                tell_held(self.handles.get(*handle), keys)
            }
            Change::EndHandle(handle) => tell_held(self.handles.get(*handle), keys),
            Change::SetCell(cell, slot) => {
                tell_slot(*slot, keys)?;
                tell_cell(self.cells.get(*cell), keys)
            }
            Change::EndCell(cell) => tell_cell(self.cells.get(*cell), keys),
            Change::SetField(object, index, slot) => {
                tell_slot(*slot, keys)?;
                tell_field(self.objects.get(*object), *index, keys)
            }
            Change::Make(_, fields) => tell_slots(fields.as_slice(), keys),
            Change::TurnHusk(object) => tell_fields(self.objects.get(*object), keys),
        }
    }
}

// Tells the object that a slot names.
#[inline(always)]
fn tell_slot(slot: Slot, keys: &mut Vec<Key>) -> Result<(), AllocError>
    ensures { OnOk result (Covers keys.new.items (keys.old.items ++ slot_keys slot)) }
{
    match slot {
        Slot::Strong(object) | Slot::Weak(object) => tell_once(object, keys),
        Slot::Nothing | Slot::Dangling => Ok(()),
    }
}

// Tells the objects that slots name, in order.
fn tell_slots(slots: &[Slot], keys: &mut Vec<Key>) -> Result<(), AllocError>
    ensures { OnOk result (Covers keys.new.items (keys.old.items ++ slots_keys slots.now)) }
{
    for slot in slots {
        tell_slot(*slot, keys)?;
    }
    Ok(())
}

/// Tells the objects that what a handle holds names.
#[inline(always)]
pub fn tell_holding(holding: &Holding, keys: &mut Vec<Key>) -> Result<(), AllocError>
    ensures { OnOk result (Covers keys.new.items
        (keys.old.items ++ holding_keys (Some holding.now))) }
{
    match holding {
        Holding::Slot(slot) => tell_slot(*slot, keys),
        Holding::Bare(fields) => tell_slots(fields.as_slice(), keys),
    }
}

/// As `tell_holding`, of a handle that may be held.
#[inline(always)]
pub fn tell_held(held: Option<&Holding>, keys: &mut Vec<Key>) -> Result<(), AllocError>
    ensures { OnOk result (Covers keys.new.items
        (keys.old.items ++ holding_keys (option_copied held.entry))) }
{
    match held {
        Some(holding) => tell_holding(holding, keys),
        None => Ok(()),
    }
}

// Tells the object that what a cell holds names, if the cell is there.
fn tell_cell(held: Option<&Slot>, keys: &mut Vec<Key>) -> Result<(), AllocError>
    ensures { OnOk result (Covers keys.new.items
        (keys.old.items ++ cell_keys (option_copied held.entry))) }
{
    match held {
        Some(slot) => tell_slot(*slot, keys),
        None => Ok(()),
    }
}

// Tells the object that a field names, where the object's value lives and has it.
fn tell_field(entry: Option<&Entry>, index: u32, keys: &mut Vec<Key>) -> Result<(), AllocError>
    ensures { OnOk result (Covers keys.new.items
        (keys.old.items ++ cell_keys (slice_get (fields_of (option_copied entry.entry)) index))) }
{
    match entry {
        Some(Entry::Alive(fields)) => tell_cell(fields.as_slice().get(index as usize), keys),
        Some(Entry::Husk) | None => Ok(()),
    }
}

// Tells the objects that the fields of an object name, where its value lives.
fn tell_fields(entry: Option<&Entry>, keys: &mut Vec<Key>) -> Result<(), AllocError>
    ensures { OnOk result (Covers keys.new.items
        (keys.old.items ++ slots_keys (fields_of (option_copied entry.entry)))) }
{
    match entry {
        Some(Entry::Alive(fields)) => tell_slots(fields.as_slice(), keys),
        Some(Entry::Husk) | None => Ok(()),
    }
}
