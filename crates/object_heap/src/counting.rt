//! How often each object is named.
ghost use Rattle.std.specs.Prelude.{◌≡◌, OnOk, length};
ghost use Rattle.std.specs.Option.{option_map_or};
ghost use Rattle.std.specs.FinMap as map;
ghost use Rattle.ownership_model.specs.State.{slots_weight, holding_weight, entry_weight};
ghost use Rattle.ownership_model.specs.Bounds.{HoldingFits, EntryFits};
ghost use Rattle.object_heap.specs.Gains.{CountsMore, CountsItem, HasSlots, HasRoom};

use crate::counters::{Counters, NOTHING};
use crate::objects::Objects;
use std::alloc::{AllocError, Global};
use trace_types::limits::MAX_FIELDS;
use trace_types::slots::{Entry, Holding, Item, Slot};

/// Counts a slot more.
pub fn hold(alloc: Global, objects: &mut Objects, slot: Slot) -> Result<(), AllocError>
    requires { HasRoom objects.old.counts 1 }
    ensures counts { OnOk result (CountsMore objects.old.counts objects.new.counts (λ w. w slot)) }
    ensures entries { OnOk result (objects.new.entries ≡ objects.old.entries) }
{
    match slot {
        Slot::Strong(object) => {
            let one = Counters {
                strong: 1,
                ..NOTHING
            };
            objects.count_more(alloc, object, one)
        }
        Slot::Weak(object) => {
            let one = Counters { weak: 1, ..NOTHING };
            objects.count_more(alloc, object, one)
        }
        Slot::Nothing | Slot::Dangling => Ok(()),
    }
}

/// Counts a slot no more.
pub fn let_go(alloc: Global, objects: &mut Objects, slot: Slot) -> Result<(), AllocError>
    requires { HasSlots objects.old.counts (λ w. w slot) }
    ensures counts { OnOk result (CountsMore objects.new.counts objects.old.counts (λ w. w slot)) }
    ensures entries { OnOk result (objects.new.entries ≡ objects.old.entries) }
{
    match slot {
        Slot::Strong(object) => {
            let one = Counters {
                strong: 1,
                ..NOTHING
            };
            objects.count_less(alloc, object, one)
        }
        Slot::Weak(object) => {
            let one = Counters { weak: 1, ..NOTHING };
            objects.count_less(alloc, object, one)
        }
        Slot::Nothing | Slot::Dangling => Ok(()),
    }
}

/// Counts an item that is pending.
pub fn hold_item(alloc: Global, objects: &mut Objects, item: Item) -> Result<(), AllocError>
    requires { HasRoom objects.old.counts 1 }
    ensures counts { OnOk result (CountsItem objects.old.counts objects.new.counts item) }
    ensures entries { OnOk result (objects.new.entries ≡ objects.old.entries) }
{
    match item {
        Item::Slot(slot) => hold(alloc, objects, slot),
        Item::End(object) => {
            let one = Counters { ends: 1, ..NOTHING };
            objects.count_more(alloc, object, one)
        }
    }
}

/// Counts each of the slots.
pub fn hold_all(alloc: Global, objects: &mut Objects, slots: &[Slot]) -> Result<(), AllocError>
    requires { HasRoom objects.old.counts (length slots.now) }
    ensures counts { OnOk result (CountsMore objects.old.counts objects.new.counts
        (λ w. slots_weight w slots.now)) }
    ensures entries { OnOk result (objects.new.entries ≡ objects.old.entries) }
{
    for slot in slots {
        hold(alloc, objects, *slot)?;
    }
    Ok(())
}

/// Counts none of the slots any more.
pub fn let_go_all(alloc: Global, objects: &mut Objects, slots: &[Slot]) -> Result<(), AllocError>
    requires { HasSlots objects.old.counts (λ w. slots_weight w slots.now) }
    ensures counts { OnOk result (CountsMore objects.new.counts objects.old.counts
        (λ w. slots_weight w slots.now)) }
    ensures entries { OnOk result (objects.new.entries ≡ objects.old.entries) }
{
    for slot in slots {
        let_go(alloc, objects, *slot)?;
    }
    Ok(())
}

/// Counts what a handle holds.
#[inline(always)]
pub fn hold_holding(
    alloc: Global,
    objects: &mut Objects,
    holding: &Holding,
) -> Result<(), AllocError>
    requires room { HasRoom objects.old.counts MAX_FIELDS }
    requires fits { HoldingFits holding.now }
    ensures counts { OnOk result (CountsMore objects.old.counts objects.new.counts
        (λ w. holding_weight w holding.now)) }
    ensures entries { OnOk result (objects.new.entries ≡ objects.old.entries) }
{
    match holding {
        Holding::Slot(slot) => hold(alloc, objects, *slot),
        Holding::Bare(fields) => hold_all(alloc, objects, fields.as_slice()),
    }
}

/// Counts what a handle held no more.
pub fn let_go_holding(
    alloc: Global,
    objects: &mut Objects,
    holding: &Holding,
) -> Result<(), AllocError>
    requires { HasSlots objects.old.counts (λ w. holding_weight w holding.now) }
    ensures counts { OnOk result (CountsMore objects.new.counts objects.old.counts
        (λ w. holding_weight w holding.now)) }
    ensures entries { OnOk result (objects.new.entries ≡ objects.old.entries) }
{
    match holding {
        Holding::Slot(slot) => let_go(alloc, objects, *slot),
        Holding::Bare(fields) => let_go_all(alloc, objects, fields.as_slice()),
    }
}

/// Counts the fields of an object.
pub fn hold_entry(alloc: Global, objects: &mut Objects, entry: &Entry) -> Result<(), AllocError>
    requires room { HasRoom objects.old.counts MAX_FIELDS }
    requires fits { EntryFits entry.now }
    ensures counts { OnOk result (CountsMore objects.old.counts objects.new.counts
        (λ w. entry_weight w entry.now)) }
    ensures entries { OnOk result (objects.new.entries ≡ objects.old.entries) }
{
    match entry {
        Entry::Alive(fields) => hold_all(alloc, objects, fields.as_slice()),
        Entry::Husk => Ok(()),
    }
}

/// Counts the fields of an object, if there is one, no more. They are held while they are gone through, by one share.
pub fn let_go_object(alloc: Global, objects: &mut Objects, object: u32) -> Result<(), AllocError>
    requires { HasSlots objects.old.counts (λ w.
        option_map_or (entry_weight w) (map.get objects.old.entries object) 0) }
    ensures counts { OnOk result (CountsMore objects.new.counts objects.old.counts
        (λ w. option_map_or (entry_weight w) (map.get objects.old.entries object) 0)) }
    ensures entries { OnOk result (objects.new.entries ≡ objects.old.entries) }
{
    let kept = objects.at(object)?;
    match kept.entry() {
        Some(entry) => let_go_entry(alloc, objects, entry),
        None => Ok(()),
    }
}

// Counts the fields of an entry no more.
fn let_go_entry(alloc: Global, objects: &mut Objects, entry: &Entry) -> Result<(), AllocError>
    requires { HasSlots objects.old.counts (λ w. entry_weight w entry.now) }
    ensures counts { OnOk result (CountsMore objects.new.counts objects.old.counts
        (λ w. entry_weight w entry.now)) }
    ensures entries { OnOk result (objects.new.entries ≡ objects.old.entries) }
{
    match entry {
        Entry::Alive(fields) => let_go_all(alloc, objects, fields.as_slice()),
        Entry::Husk => Ok(()),
    }
}
