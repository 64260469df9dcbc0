//! A state as plain lists, whose slots are counted by walking them.
ghost use Rattle.std.specs.Prelude.{◌≡◌, ◌<◌, ◌^◌};
ghost use Rattle.ownership_model.specs.Totals.{total_in};
ghost use Rattle.ownership_model.specs.State.{nothing_held, slots_weight, holding_weight, entry_weight, items_weight, weight};
ghost use Rattle.ownership_model.specs.State as State;
ghost use Rattle.ownership_model.specs.Bounds.{IsBounded};
ghost use Rattle.ownership_model.specs.Plain.{state_of};

use crate::plain::number_map::NumberMap;
use std::alloc::Global;
use trace_types::slots::{Entry, Holding, Item, Scoped, Slot};

/// What handles and cells hold, and which objects stand.
#[derive(Drop)]
pub struct PlainState {
    pub handles: NumberMap<Holding>,
    pub cells: NumberMap<Slot>,
    pub objects: NumberMap<Entry>,
    pub scopes: Vec<Scoped>,
}

impl PlainState {
    /// Nothing is held. Takes no memory.
    pub fn empty(alloc: Global) -> PlainState
        ensures { state_of result ≡ nothing_held }
    {
        PlainState {
            handles: NumberMap::empty(alloc),
            cells: NumberMap::empty(alloc),
            objects: NumberMap::empty(alloc),
            scopes: Vec::new(alloc),
        }
    }

    /// How many slots name an object as `counted` does, strongly or weakly: those of handles, of cells, of the fields of
    /// objects, and those that are still to be dropped.
    pub fn count(&self, counted: Slot, pending: &[Item]) -> u64
        requires { IsBounded (state_of self.now) }
        ensures { result ≡ weight (State.names_alike counted) (state_of self.now) pending.now }
    {
        self.total(counted, pending)
    }

    fn total(&self, counted: Slot, pending: &[Item]) -> u64
        requires { weight (State.names_alike counted) (state_of self.now) pending.now < 2 ^ 64 }
        ensures { result ≡ weight (State.names_alike counted) (state_of self.now) pending.now }
    {
        count_in_handles(counted, self.handles.entries())
            + count_in_cells(counted, self.cells.entries())
            + count_in_objects(counted, self.objects.entries())
            + count_in_items(counted, pending)
    }
}

fn count_in_handles(counted: Slot, handles: &[(u32, Holding)]) -> u64
    requires { total_in (holding_weight (State.names_alike counted)) handles.now < 2 ^ 64 }
    ensures { result ≡ total_in (holding_weight (State.names_alike counted)) handles.now }
{
    let mut count = 0;
    for handle in handles {
        count += count_in_holding(counted, &handle.1);
    }
    count
}

fn count_in_cells(counted: Slot, cells: &[(u32, Slot)]) -> u64
    requires { total_in (State.names_alike counted) cells.now < 2 ^ 64 }
    ensures { result ≡ total_in (State.names_alike counted) cells.now }
{
    let mut count = 0;
    for cell in cells {
        count += names_alike(counted, cell.1);
    }
    count
}

fn count_in_objects(counted: Slot, objects: &[(u32, Entry)]) -> u64
    requires { total_in (entry_weight (State.names_alike counted)) objects.now < 2 ^ 64 }
    ensures { result ≡ total_in (entry_weight (State.names_alike counted)) objects.now }
{
    let mut count = 0;
    for object in objects {
        count += count_in_entry(counted, &object.1);
    }
    count
}

fn count_in_items(counted: Slot, items: &[Item]) -> u64
    requires { items_weight (State.names_alike counted) items.now < 2 ^ 64 }
    ensures { result ≡ items_weight (State.names_alike counted) items.now }
{
    let mut count = 0;
    for item in items {
        if let Item::Slot(slot) = item {
            count += names_alike(counted, *slot);
        }
    }
    count
}

fn count_in_holding(counted: Slot, held: &Holding) -> u64
    requires { holding_weight (State.names_alike counted) held.now < 2 ^ 64 }
    ensures { result ≡ holding_weight (State.names_alike counted) held.now }
{
    match held {
        Holding::Slot(slot) => names_alike(counted, *slot),
        Holding::Bare(fields) => count_in_slots(counted, fields.as_slice()),
    }
}

fn count_in_entry(counted: Slot, entry: &Entry) -> u64
    requires { entry_weight (State.names_alike counted) entry.now < 2 ^ 64 }
    ensures { result ≡ entry_weight (State.names_alike counted) entry.now }
{
    match entry {
        Entry::Alive(fields) => count_in_slots(counted, fields.as_slice()),
        Entry::Husk => 0,
    }
}

fn count_in_slots(counted: Slot, slots: &[Slot]) -> u64
    requires { slots_weight (State.names_alike counted) slots.now < 2 ^ 64 }
    ensures { result ≡ slots_weight (State.names_alike counted) slots.now }
{
    let mut count = 0;
    for slot in slots {
        count += names_alike(counted, *slot);
    }
    count
}

// One where the slot names the object that `counted` names, and as it does.
fn names_alike(counted: Slot, slot: Slot) -> u64
    ensures { result ≡ State.names_alike counted slot }
{
    match (counted, slot) {
        (Slot::Strong(object), Slot::Strong(named)) | (Slot::Weak(object), Slot::Weak(named)) => {
            if named == object { 1 } else { 0 }
        }
        (Slot::Strong(_) | Slot::Weak(_) | Slot::Nothing | Slot::Dangling, _) => 0,
    }
}
