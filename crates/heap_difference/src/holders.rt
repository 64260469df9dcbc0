//! How many slots name objects where operations set nothing.
ghost use Rattle.std.specs.Prelude.{◌≡◌, ◌↔◌, if◌then◌else◌, Bool, [], false, IfOk, OnOk, IsTrue, map};
ghost use Rattle.std.specs.List.{Contains, list_any};
ghost use Rattle.trace_types.specs.declared.slots.Slot.TheVariants.{Strong};
ghost use Rattle.ownership_model.specs.declared.key.Key.{Key};
ghost use Rattle.ownership_model.specs.State.{State, slots_weight, names_alike};
ghost use Rattle.heap_difference.specs.KeySets.{set_of};
ghost use Rattle.heap_difference.specs.Naming.{with_names, with_sets};
ghost use Rattle.heap_difference.specs.Holders.{IsCountedIn, AreOfLessened, WerePassed, MustPass, IsNoMoreCounted, IsOneCounted, AreAllLeft, AreSlotsAt, are_named_by, less_by};

use crate::key_set::KeySet;
use crate::numbers::Numbers;
use crate::recent::Recent;
use crate::setting::add_sets;
use crate::shifts::Shift;
use object_heap::Heap;
use ownership_model::Key;
use std::alloc::{AllocError, Global};
use trace_types::ops::Op;
use trace_types::outcomes::Outcome;
use trace_types::slots::{Entry, Holding, Slot};

/// How many keys of each operation have room at first.
const KEYS_AN_OP: usize = 4;

/// An object, and how many slots name it strongly in a heap, less those that are no longer counted.
#[derive(Clone, Copy, Debug)]
pub struct Holder {
    pub object: u32,
    pub left: u64,
}

/// The objects that are named strongly less often in a new heap than in an old one, each with how many of these slots stand at keys that no operation
/// may have set since.
#[derive(Drop)]
pub struct Holders {
    pub objects: KeySet,
    pub items: Vec<Holder>,
    // the keys whose slots are no longer counted
    pub counted: Vec<Key>,
    // handles of which none is counted any more
    pub recent: Recent,
}

impl Holders {
    /// The objects that have fewer holders in the new heap, which is this one.
    pub fn of(alloc: Global, shifts: &[Shift], from: &Heap) -> Result<Holders, AllocError>
        ensures counted { IfOk result (IsCountedIn (λ x. false) from.now) }
        ensures lessened { IfOk result (AreOfLessened shifts.now) }
        ensures none { IfOk result (λ h. h.counted.items ≡ []) }
    {
        let mut objects = Vec::new(alloc);
        let mut items = Vec::new(alloc);
        for shift in shifts {
            if shift.new_strong < shift.old_strong {
                let object = shift.object;
                objects.push(object)?;
                items.push(Holder {
                    object,
                    left: from.strong(object),
                })?;
            }
        }
        let objects = KeySet {
            handles: Numbers::none(alloc),
            cells: Numbers::none(alloc),
            objects: Numbers::of(objects),
            labels: Numbers::none(alloc),
        };
        Ok(Holders {
            objects,
            items,
            counted: Vec::new(alloc),
            recent: Recent::none(),
        })
    }

    /// Whether operations may be passed: they touch none of these objects, or each of the objects is named by a slot of the heap that stands where
    /// neither they nor those before set anything. A handle that is only used, and a value that is only read, still hold what they held.
    pub fn pass(
        &mut self,
        alloc: Global,
        from: &Heap,
        told: &[Key],
        ops: &[Op],
        outcomes: &[Outcome],
    ) -> Result<bool, AllocError>
        ensures passed { (t : Key → Bool) → IsCountedIn t from.now self.old →
            IfOk result (λ may. IsTrue may → WerePassed t
            (set_of (with_names told.now ops.now outcomes.now))
            (set_of (with_sets told.now ops.now outcomes.now)) from.now self.old self.new) }
        ensures must { (t : Key → Bool) → IsCountedIn t from.now self.old →
            MustPass (set_of (with_names told.now ops.now outcomes.now))
            (set_of (with_sets told.now ops.now outcomes.now)) from.now self.old →
            IfOk result IsTrue }
        ensures no_more { OnOk result (IsNoMoreCounted
            (set_of (with_sets told.now ops.now outcomes.now)) self.old self.new) }
    {
        if !self.objects.touches_all(told, ops, outcomes) {
            return Ok(true);
        }
        let mut keys = Vec::with_capacity(alloc, ops.len().saturating_mul(KEYS_AN_OP))?;
        add_sets(told, ops, outcomes, &mut keys)?;
        for key in &keys {
            self.count_once(from, *key)?;
        }
        Ok(self.are_left())
    }

    // The slots that stand at a key are no longer counted, if they still were. A handle that was met lately is not looked up again.
    #[inline(always)]
    fn count_once(&mut self, from: &Heap, key: Key) -> Result<(), AllocError>
        ensures { OnOk result (IsOneCounted key from.now self.old self.new) }
    {
        let Key::Handle(handle) = key else {
            return self.count_off(from, key);
        };
        if self.recent.has(handle) {
            return Ok(());
        }
        self.count_off(from, key)?;
        self.recent.put(handle);
        Ok(())
    }

    // The slots that stand at a key are no longer counted, if they still were.
    fn count_off(&mut self, from: &Heap, key: Key) -> Result<(), AllocError>
        ensures { OnOk result (IsOneCounted key from.now self.old self.new) }
    {
        match key {
            Key::Handle(handle) => match from.holding(handle) {
                Some(Holding::Slot(slot)) => self.take_off(key, &[*slot]),
                Some(Holding::Bare(fields)) => self.take_off(key, fields.as_slice()),
                None => Ok(()),
            },
            Key::Cell(cell) => match from.cell(cell) {
                Some(slot) => self.take_off(key, &[slot]),
                None => Ok(()),
            },
            Key::Object(object) => match from.object(object) {
                Some(Entry::Alive(fields)) => self.take_off(key, fields.as_slice()),
                Some(Entry::Husk) => Ok(()),
                None => Ok(()),
            },
            Key::Scope(_) => Ok(()),
        }
    }

    // The slots, which stand at the key, are no longer counted, if they still were.
    fn take_off(&mut self, key: Key, slots: &[Slot]) -> Result<(), AllocError>
        ensures { OnOk result ((from : State) → AreSlotsAt key from slots.now →
            IsOneCounted key from self.old self.new) }
    {
        if !are_named(&self.items, slots) || self.has_counted(key) {
            return Ok(());
        }
        self.counted.push(key)?;
        lessen(&mut self.items, slots);
        Ok(())
    }

    // Whether the slots of a key are no longer counted.
    fn has_counted(&self, key: Key) -> bool
        ensures { IsTrue result ↔ Contains self.now.counted.items key }
    {
        for counted in &self.counted {
            if *counted == key {
                return true;
            }
        }
        false
    }

    // Whether of each object a slot is left.
    fn are_left(&self) -> bool
        ensures { IsTrue result ↔ AreAllLeft self.now }
    {
        for holder in &self.items {
            if holder.left == 0 {
                return false;
            }
        }
        true
    }
}

// Whether one of the slots names one of the objects strongly.
fn are_named(items: &[Holder], slots: &[Slot]) -> bool
    ensures { result ≡ list_any (are_named_by slots.now) items.now }
{
    for holder in items {
        if naming(slots, holder.object) > 0 {
            return true;
        }
    }
    false
}

// Of each object as many slots fewer are left as these name it.
fn lessen(items: &mut [Holder], slots: &[Slot])
    ensures { items.new ≡ map (less_by slots.now) items.old }
{
    for at in 0..items.len() {
        let holder = items[at];
        items[at] = Holder {
            object: holder.object,
            left: holder.left.saturating_sub(naming(slots, holder.object)),
        };
    }
}

// How many of the slots name an object strongly.
#[inline(always)]
fn naming(slots: &[Slot], object: u32) -> u64
    ensures { result ≡ slots_weight (names_alike (Strong object)) slots.now }
{
    let mut count = 0u64;
    for slot in slots {
        if is_naming(*slot, object) {
            count += 1;
        }
    }
    count
}

// Whether a slot names an object strongly.
#[inline(always)]
fn is_naming(slot: Slot, object: u32) -> bool
    ensures { names_alike (Strong object) slot ≡ if result then 1 else 0 }
{
    match slot {
        Slot::Strong(named) => named == object,
        Slot::Nothing | Slot::Weak(_) | Slot::Dangling => false,
    }
}
