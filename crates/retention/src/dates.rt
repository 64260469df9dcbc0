//! What each place holds, and since which operation.
ghost use Rattle.std.specs.Prelude.{◌≡◌, ◌≤◌, ◌++◌, ◌∷◌, ◌==◌, [], ℕ, Option, Some, None, false, length, slice_get, IfOk, OnOk};
ghost use Rattle.std.specs.List.{list_any};
ghost use Rattle.std.specs.Ordering.{nat_cmp};
ghost use Rattle.std.specs.BTreeMap.{get};
ghost use Rattle.std.specs.FinMap as map;
ghost use Rattle.ownership_model.specs.State.{State};
ghost use Rattle.retention_model.specs.Places.{held_at, field_at, handle_places, object_places};
ghost use Rattle.retention_model.specs.Looked.{is_of_handle, is_cell, is_of_object, sets, tells, is_set, is_looked_at};
ghost use Rattle.retention_model.specs.Turns.{or_nothing, at_place};
ghost use Rattle.retention_model.specs.declared.place.Place.{Place};
ghost use Rattle.retention_model.specs.declared.place.Place.TheVariants.{Cell};
ghost use Rattle.trace_types.specs.declared.limits.TheConstants.{MAX_FIELDS};
ghost use Rattle.retention.specs.Dates.{dated_in, dated_field, dated_at, Tell, Looks, redated_all, field_place, index_in, moved_field};
ghost use Rattle.retention.specs.HeldPlaces.{held_among};
ghost use Rattle.retention.specs.Lists.{held_dated, held_fields};

use crate::dated::{Dated, DatedFields, DatedHolding, Owner};
use crate::lifelines::object_of;
use crate::moves::note;
use crate::redated::{redated, redated_if, slot_of};
use object_heap::Heap;
use ownership_model::Plan;
use retention_model::{Held, Moved, Place};
use std::alloc::{AllocError, Global};
use std::collections::BTreeMap;
use trace_types::limits::MAX_FIELDS;
use trace_types::outcomes::Event;
use trace_types::slots::{Change, Entry, Holding, Slot};

/// What handles, cells and the fields of objects hold, each slot with the operation since which it stands in its place.
#[derive(Drop)]
pub struct Dates {
    alloc: Global,
    handles: BTreeMap<u32, DatedHolding>,
    cells: BTreeMap<u32, Dated>,
    objects: BTreeMap<u32, DatedFields>,
}

impl Dates {
    /// Nothing is held. Takes no memory.
    pub fn new(alloc: Global) -> Dates
        ensures { (p : Place) → dated_at result p ≡ None }
    {
        Dates {
            alloc,
            handles: BTreeMap::new(alloc),
            cells: BTreeMap::new(alloc),
            objects: BTreeMap::new(alloc),
        }
    }

    /// Follows an operation to the heap that it left, and notes what moved. Only the places that the plan and the events tell of are looked
    /// at.
    pub fn follow(
        &mut self,
        heap: &Heap,
        plan: &Plan,
        events: &[Event],
        id: u32,
        moved: &mut Vec<Moved>,
    ) -> Result<(), AllocError>
        ensures { OnOk result
            (Looks (λ p. is_looked_at p plan.now events.now) heap.now id self.old self.new
            moved.old.items moved.new.items) }
    {
        self.follow_plan(heap, plan, id, moved)?;
        self.follow_events(heap, events, id, moved)
    }

    fn follow_plan(
        &mut self,
        heap: &Heap,
        plan: &Plan,
        id: u32,
        moved: &mut Vec<Moved>,
    ) -> Result<(), AllocError>
        ensures { OnOk result
            (Looks (λ p. is_set p plan.now) heap.now id self.old self.new
            moved.old.items moved.new.items) }
    {
        match plan {
            Plan::Skip(_) => Ok(()),
            Plan::Act { changes, .. } => self.follow_changes(heap, changes.as_slice(), id, moved),
        }
    }

    fn follow_changes(
        &mut self,
        heap: &Heap,
        changes: &[Change],
        id: u32,
        moved: &mut Vec<Moved>,
    ) -> Result<(), AllocError>
        ensures { OnOk result
            (Looks (λ p. list_any (sets p) changes.now) heap.now id self.old self.new
            moved.old.items moved.new.items) }
    {
        for change in changes {
            self.follow_change(heap, change, id, moved)?;
        }
        Ok(())
    }

    fn follow_events(
        &mut self,
        heap: &Heap,
        events: &[Event],
        id: u32,
        moved: &mut Vec<Moved>,
    ) -> Result<(), AllocError>
        ensures { OnOk result
            (Looks (λ p. list_any (tells p) events.now) heap.now id self.old self.new
            moved.old.items moved.new.items) }
    {
        for event in events {
            self.follow_event(heap, *event, id, moved)?;
        }
        Ok(())
    }

    fn follow_event(
        &mut self,
        heap: &Heap,
        event: Event,
        id: u32,
        moved: &mut Vec<Moved>,
    ) -> Result<(), AllocError>
        ensures { OnOk result
            (Looks (λ p. tells p event) heap.now id self.old self.new
            moved.old.items moved.new.items) }
    {
        self.redate_object(heap, object_of(event), id, moved)
    }

    fn follow_change(
        &mut self,
        heap: &Heap,
        change: &Change,
        id: u32,
        moved: &mut Vec<Moved>,
    ) -> Result<(), AllocError>
        ensures { OnOk result
            (Looks (λ p. sets p change.now) heap.now id self.old self.new
            moved.old.items moved.new.items) }
    {
        match change {
            Change::SetHandle(_, handle, _) | Change::EndHandle(handle) => {
                self.redate_handle(heap, *handle, id, moved)
            }
            Change::SetCell(cell, _) | Change::EndCell(cell) => {
                self.redate_cell(heap, *cell, id, moved)
            }
            Change::SetField(object, _, _) | Change::Make(object, _) | Change::TurnHusk(object) => {
                self.redate_object(heap, *object, id, moved)
            }
        }
    }

    // What a handle holds now.
    fn redate_handle(
        &mut self,
        heap: &Heap,
        handle: u32,
        id: u32,
        moved: &mut Vec<Moved>,
    ) -> Result<(), AllocError>
        ensures { OnOk result
            (Looks (is_of_handle handle) heap.now id self.old self.new
            moved.old.items moved.new.items) }
    {
        let slot = slot_held(heap, handle);
        let fields = fields_held(heap, handle);
        let old = self.take_handle(handle);
        note(
            moved,
            Place::Handle(handle, None),
            slot_of(old.slot),
            slot_or_nothing(slot),
        )?;
        note_fields(moved, Owner::Handle(handle), &old.fields, fields)?;
        let dated = DatedHolding {
            slot: redated_if(old.slot, slot, id),
            fields: redated_fields(self.alloc, &old.fields, fields, id)?,
        };
        self.keep_handle(handle, dated)?;
        Ok(())
    }

    // What a cell holds now.
    fn redate_cell(
        &mut self,
        heap: &Heap,
        cell: u32,
        id: u32,
        moved: &mut Vec<Moved>,
    ) -> Result<(), AllocError>
        ensures { OnOk result
            (Looks (is_cell cell) heap.now id self.old self.new moved.old.items moved.new.items) }
    {
        let slot = heap.cell(cell);
        let old = self.take_cell(cell);
        note(
            moved,
            Place::Cell(cell),
            slot_of(old),
            slot_or_nothing(slot),
        )?;
        self.keep_cell(cell, redated_if(old, slot, id))?;
        Ok(())
    }

    // What the fields of an object hold now.
    fn redate_object(
        &mut self,
        heap: &Heap,
        object: u32,
        id: u32,
        moved: &mut Vec<Moved>,
    ) -> Result<(), AllocError>
        ensures { OnOk result
            (Looks (is_of_object object) heap.now id self.old self.new
            moved.old.items moved.new.items) }
    {
        let fields = fields_alive(heap, object);
        let old = self.take_object(object);
        note_fields(moved, Owner::Object(object), &old, fields)?;
        let dated = redated_fields(self.alloc, &old, fields, id)?;
        self.keep_object(object, dated)?;
        Ok(())
    }

    // What was kept of a handle, which it no longer is.
    fn take_handle(&mut self, handle: u32) -> DatedHolding
        ensures slot { result.slot ≡ dated_in (get nat_cmp self.old.handles handle) None }
        ensures fields { (i : ℕ) →
            slice_get result.fields.slots.items i
            ≡ dated_in (get nat_cmp self.old.handles handle) (Some i) }
        ensures gone { get nat_cmp self.new.handles handle ≡ None }
        ensures others { (g : ℕ) → (handle == g) ≡ false →
            get nat_cmp self.new.handles g ≡ get nat_cmp self.old.handles g }
        ensures cells { self.new.cells ≡ self.old.cells }
        ensures objects { self.new.objects ≡ self.old.objects }
    {
        DatedHolding::of(self.alloc, self.handles.remove(&handle))
    }

    // Keeps what a handle of which nothing is kept holds, where it holds anything.
    fn keep_handle(&mut self, handle: u32, holding: DatedHolding) -> Result<(), AllocError>
        requires { get nat_cmp self.old.handles handle ≡ None }
        ensures slot { OnOk result
            (dated_in (get nat_cmp self.new.handles handle) None ≡ holding.slot) }
        ensures fields { OnOk result
            ((i : ℕ) → dated_in (get nat_cmp self.new.handles handle) (Some i)
            ≡ slice_get holding.fields.slots.items i) }
        ensures others { OnOk result
            ((g : ℕ) → (handle == g) ≡ false →
            get nat_cmp self.new.handles g ≡ get nat_cmp self.old.handles g) }
        ensures cells { self.new.cells ≡ self.old.cells }
        ensures objects { self.new.objects ≡ self.old.objects }
    {
        if holding.slot.is_some() || !holding.fields.slots.is_empty() {
            self.handles.insert(handle, holding)?;
        }
        Ok(())
    }

    // What was kept of a cell, which it no longer is.
    fn take_cell(&mut self, cell: u32) -> Option<Dated>
        ensures dated { result ≡ get nat_cmp self.old.cells cell }
        ensures gone { get nat_cmp self.new.cells cell ≡ None }
        ensures others { (d : ℕ) → (cell == d) ≡ false →
            get nat_cmp self.new.cells d ≡ get nat_cmp self.old.cells d }
        ensures handles { self.new.handles ≡ self.old.handles }
        ensures objects { self.new.objects ≡ self.old.objects }
    {
        self.cells.remove(&cell)
    }

    // Keeps what a cell of which nothing is kept holds, where it holds anything.
    fn keep_cell(&mut self, cell: u32, dated: Option<Dated>) -> Result<(), AllocError>
        requires { get nat_cmp self.old.cells cell ≡ None }
        ensures dated { OnOk result (get nat_cmp self.new.cells cell ≡ dated) }
        ensures others { OnOk result
            ((d : ℕ) → (cell == d) ≡ false →
            get nat_cmp self.new.cells d ≡ get nat_cmp self.old.cells d) }
        ensures handles { self.new.handles ≡ self.old.handles }
        ensures objects { self.new.objects ≡ self.old.objects }
    {
        if let Some(dated) = dated {
            self.cells.insert(cell, dated)?;
        }
        Ok(())
    }

    // What was kept of an object, which it no longer is.
    fn take_object(&mut self, object: u32) -> DatedFields
        ensures fields { (i : ℕ) →
            slice_get result.slots.items i ≡ dated_field (get nat_cmp self.old.objects object) i }
        ensures gone { get nat_cmp self.new.objects object ≡ None }
        ensures others { (q : ℕ) → (object == q) ≡ false →
            get nat_cmp self.new.objects q ≡ get nat_cmp self.old.objects q }
        ensures handles { self.new.handles ≡ self.old.handles }
        ensures cells { self.new.cells ≡ self.old.cells }
    {
        DatedFields::of(self.alloc, self.objects.remove(&object))
    }

    // Keeps the fields of an object of which nothing is kept, where it has any.
    fn keep_object(&mut self, object: u32, fields: DatedFields) -> Result<(), AllocError>
        requires { get nat_cmp self.old.objects object ≡ None }
        ensures fields { OnOk result
            ((i : ℕ) → dated_field (get nat_cmp self.new.objects object) i
            ≡ slice_get fields.slots.items i) }
        ensures others { OnOk result
            ((q : ℕ) → (object == q) ≡ false →
            get nat_cmp self.new.objects q ≡ get nat_cmp self.old.objects q) }
        ensures handles { self.new.handles ≡ self.old.handles }
        ensures cells { self.new.cells ≡ self.old.cells }
    {
        if !fields.slots.is_empty() {
            self.objects.insert(object, fields)?;
        }
        Ok(())
    }

    /// Adds the places of a handle that name an object, in order.
    pub fn push_handle(&self, handle: u32, held: &mut Vec<Held>) -> Result<(), AllocError>
        ensures { OnOk result ((m : State) (since : Place → ℕ) → Tell self.now m since
            → held.new.items ≡ held.old.items ++ held_among m since (handle_places handle (map.get m.handles handle))) }
    {
        match self.handles.get(&handle) {
            Some(holding) => {
                push_dated(held, Place::Handle(handle, None), holding.slot)?;
                push_dated_fields(held, Owner::Handle(handle), &holding.fields)
            }
            None => Ok(()),
        }
    }

    /// The same of a cell.
    pub fn push_cell(&self, cell: u32, held: &mut Vec<Held>) -> Result<(), AllocError>
        ensures { OnOk result ((m : State) (since : Place → ℕ) → Tell self.now m since
            → held.new.items ≡ held.old.items ++ held_among m since (Cell cell ∷ [])) }
    {
        push_dated(held, Place::Cell(cell), self.cells.get(&cell).copied())
    }

    /// Adds the fields of an object that name one, in order.
    pub fn push_fields(&self, object: u32, held: &mut Vec<Held>) -> Result<(), AllocError>
        ensures { OnOk result ((m : State) (since : Place → ℕ) → Tell self.now m since
            → held.new.items ≡ held.old.items ++ held_among m since (object_places object (map.get m.objects object))) }
    {
        match self.objects.get(&object) {
            Some(fields) => push_dated_fields(held, Owner::Object(object), fields),
            None => Ok(()),
        }
    }
}

// The slot that a handle itself holds. Each heap is within the limits, as the clauses of `kept` say.
fn slot_held(heap: &Heap, handle: u32) -> Option<Slot>
    ensures { result ≡ held_at (map.get heap.now.handles handle) None }
{
    match heap.holding(handle) {
        Some(Holding::Slot(slot)) => Some(*slot),
        Some(Holding::Bare(_)) | None => None,
    }
}

// The fields of the value that a handle itself holds.
fn fields_held(heap: &Heap, handle: u32) -> &[Slot]
    ensures fields { (i : ℕ) →
        slice_get result.now i ≡ held_at (map.get heap.now.handles handle) (Some i) }
    ensures few { length result.now ≤ MAX_FIELDS }
{
    match heap.holding(handle) {
        Some(Holding::Bare(fields)) => fields.as_slice(),
        Some(Holding::Slot(_)) | None => &[],
    }
}

// The fields of an object whose value lives.
fn fields_alive(heap: &Heap, object: u32) -> &[Slot]
    ensures fields { (i : ℕ) →
        slice_get result.now i ≡ field_at (map.get heap.now.objects object) i }
    ensures few { length result.now ≤ MAX_FIELDS }
{
    heap.show_sound();
    match heap.object(object) {
        Some(Entry::Alive(fields)) => fields.as_slice(),
        Some(Entry::Husk) | None => &[],
    }
}

// The field with an index, if it is there.
fn nth_slot(fields: &[Slot], index: usize) -> Option<Slot>
    ensures { result ≡ slice_get fields.now index }
{
    fields.get(index).copied()
}

fn slot_or_nothing(slot: Option<Slot>) -> Slot
    ensures { result ≡ or_nothing slot }
{
    match slot {
        Some(slot) => slot,
        None => Slot::Nothing,
    }
}

// Notes what moved at fields: these were the old ones, and those are the new.
fn note_fields(
    moved: &mut Vec<Moved>,
    owner: Owner,
    old: &DatedFields,
    fields: &[Slot],
) -> Result<(), AllocError>
    requires few { length fields.now ≤ MAX_FIELDS }
    ensures { OnOk result ((p : Place) → at_place p moved.new.items
        ≡ at_place p moved.old.items ++ moved_field (index_in owner p) p old.now.slots.items fields.now) }
{
    for i in 0..longer(old.slots.len(), fields.len()) {
        let before = slot_of(old.get(i));
        let after = slot_or_nothing(nth_slot(fields, i));
        note(moved, owner.field(i as u32), before, after)?;
    }
    Ok(())
}

fn longer(length: usize, other: usize) -> usize
    ensures first { length ≤ result }
    ensures second { other ≤ result }
    ensures either { length ≤ MAX_FIELDS → other ≤ MAX_FIELDS → result ≤ MAX_FIELDS }
{
    if length < other { other } else { length }
}

fn redated_fields(
    alloc: Global,
    old: &DatedFields,
    fields: &[Slot],
    id: u32,
) -> Result<DatedFields, AllocError>
    requires few { length fields.now ≤ MAX_FIELDS }
    ensures { IfOk result (λ d. d.slots.items ≡ redated_all id old.now.slots.items fields.now) }
{
    let mut slots = Vec::with_capacity(alloc, fields.len())?;
    for i in 0..fields.len() {
        slots.push(redated(old.slots.get(i).copied(), fields[i], id))?;
    }
    Ok(DatedFields { slots })
}

fn push_dated_fields(
    held: &mut Vec<Held>,
    owner: Owner,
    fields: &DatedFields,
) -> Result<(), AllocError>
    ensures { OnOk result
        (held.new.items ≡ held.old.items
        ++ held_fields (field_place owner) 0 fields.now.slots.items) }
{
    for i in 0..fields.slots.len() {
        push_dated(held, owner.field(i as u32), fields.slots.get(i).copied())?;
    }
    Ok(())
}

// Adds a place, where it is there and its slot names an object.
fn push_dated(held: &mut Vec<Held>, place: Place, dated: Option<Dated>) -> Result<(), AllocError>
    ensures { OnOk result (held.new.items ≡ held.old.items ++ held_dated place dated) }
{
    let Some(Dated { slot, since }) = dated else {
        return Ok(());
    };
    if slot.object().is_some() {
        held.push(Held { place, slot, since })?;
    }
    Ok(())
}
