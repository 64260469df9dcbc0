//! Parts of one state laid over another: some of its handles, cells and objects, and then fields that are set.
ghost use Rattle.std.specs.Prelude.{◌≡◌, ◌≢◌, ◌↔◌, ◌<◌, ◌≤◌, [], None, Some, length, slice_get, take, IsTrue, OnOk};
ghost use Rattle.std.specs.Option.{option_copied};
ghost use Rattle.std.specs.FinMap as map;
ghost use Rattle.trace_types.specs.declared.slots.Entry.TheVariants.{Alive};
ghost use Rattle.ownership_model.specs.Bounds.{IsBounded, AreFew, CellFits, ObjectFits};
ghost use Rattle.ownership_model.specs.Changes.{HasField};
ghost use Rattle.object_heap.specs.Counted.{drafted, IsCounted, IsKept};
ghost use Rattle.object_heap.specs.Links.{IsAbove};
ghost use Rattle.object_heap.specs.Exchange.{with_object};
ghost use Rattle.object_heap.specs.Laid.{ended_at, without_handles, with_put, with_puts, CanPut, PutFits, PutsFit, with_field_put, with_fields, CanSet, cell_ended, with_cell, with_cells, with_entry, with_entries, laid_over, IsDrafted, MayHold, BeginAlike};

use crate::counting::hold_holding;
use crate::draft::Draft;
use crate::object::same_entry;
use crate::put::{FieldPut, Put};
use std::alloc::{AllocError, Global};
use trace_types::slots::{Entry, Slot};

impl Draft {
    /// Handles go, others are put in, and cells and objects are as in another draft. Then fields are set, one after another. Where memory
    /// runs out the draft is unspecified: let it go.
    pub fn lay(
        &mut self,
        alloc: Global,
        from: &Draft,
        handles: &[u32],
        cells: &[u32],
        objects: &[u32],
        puts: &[Put],
        fields: &[FieldPut],
    ) -> Result<(), AllocError>
        requires counted { IsCounted self.old.objects.counts (drafted self.old) [] }
        requires bounded { IsBounded (drafted self.old) }
        requires from { IsKept from.now }
        requires can { CanPut (without_handles handles.now (drafted self.old)) puts.now }
        requires fits { PutsFit puts.now }
        requires set { CanSet (laid_over (drafted from.now) handles.now cells.now objects.now
            puts.now (drafted self.old)) fields.now }
        ensures { OnOk result (IsDrafted self.new (with_fields fields.now
            (laid_over (drafted from.now) handles.now cells.now objects.now puts.now
            (drafted self.old)))) }
    {
        self.end_each(alloc, handles)?;
        self.put_each(alloc, puts)?;
        self.copy_cells(alloc, from, cells)?;
        self.copy_objects(alloc, from, objects)?;
        self.put_fields(alloc, fields)
    }

    fn end_each(&mut self, alloc: Global, handles: &[u32]) -> Result<(), AllocError>
        requires counted { IsCounted self.old.objects.counts (drafted self.old) [] }
        requires bounded { IsBounded (drafted self.old) }
        ensures { OnOk result (IsDrafted self.new
            (without_handles handles.now (drafted self.old))) }
    {
        for handle in handles {
            self.end_held(alloc, *handle)?;
        }
        Ok(())
    }

    // A handle is held no more, if it was.
    fn end_held(&mut self, alloc: Global, handle: u32) -> Result<(), AllocError>
        requires counted { IsCounted self.old.objects.counts (drafted self.old) [] }
        requires bounded { IsBounded (drafted self.old) }
        ensures { OnOk result (IsDrafted self.new
            (ended_at (map.get self.old.handles.holdings handle) handle (drafted self.old))) }
    {
        match self.handles.get(handle) {
            Some(_) => self.end_handle(alloc, handle),
            None => Ok(()),
        }
    }

    fn put_each(&mut self, alloc: Global, puts: &[Put]) -> Result<(), AllocError>
        requires counted { IsCounted self.old.objects.counts (drafted self.old) [] }
        requires bounded { IsBounded (drafted self.old) }
        requires can { CanPut (drafted self.old) puts.now }
        requires fits { PutsFit puts.now }
        ensures { OnOk result (IsDrafted self.new (with_puts puts.now (drafted self.old))) }
    {
        for put in puts {
            self.put_one(alloc, put)?;
        }
        Ok(())
    }

    // A handle that held nothing is put into its scope.
    fn put_one(&mut self, alloc: Global, put: &Put) -> Result<(), AllocError>
        requires counted { IsCounted self.old.objects.counts (drafted self.old) [] }
        requires bounded { IsBounded (drafted self.old) }
        requires free { map.get self.old.handles.holdings put.now.handle ≡ None }
        requires stands { IsAbove put.now.under put.now.label self.old.handles.scopes }
        requires fits { PutFits put.now }
        ensures { OnOk result (IsDrafted self.new (with_put put.now (drafted self.old))) }
    {
        hold_holding(alloc, &mut self.objects, &put.holding)?;
        let copy = put.holding.clone()?;
        self.handles
            .enter_above(alloc, put.label, put.handle, put.under, copy)
    }

    fn copy_cells(&mut self, alloc: Global, from: &Draft, cells: &[u32]) -> Result<(), AllocError>
        requires counted { IsCounted self.old.objects.counts (drafted self.old) [] }
        requires bounded { IsBounded (drafted self.old) }
        requires from { IsKept from.now }
        ensures { OnOk result (IsDrafted self.new
            (with_cells (drafted from.now) cells.now (drafted self.old))) }
    {
        for cell in cells {
            self.put_cell(alloc, *cell, from.cells.get(*cell).copied())?;
        }
        Ok(())
    }

    // A cell holds this, or is there no more.
    fn put_cell(&mut self, alloc: Global, cell: u32, slot: Option<Slot>) -> Result<(), AllocError>
        requires counted { IsCounted self.old.objects.counts (drafted self.old) [] }
        requires bounded { IsBounded (drafted self.old) }
        requires may { MayHold slot }
        requires fits { CellFits cell slot }
        ensures { OnOk result (IsDrafted self.new (with_cell slot cell (drafted self.old))) }
    {
        match slot {
            Some(slot) => self.set_cell(alloc, cell, slot),
            None => self.end_there(alloc, cell),
        }
    }

    // A cell is there no more, if it was.
    fn end_there(&mut self, alloc: Global, cell: u32) -> Result<(), AllocError>
        requires counted { IsCounted self.old.objects.counts (drafted self.old) [] }
        requires bounded { IsBounded (drafted self.old) }
        ensures { OnOk result (IsDrafted self.new
            (cell_ended (map.get self.old.cells cell) cell (drafted self.old))) }
    {
        match self.cells.get(cell) {
            Some(_) => self.end_cell(alloc, cell),
            None => Ok(()),
        }
    }

    fn copy_objects(
        &mut self,
        alloc: Global,
        from: &Draft,
        objects: &[u32],
    ) -> Result<(), AllocError>
        requires counted { IsCounted self.old.objects.counts (drafted self.old) [] }
        requires bounded { IsBounded (drafted self.old) }
        requires from { IsKept from.now }
        ensures { OnOk result (IsDrafted self.new
            (with_entries (drafted from.now) objects.now (drafted self.old))) }
    {
        for object in objects {
            self.put_entry(alloc, *object, from.objects.get(*object))?;
        }
        Ok(())
    }

    // Each field is there when its turn comes, and is set then.
    fn put_fields(&mut self, alloc: Global, fields: &[FieldPut]) -> Result<(), AllocError>
        requires counted { IsCounted self.old.objects.counts (drafted self.old) [] }
        requires bounded { IsBounded (drafted self.old) }
        requires set { CanSet (drafted self.old) fields.now }
        ensures { OnOk result (IsDrafted self.new (with_fields fields.now (drafted self.old))) }
    {
        for field in fields {
            self.put_field(alloc, field)?;
        }
        Ok(())
    }

    // A field of an object that is alive is set.
    fn put_field(&mut self, alloc: Global, field: &FieldPut) -> Result<(), AllocError>
        requires counted { IsCounted self.old.objects.counts (drafted self.old) [] }
        requires bounded { IsBounded (drafted self.old) }
        requires can { HasField (map.get self.old.objects.entries field.now.object) field.now.index }
        ensures { OnOk result (IsDrafted self.new (with_field_put field.now (drafted self.old))) }
    {
        self.set_field(alloc, field.object, field.index, field.slot)
    }

    // This stands for an object, or nothing does. Where it is so already nothing is done: to put the same again would count all its fields
    // anew, and most objects of a difference differ in their counts alone, which follow from the slots that name them.
    fn put_entry(
        &mut self,
        alloc: Global,
        object: u32,
        entry: Option<&Entry>,
    ) -> Result<(), AllocError>
        requires counted { IsCounted self.old.objects.counts (drafted self.old) [] }
        requires bounded { IsBounded (drafted self.old) }
        requires fits { ObjectFits object (option_copied entry) }
        ensures { OnOk result (IsDrafted self.new
            (with_entry (option_copied entry.entry) object (drafted self.old))) }
    {
        if same_entry(self.objects.get(object), entry) {
            return Ok(());
        }
        match entry {
            Some(entry) => self.put_over(alloc, object, entry),
            None => self.take_out(alloc, object),
        }
    }

    // An object comes, whatever stood there. Where as many fields stand there already, only those that hold something else are set: the
    // slots of the others are counted, and stay so.
    fn put_over(&mut self, alloc: Global, object: u32, entry: &Entry) -> Result<(), AllocError>
        requires counted { IsCounted self.old.objects.counts (drafted self.old) [] }
        requires bounded { IsBounded (drafted self.old) }
        requires fits { ObjectFits object (Some entry.now) }
        ensures { OnOk result (IsDrafted self.new
            (with_object (drafted self.old) object entry.now)) }
    {
        if let Entry::Alive(fields) = entry {
            if has_as_many(self.objects.get(object), fields.as_slice()) {
                return self.set_fields(alloc, object, fields.as_slice());
            }
        }
        self.put_in(alloc, object, entry)
    }

    // An object that is alive holds these in its fields from now on, as many as it has. Those that hold the same stay as they are.
    fn set_fields(&mut self, alloc: Global, object: u32, slots: &[Slot]) -> Result<(), AllocError>
        requires counted { IsCounted self.old.objects.counts (drafted self.old) [] }
        requires bounded { IsBounded (drafted self.old) }
        requires few { AreFew slots.now }
        requires as_many { BeginAlike (map.get self.old.objects.entries object) slots.now 0 }
        ensures { OnOk result (IsDrafted self.new
            (with_object (drafted self.old) object (Alive slots.now))) }
    {
        let mut at = self.next_other(object, slots, 0);
        while at < slots.len() {
            self.set_field(alloc, object, at as u32, slots[at])?;
            at = self.next_other(object, slots, at + 1);
        }
        Ok(())
    }

    // The first field of an object, from this one on, that holds something else than it is to hold, or how many there are. Those before hold
    // what they are to hold.
    fn next_other(&self, object: u32, slots: &[Slot], from: usize) -> usize
        requires { BeginAlike (map.get self.now.objects.entries object) slots.now from }
        ensures on { from ≤ result }
        ensures alike { BeginAlike (map.get self.now.objects.entries object) slots.now result }
    {
        let Some(Entry::Alive(fields)) = self.objects.get(object) else {
            unreachable!()
        };
        first_other(fields.as_slice(), slots, from)
    }
}

// Whether an object is alive and has as many fields as these are.
fn has_as_many(entry: Option<&Entry>, slots: &[Slot]) -> bool
    ensures { IsTrue result ↔ BeginAlike (option_copied entry.entry) slots.now 0 }
{
    match entry {
        Some(Entry::Alive(fields)) => fields.len() == slots.len(),
        Some(Entry::Husk) | None => false,
    }
}

// The first place, from this one on, at which two lists that are equally long differ, or their length. Before it both are the same, if they
// are so up to the place where it begins.
fn first_other(fields: &[Slot], slots: &[Slot], from: usize) -> usize
    requires as_many { length fields.now ≡ length slots.now }
    requires within { from ≤ length slots.now }
    requires alike { take from fields.now ≡ take from slots.now }
    ensures within { (from ≤ result) × (result ≤ length slots.now) }
    ensures alike { take result fields.now ≡ take result slots.now }
    ensures other { result < length slots.now → slice_get fields.now result ≢ slice_get slots.now result }
{
    for at in from..slots.len() {
        if fields[at] != slots[at] {
            return at;
        }
    }
    slots.len()
}
