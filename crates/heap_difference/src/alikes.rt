//! Objects that are alive in two heaps with as many fields, of which some hold something else.
ghost use Rattle.std.specs.Prelude.{◌≡◌, ◌↔◌, ◌≤◌, [], ℕ, true, length, drop, IfOk, OnOk, IsTrue};
ghost use Rattle.std.specs.FinMap as map;
ghost use Rattle.trace_types.specs.declared.slots.Entry.TheVariants.{Alive};
ghost use Rattle.ownership_model.specs.Bounds.{AreFew};
ghost use Rattle.ownership_model.specs.Reach.{has};
ghost use Rattle.std.specs.List.{AllByRecursion};
ghost use Rattle.heap_difference.specs.Alikes.{is_alike, is_loose, may_be_alike, AreAlikes, DoFieldsDiffer, IsOneMore, AreAdded};

use crate::shifts::{Shift, is_shifted};
use object_heap::{FieldPut, Heap};
use std::alloc::{AllocError, Global};
use trace_types::slots::{Entry, Slot};

/// Objects that are alive in both heaps with as many fields: how their counts differ, and what those of their fields hold in the new heap that
/// differ.
#[derive(Drop)]
pub struct Alikes {
    pub shifts: Vec<Shift>,
    pub fields: Vec<FieldPut>,
}

impl Alikes {
    /// Whether an object is alive in both heaps with as many fields.
    pub fn are_alike(old: &Heap, new: &Heap, object: u32) -> bool
        ensures { result ≡ may_be_alike old.now new.now object }
    {
        match (old.object(object), new.object(object)) {
            (Some(Entry::Alive(before)), Some(Entry::Alive(fields))) => {
                before.len() == fields.len()
            }
            _ => false,
        }
    }

    /// Those of the objects that are alive in both heaps with as many fields. The work is that of the objects and of their fields.
    pub fn of(alloc: Global, old: &Heap, new: &Heap, objects: &[u32]) -> Result<Alikes, AllocError>
        ensures alikes { IfOk result (λ a. AreAlikes a.shifts.items a.fields.items old.now
            new.now) }
        ensures within { IfOk result (λ a. (o : ℕ) → is_alike a.shifts.items o ≡ true →
            has o objects.now ≡ true) }
        ensures all { IfOk result (λ a. (o : ℕ) → has o objects.now ≡ true →
            may_be_alike old.now new.now o ≡ true → is_alike a.shifts.items o ≡ true) }
        ensures differ { IfOk result (λ a. DoFieldsDiffer a.fields.items old.now) }
    {
        let mut alikes = Alikes {
            shifts: Vec::new(alloc),
            fields: Vec::new(alloc),
        };
        for object in objects {
            alikes.add(old, new, *object)?;
        }
        Ok(alikes)
    }

    /// Whether there is none.
    pub fn is_empty(&self) -> bool
        ensures { IsTrue result ↔ (self.now.shifts.items ≡ []) }
    {
        self.shifts.len() == 0
    }

    /// Whether each field of others is a field of these, or its object is none of these.
    pub fn cover(&self, other: &Alikes) -> bool
        ensures { IsTrue result ↔ AllByRecursion (λ f. is_alike self.now.shifts.items f.object
            ≡ true → is_loose self.now.fields.items f.object f.index ≡ true)
            other.now.fields.items }
    {
        for field in &other.fields {
            if is_shifted(&self.shifts, field.object)
                && !has_field(&self.fields, field.object, field.index)
            {
                return false;
            }
        }
        true
    }

    // An object joins them, if it is alive in both heaps with as many fields.
    fn add(&mut self, old: &Heap, new: &Heap, object: u32) -> Result<(), AllocError>
        requires { AreAlikes self.old.shifts.items self.old.fields.items old.now new.now }
        ensures alikes { OnOk result (AreAlikes self.new.shifts.items self.new.fields.items old.now
            new.now) }
        ensures within { OnOk result ((o : ℕ) → is_alike self.new.shifts.items o ≡ true →
            IsOneMore self.old.shifts.items object o) }
        ensures all { OnOk result ((o : ℕ) → IsOneMore self.old.shifts.items object o →
            may_be_alike old.now new.now o ≡ true → is_alike self.new.shifts.items o ≡ true) }
        ensures differ { OnOk result (DoFieldsDiffer self.old.fields.items old.now → DoFieldsDiffer
            self.new.fields.items old.now) }
    {
        let (Some(Entry::Alive(before)), Some(Entry::Alive(fields))) = (
            old.object(object),
            new.object(object),
        ) else {
            return Ok(());
        };
        if before.len() != fields.len() {
            return Ok(());
        }
        old.show_sound();
        new.show_sound();
        add_fields(
            &mut self.fields,
            object,
            before.as_slice(),
            fields.as_slice(),
        )?;
        let told = old.counts(object);
        let counts = new.counts(object);
        self.shifts.push(Shift {
            object,
            old_strong: told.strong,
            new_strong: counts.strong,
            old_weak: told.weak,
            new_weak: counts.weak,
        })?;
        Ok(())
    }
}

// What an object's fields hold in the new heap, of those that hold something else in the old one, joins the list.
fn add_fields(
    list: &mut Vec<FieldPut>,
    object: u32,
    before: &[Slot],
    fields: &[Slot],
) -> Result<(), AllocError>
    requires as_many { length before.now ≡ length fields.now }
    requires few { AreFew fields.now }
    ensures { OnOk result (AreAdded object before.now fields.now list.old.items list.new.items) }
{
    for index in 0..fields.len() {
        if before[index] != fields[index] {
            list.push(FieldPut {
                object,
                index: index as u32,
                slot: fields[index],
            })?;
        }
    }
    Ok(())
}

/// Whether a field of an object is among these.
#[inline(always)]
pub fn has_field(fields: &[FieldPut], object: u32, index: u32) -> bool
    ensures { result ≡ is_loose fields.now object index }
{
    for field in fields {
        if field.object == object && field.index == index {
            return true;
        }
    }
    false
}
