//! What holds the objects that leaked, in one pass over the fields.
ghost use Rattle.std.specs.Prelude.{◌≡◌, ◌≤◌, [], ◌∷◌, length, if◌then◌else◌, IfOk, OnOk};
ghost use Rattle.std.specs.Option.{option_copied};
ghost use Rattle.std.specs.Ordering.{nat_cmp};
ghost use Rattle.std.specs.List.Sorted.{IsStrictlySortedBy};
ghost use Rattle.std.specs.FinMap.{get};
ghost use Rattle.ownership_model.specs.Bounds.{ObjectFits};
ghost use Rattle.ownership_model.specs.Leaks.{holds, fields_holding, entry_holding, holders_in};
ghost use Rattle.leak_report.specs.HolderPass.{with_holders, unheld, leak_names};

use object_heap::Heap;
use ownership_model::{Holder, Leak};
use std::alloc::{AllocError, Global};
use trace_types::limits::MAX_FIELDS;
use trace_types::sequence::Sequence;
use trace_types::slots::{Entry, Slot};

/// The objects, held by nothing so far.
pub fn without_holders(alloc: Global, names: &[u32]) -> Result<Vec<Leak>, AllocError>
    ensures { IfOk result (λ v. v.items ≡ unheld names.now) }
{
    let mut leaks = Vec::new(alloc);
    for object in names {
        let holders = Sequence::empty(alloc);
        leaks.push(Leak {
            object: *object,
            holders,
        })?;
    }
    Ok(leaks)
}

/// Adds all that holds the leaked objects, which have these names.
pub fn push_holders(
    heap: &Heap,
    objects: &[u32],
    names: &[u32],
    leaks: &mut Vec<Leak>,
) -> Result<(), AllocError>
    requires same { leak_names leaks.old.items ≡ names.now }
    requires rising { IsStrictlySortedBy nat_cmp names.now }
    ensures { OnOk result (leaks.new.items
        ≡ with_holders (λ o. holders_in heap.now objects.now o) leaks.old.items) }
{
    for object in objects {
        push_entry_holders(*object, entry(heap, *object), names, leaks)?;
    }
    Ok(())
}

// What stands for an object. Each heap is within the limits, as the clauses of `show_sound` say.
fn entry(heap: &Heap, object: u32) -> Option<&Entry>
    ensures value { option_copied result ≡ get heap.now.objects object }
    ensures fits { ObjectFits object (option_copied result) }
{
    heap.show_sound();
    heap.object(object)
}

fn push_entry_holders(
    object: u32,
    entry: Option<&Entry>,
    names: &[u32],
    leaks: &mut Vec<Leak>,
) -> Result<(), AllocError>
    requires fits { ObjectFits object (option_copied entry) }
    requires same { leak_names leaks.old.items ≡ names.now }
    requires rising { IsStrictlySortedBy nat_cmp names.now }
    ensures value { OnOk result (leaks.new.items
        ≡ with_holders (λ o. entry_holding o object (option_copied entry.entry)) leaks.old.items) }
    ensures same { OnOk result (leak_names leaks.new.items ≡ names.now) }
{
    match entry {
        Some(Entry::Alive(fields)) => push_field_holders(object, fields.as_slice(), names, leaks),
        Some(Entry::Husk) | None => Ok(()),
    }
}

fn push_field_holders(
    object: u32,
    fields: &[Slot],
    names: &[u32],
    leaks: &mut Vec<Leak>,
) -> Result<(), AllocError>
    requires few { length fields.now ≤ MAX_FIELDS }
    requires same { leak_names leaks.old.items ≡ names.now }
    requires rising { IsStrictlySortedBy nat_cmp names.now }
    ensures value { OnOk result (leaks.new.items
        ≡ with_holders (λ o. fields_holding o object 0 fields.now) leaks.old.items) }
    ensures same { OnOk result (leak_names leaks.new.items ≡ names.now) }
{
    for (i, slot) in fields.iter().enumerate() {
        let field = i as u32;
        push_holder(Holder { object, field }, *slot, names, leaks)?;
    }
    Ok(())
}

// Adds a field to the holders of what its slot holds, if that leaked.
fn push_holder(
    holder: Holder,
    slot: Slot,
    names: &[u32],
    leaks: &mut Vec<Leak>,
) -> Result<(), AllocError>
    requires same { leak_names leaks.old.items ≡ names.now }
    requires rising { IsStrictlySortedBy nat_cmp names.now }
    ensures value { OnOk result (leaks.new.items
        ≡ with_holders (λ o. if holds o slot then holder ∷ [] else []) leaks.old.items) }
    ensures same { OnOk result (leak_names leaks.new.items ≡ names.now) }
{
    let Slot::Strong(object) = slot else {
        return Ok(());
    };
    let Ok(place) = names.binary_search(&object) else {
        return Ok(());
    };
    let leak = &mut leaks[place];
    leak.holders.push(holder)?;
    Ok(())
}
