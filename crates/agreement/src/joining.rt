//! All that differs with the objects at which two heaps differ: what their fields name, and so on.
ghost use Rattle.std.specs.Prelude.{◌≡◌, ◌∷◌, [], IfOk, IfSome, OnOk};
ghost use Rattle.std.specs.Option.{option_copied};
ghost use Rattle.ownership_model.specs.declared.link.Link.TheVariants.{StrongOrWeak};
ghost use Rattle.ownership_model.specs.Reach.{named, slots_names, entry_names};
ghost use Rattle.agreement.specs.Joining.{Compares, IsJoined};

use crate::agree::agree_at;
use crate::listed::Listed;
use object_heap::Heap;
use std::alloc::{AllocError, Global};
use trace_types::limits::MAX_ID;
use trace_types::slots::{Entry, Slot};

/// The objects, and those that differ among what they and others that join name in either heap. An object differs by what stands for
/// it or by a count. While fewer than `near` are listed, one that is the same in both joins, too: so the other members of a cycle do.
///
/// The work is that of these objects and of their fields. There is no answer only where more of them would join than there are numbers.
pub fn joined(
    alloc: Global,
    new: &Heap,
    old: &Heap,
    objects: &[u32],
    near: usize,
) -> Result<Option<Vec<u32>>, AllocError>
    ensures { IfOk result (λ r. IfSome r (λ v. IsJoined new.now old.now objects.now v.items)) }
{
    let mut listed = Listed::none(alloc, near);
    for object in objects {
        listed.join(*object)?;
    }
    // each object is taken at most once
    for at in 0..MAX_ID + 1 {
        match listed.as_slice().get(at as usize) {
            None => return Ok(Some(listed.into_vec())),
            Some(object) => {
                let object = *object;
                join_entry(&mut listed, new, old, new.object(object))?;
                join_entry(&mut listed, new, old, old.object(object))?;
            }
        }
    }
    Ok(None)
}

// What the fields name joins, where it differs.
fn join_entry(
    listed: &mut Listed,
    new: &Heap,
    old: &Heap,
    entry: Option<&Entry>,
) -> Result<(), AllocError>
    ensures { OnOk result (Compares new.now old.now
        (entry_names StrongOrWeak (option_copied entry.entry)) listed.old listed.new) }
{
    match entry {
        Some(Entry::Alive(fields)) => join_slots(listed, new, old, fields.as_slice()),
        Some(Entry::Husk) | None => Ok(()),
    }
}

fn join_slots(listed: &mut Listed, new: &Heap, old: &Heap, slots: &[Slot]) -> Result<(), AllocError>
    ensures { OnOk result (Compares new.now old.now
        (slots_names StrongOrWeak slots.now) listed.old listed.new) }
{
    for slot in slots {
        join_slot(listed, new, old, *slot)?;
    }
    Ok(())
}

fn join_slot(listed: &mut Listed, new: &Heap, old: &Heap, slot: Slot) -> Result<(), AllocError>
    ensures { OnOk result (Compares new.now old.now
        (named StrongOrWeak slot) listed.old listed.new) }
{
    match slot {
        Slot::Strong(object) | Slot::Weak(object) => join_differing(listed, new, old, object),
        Slot::Nothing | Slot::Dangling => Ok(()),
    }
}

// The object joins, unless it is listed, or is the same in both heaps and not near.
fn join_differing(
    listed: &mut Listed,
    new: &Heap,
    old: &Heap,
    object: u32,
) -> Result<(), AllocError>
    ensures { OnOk result (Compares new.now old.now (object ∷ []) listed.old listed.new) }
{
    if listed.has(object) {
        return Ok(());
    }
    if listed.is_near() {
        return listed.join(object);
    }
    if agree_at(new, old, object) {
        return Ok(());
    }
    listed.join(object)
}
