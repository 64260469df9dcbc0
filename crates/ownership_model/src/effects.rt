//! What rows do, where it takes more than a line and no state is needed for it.
ghost use Rattle.std.specs.Prelude.{◌≡◌, ◌++◌, IfOk, OnOk};
ghost use Rattle.ownership_model.specs.Release as Release;
ghost use Rattle.ownership_model.specs.Table as Table;

use crate::plan::Plan;
use std::alloc::{AllocError, Global};
use trace_types::outcomes::{Answer, Event};
use trace_types::sequence::Sequence;
use trace_types::slots::{Change, Holding, Item, Slot};

/// An object comes to be, and a handle holds the `Arc` to it.
pub fn push_make(
    changes: &mut Vec<Change>,
    label: u32,
    id: u32,
    fields: Sequence<Slot>,
    to: u32,
) -> Result<(), AllocError>
    ensures { OnOk result (changes.new.items ≡ changes.old.items ++ Table.make label id fields to) }
{
    changes.push(Change::Make(id, fields))?;
    Ok(changes.push(Change::SetHandle(label, to, Holding::Slot(Slot::Strong(id))))?)
}

/// The value moves out of its allocation to the handle, and the claim on the allocation goes.
pub fn unwrapped(
    alloc: Global,
    label: u32,
    h: u32,
    object: u32,
    fields: &[Slot],
) -> Result<Plan, AllocError>
    ensures { IfOk result (λ plan. plan ≡ Table.unwrapped label h object fields.now) }
{
    let changes = vec![in alloc;
        Change::TurnHusk(object),
        Change::SetHandle(label, h, Holding::Bare(copy_fields(alloc, fields)?)),
    ]?;
    let pending = vec![in alloc; Item::End(object)]?;
    let event = Event::Unwrapped(object);
    Ok(Plan::act_naming(Answer::Yes, changes, event, pending, object))
}

/// The same fields again.
pub fn copy_fields(alloc: Global, fields: &[Slot]) -> Result<Sequence<Slot>, AllocError>
    ensures { IfOk result (λ copy. copy ≡ fields.now) }
{
    Ok(Sequence::from_vec(Vec::from_slice(alloc, fields)?))
}

/// The slots as items to be dropped, in order, and then the rest.
pub fn drops(alloc: Global, slots: &[Slot], rest: &[Item]) -> Result<Vec<Item>, AllocError>
    ensures { IfOk result (λ v. v.items ≡ Release.drops slots.now rest.now) }
{
    let mut items = Vec::new(alloc);
    for slot in slots {
        items.push(Item::Slot(*slot))?;
    }
    items.extend_from_slice(rest)?;
    Ok(items)
}
