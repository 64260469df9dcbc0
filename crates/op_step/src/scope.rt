//! The end of a scope: scope_end.
ghost use Rattle.std.specs.Prelude.{◌≡◌, ◌++◌, [], OnOk};
ghost use Rattle.std.specs.Option.{option_copied};
ghost use Rattle.trace_types.specs.declared.kinds.Kind.TheVariants as kind;
ghost use Rattle.ownership_model.specs.Table.{holding_drops};
ghost use Rattle.ownership_model.specs.Rows.{row_in, Tells};

use crate::room::Room;
use object_heap::Heap;
use ownership_model::effects::drops;
use ownership_model::{Plan, Stop};
use std::alloc::{AllocError, Global};
use trace_types::outcomes::Answer;
use trace_types::slots::{Change, Holding, Item};

/// The end of the label's scope: its handles end, the last made first, and what they hold is dropped in that order.
pub fn scope_end(room: &mut Room, heap: &Heap, label: u32) -> Result<Plan, Stop>
    ensures { Tells result (row_in heap.now label 0 kind.ScopeEnd) }
{
    let mut changes = room.changes();
    let mut pending = room.nothing();
    let mut next = heap.last(label);
    while let Some(h) = next {
        changes.push(Change::EndHandle(h))?;
        push_held(room.alloc(), &mut pending, heap.holding(h))?;
        next = heap.earlier(h);
    }
    Ok(Plan::act(Answer::Done, changes, pending, None))
}

// What a handle holds is to be dropped: its slot, or all fields of the value, in order.
fn push_held(
    alloc: Global,
    pending: &mut Vec<Item>,
    held: Option<&Holding>,
) -> Result<(), AllocError>
    ensures { OnOk result (pending.new.items ≡ pending.old.items
        ++ holding_drops (option_copied held.entry) []) }
{
    match held {
        Some(Holding::Slot(slot)) => Ok(pending.push(Item::Slot(*slot))?),
        Some(Holding::Bare(fields)) => {
            Ok(pending.extend_from_slice(&drops(alloc, fields.as_slice(), &[])?)?)
        }
        None => Ok(()),
    }
}
