//! Values that one handle alone keeps: try_unwrap, into_inner, get_mut, make_mut.
ghost use Rattle.std.specs.Prelude.{◌≡◌, IfOk, Some, [], ◌∷◌};
ghost use Rattle.trace_types.specs.declared.kinds.Kind.TheVariants as kind;
ghost use Rattle.trace_types.specs.declared.slots.Slot.TheVariants.{Strong};
ghost use Rattle.trace_types.specs.declared.slots.Item.TheVariants as item;
ghost use Rattle.trace_types.specs.declared.slots.Change.TheVariants.{TurnHusk};
ghost use Rattle.ownership_model.specs.declared.plan.Plan.TheVariants.{Act};
ghost use Rattle.ownership_model.specs.Table as Table;
ghost use Rattle.ownership_model.specs.Rows.{row_in, Tells};

use crate::room::Room;
use crate::wants::{fields_of, held};
use object_heap::Heap;
use ownership_model::effects::{copy_fields, push_make, unwrapped};
use ownership_model::plan::yes_if;
use ownership_model::questions::strong_in;
use ownership_model::{Plan, Stop};
use std::alloc::{AllocError, Global};
use trace_types::outcomes::{Answer, Event};
use trace_types::slots::{Change, Holding, Item, Slot};

/// `Arc::try_unwrap`
pub fn try_unwrap(room: &mut Room, heap: &Heap, label: u32, h: u32) -> Result<Plan, Stop>
    ensures { Tells result (row_in heap.now label 0 (kind.TryUnwrap h)) }
{
    let object = strong_in(h, held(heap, h)?)?;
    if heap.strong(object) != 1 {
        return Ok(Plan::say(room.alloc(), Answer::No, Some(object)));
    }
    Ok(unwrapped(room.alloc(), label, h, object, fields_of(heap, object))?)
}

/// `Arc::into_inner`
pub fn into_inner(room: &mut Room, heap: &Heap, label: u32, h: u32) -> Result<Plan, Stop>
    ensures { Tells result (row_in heap.now label 0 (kind.IntoInner h)) }
{
    let object = strong_in(h, held(heap, h)?)?;
    if heap.strong(object) != 1 {
        let changes = room.change(Change::SetHandle(label, h, Holding::Slot(Slot::Nothing)))?;
        let pending = room.item(Item::Slot(Slot::Strong(object)))?;
        return Ok(Plan::act(Answer::No, changes, pending, Some(object)));
    }
    Ok(unwrapped(room.alloc(), label, h, object, fields_of(heap, object))?)
}

/// `Arc::get_mut`
pub fn get_mut(alloc: Global, heap: &Heap, h: u32) -> Result<Plan, Stop>
    ensures { Tells result (row_in heap.now 0 0 (kind.GetMut h)) }
{
    let object = strong_in(h, held(heap, h)?)?;
    let counts = heap.counts(object);
    let is_only = counts.strong == 1 && counts.weak == 0;
    Ok(Plan::say(alloc, yes_if(is_only), Some(object)))
}

/// `Arc::make_mut`
pub fn make_mut(room: &mut Room, heap: &Heap, label: u32, id: u32, h: u32) -> Result<Plan, Stop>
    ensures { Tells result (row_in heap.now label id (kind.MakeMut h)) }
{
    let object = strong_in(h, held(heap, h)?)?;
    let counts = heap.counts(object);
    if counts.strong != 1 {
        return Ok(cloned(room, label, id, h, object, fields_of(heap, object))?);
    }
    if counts.weak != 0 {
        return Ok(moved(room, label, id, h, object, fields_of(heap, object))?);
    }
    Ok(Plan::say(room.alloc(), Answer::Unique, Some(object)))
}

// No other Arc is there, and the value moves away from the Weaks.
fn moved(
    room: &mut Room,
    label: u32,
    id: u32,
    h: u32,
    object: u32,
    fields: &[Slot],
) -> Result<Plan, AllocError>
    ensures { IfOk result (λ p. p ≡ Act Answer.Moved
        (TurnHusk object ∷ Table.make label id fields.now h) (Some (Event.Moved object)) []
        (Some id)) }
{
    let mut changes = room.change(Change::TurnHusk(object))?;
    let fields = copy_fields(room.alloc(), fields)?;
    push_make(&mut changes, label, id, fields, h)?;
    let event = Event::Moved(object);
    Ok(Plan::act_naming(Answer::Moved, changes, event, room.nothing(), id))
}

// The other Arcs keep the value, and the handle gets its own.
fn cloned(
    room: &mut Room,
    label: u32,
    id: u32,
    h: u32,
    object: u32,
    fields: &[Slot],
) -> Result<Plan, AllocError>
    ensures { IfOk result (λ p. p ≡ Table.act Answer.Cloned (Table.make label id fields.now h)
        (item.Slot (Strong object) ∷ []) (Some id)) }
{
    let mut changes = room.changes();
    let fields = copy_fields(room.alloc(), fields)?;
    push_make(&mut changes, label, id, fields, h)?;
    let pending = room.item(Item::Slot(Slot::Strong(object)))?;
    Ok(Plan::act(Answer::Cloned, changes, pending, Some(id)))
}
