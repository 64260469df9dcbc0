//! What the members of an operation want of what is held: each question of the table, asked of a heap.
ghost use Rattle.std.specs.Prelude.{◌≡◌, Some, IfOk};
ghost use Rattle.std.specs.FinMap.{get};
ghost use Rattle.ownership_model.specs.State as State;
ghost use Rattle.ownership_model.specs.View.{seen, named_in, elements_of};
ghost use Rattle.ownership_model.specs.Table as Table;
ghost use Rattle.ownership_model.specs.Rows.{Asks, AsksBoth, Allows, found, found_fields};

use object_heap::Heap;
use ownership_model::Stop;
use ownership_model::questions::Fields;
use trace_types::kinds::Field;
use trace_types::outcomes::Reason;
use trace_types::slots::{Entry, Holding, Slot};

/// What the handle holds.
pub fn held(heap: &Heap, h: u32) -> Result<&Holding, Stop>
    ensures asks { Asks (found result) (Table.held h (get heap.now.handles h)) }
    ensures there { IfOk result (λ held. get heap.now.handles h ≡ Some held.now) }
{
    match heap.holding(h) {
        Some(held) => Ok(held),
        None => Err(Stop::Skip(Reason::NotHeld(h))),
    }
}

/// The handle that is to be made is not held.
pub fn unheld(heap: &Heap, to: u32) -> Result<(), Stop>
    ensures { Allows result (Table.unheld to (get heap.now.handles to)) }
{
    match heap.holding(to) {
        None => Ok(()),
        Some(_) => Err(Stop::Skip(Reason::AlreadyHeld(to))),
    }
}

/// What the cell holds.
pub fn in_cell(heap: &Heap, c: u32) -> Result<Slot, Stop>
    ensures { Asks result (Table.in_cell c (get heap.now.cells c)) }
{
    match heap.cell(c) {
        Some(slot) => Ok(slot),
        None => Err(Stop::Skip(Reason::NoCell(c))),
    }
}

/// The cell that is to be made is not there.
pub fn absent_cell(heap: &Heap, c: u32) -> Result<(), Stop>
    ensures { Allows result (Table.absent_cell c (get heap.now.cells c)) }
{
    match heap.cell(c) {
        None => Ok(()),
        Some(_) => Err(Stop::Skip(Reason::CellHeld(c))),
    }
}

/// Whether the value of the object lives.
pub fn is_alive(heap: &Heap, object: u32) -> bool
    ensures { result ≡ State.is_alive (get heap.now.objects object) }
{
    matches!(heap.object(object), Some(Entry::Alive(_)))
}

/// The fields of the object; none where its value is gone.
pub fn fields_of(heap: &Heap, object: u32) -> &[Slot]
    ensures { result.now ≡ Table.fields_of (get heap.now.objects object) }
{
    match heap.object(object) {
        Some(Entry::Alive(fields)) => fields.as_slice(),
        Some(Entry::Husk) | None => &[],
    }
}

/// The fields of the value that the handle's `Arc` keeps, with its object, or of the value that the handle holds itself.
pub fn fields_in<'a>(heap: &'a Heap, h: u32, held: &'a Holding) -> Result<Fields<'a>, Stop>
    ensures { AsksBoth (found_fields result) (Table.fields_in h held.now
        (seen heap.now (named_in (Some held.now))).entry) }
{
    match held {
        Holding::Slot(Slot::Strong(object)) => Ok(Fields {
            owner: Some(*object),
            slots: fields_of(heap, *object),
        }),
        Holding::Bare(fields) => Ok(Fields {
            owner: None,
            slots: fields.as_slice(),
        }),
        Holding::Slot(Slot::Nothing | Slot::Weak(_) | Slot::Dangling) => {
            Err(Stop::Skip(Reason::WrongKind(h)))
        }
    }
}

/// All handles among the fields of a new object are held.
pub fn all_held(heap: &Heap, fields: &[Field]) -> Result<(), Stop>
    ensures { Allows result (Table.all_held (Table.first_unheld
        (elements_of heap.now fields.now))) }
{
    for field in fields {
        if let Field::Held(h) = field {
            if heap.holding(*h).is_none() {
                return Err(Stop::Skip(Reason::NotHeld(*h)));
            }
        }
    }
    Ok(())
}

/// None of them holds a value outside any allocation.
pub fn all_slots(heap: &Heap, fields: &[Field]) -> Result<(), Stop>
    ensures { Allows result (Table.all_slots (Table.first_bare (elements_of heap.now fields.now))) }
{
    for field in fields {
        if let Field::Held(h) = field {
            if let Some(Holding::Bare(_)) = heap.holding(*h) {
                return Err(Stop::Skip(Reason::WrongKind(*h)));
            }
        }
    }
    Ok(())
}
