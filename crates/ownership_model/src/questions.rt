//! What the members of an operation want of what stands there: the questions of the table that are asked of one thing alone.
ghost use Rattle.std.specs.Prelude.{◌≡◌, Some, IfOk, slice_get};
ghost use Rattle.ownership_model.specs.View.{named_in};
ghost use Rattle.ownership_model.specs.Table as Table;
ghost use Rattle.ownership_model.specs.Rows.{Asks, found};

use crate::plan::Stop;
use std::alloc::{AllocError, Global};
use trace_types::outcomes::Reason;
use trace_types::sequence::Sequence;
use trace_types::slots::{Change, Holding, Slot};

/// A pointer of any kind, and no value.
pub fn slot_in(h: u32, held: &Holding) -> Result<Slot, Stop>
    ensures { Asks result (Table.slot_in h held.now) }
{
    match held {
        Holding::Slot(slot) => Ok(*slot),
        Holding::Bare(_) => Err(Stop::Skip(Reason::WrongKind(h))),
    }
}

/// The fields of a value outside any allocation.
pub fn bare_in(h: u32, held: &Holding) -> Result<&[Slot], Stop>
    ensures { Asks (found result) (Table.bare_in h held.now) }
{
    match held {
        Holding::Slot(_) => Err(Stop::Skip(Reason::WrongKind(h))),
        Holding::Bare(fields) => Ok(fields.as_slice()),
    }
}

/// The object of an `Arc`.
pub fn strong_in(h: u32, held: &Holding) -> Result<u32, Stop>
    ensures asks { Asks result (Table.strong_in h held.now) }
    ensures named { IfOk result (λ object. named_in (Some held.now) ≡ Some object) }
{
    match held {
        Holding::Slot(Slot::Strong(object)) => Ok(*object),
        Holding::Slot(Slot::Nothing | Slot::Weak(_) | Slot::Dangling) | Holding::Bare(_) => {
            Err(Stop::Skip(Reason::WrongKind(h)))
        }
    }
}

/// The object of a `Weak`, if it names one.
pub fn weak_in(h: u32, held: &Holding) -> Result<Option<u32>, Stop>
    ensures asks { Asks result (Table.weak_in h held.now) }
    ensures named { IfOk result (λ object. named_in (Some held.now) ≡ object) }
{
    match held {
        Holding::Slot(Slot::Weak(object)) => Ok(Some(*object)),
        Holding::Slot(Slot::Dangling) => Ok(None),
        Holding::Slot(Slot::Nothing | Slot::Strong(_)) | Holding::Bare(_) => {
            Err(Stop::Skip(Reason::WrongKind(h)))
        }
    }
}

/// The object of an `Arc` or a `Weak`, if it names one.
pub fn counted_in(h: u32, held: &Holding) -> Result<Option<u32>, Stop>
    ensures { Asks result (Table.counted_in h held.now) }
{
    match held {
        Holding::Slot(Slot::Strong(object) | Slot::Weak(object)) => Ok(Some(*object)),
        Holding::Slot(Slot::Dangling) => Ok(None),
        Holding::Slot(Slot::Nothing) | Holding::Bare(_) => Err(Stop::Skip(Reason::WrongKind(h))),
    }
}

/// What a cell may hold: an `Arc` or an empty pointer.
pub fn pointer_in(h: u32, held: &Holding) -> Result<Slot, Stop>
    ensures { Asks result (Table.pointer_in h held.now) }
{
    match held {
        Holding::Slot(Slot::Nothing) => Ok(Slot::Nothing),
        Holding::Slot(Slot::Strong(object)) => Ok(Slot::Strong(*object)),
        Holding::Slot(Slot::Weak(_) | Slot::Dangling) | Holding::Bare(_) => {
            Err(Stop::Skip(Reason::WrongKind(h)))
        }
    }
}

/// The fields that a handle leads to: those of an object, its owner, or those of the value that the handle holds itself.
#[derive(Clone, Copy)]
pub struct Fields<'a> {
    pub owner: Option<u32>,
    pub slots: &'a [Slot],
}

impl Fields<'_> {
    /// The field with that index, from 0, becomes the slot.
    pub fn write(
        &self,
        alloc: Global,
        label: u32,
        h: u32,
        i: u32,
        slot: Slot,
    ) -> Result<Change, AllocError>
        ensures { IfOk result (λ change. change
            ≡ Table.write_field label h self.now.owner self.now.slots.now i slot) }
    {
        match self.owner {
            Some(object) => Ok(Change::SetField(object, i, slot)),
            None => {
                let mut value = Vec::from_slice(alloc, self.slots)?;
                if let Some(place) = value.get_mut(i as usize) {
                    *place = slot;
                }
                Ok(Change::SetHandle(label, h, Holding::Bare(Sequence::from_vec(value))))
            }
        }
    }
}

/// The field with that index, from 0.
pub fn field_at(i: u32, fields: &[Slot]) -> Result<Slot, Stop>
    ensures { Asks result (Table.field_at i (slice_get fields.now i)) }
{
    match fields.get(i as usize) {
        Some(slot) => Ok(*slot),
        None => Err(Stop::Skip(Reason::NoField(i))),
    }
}

/// Whether both are empty, or both are an `Arc` to one object.
pub fn is_same_pointer(slot: Slot, other: Slot) -> bool
    ensures { result ≡ Table.same_pointer slot other }
{
    match (slot, other) {
        (Slot::Nothing, Slot::Nothing) => true,
        (Slot::Strong(object), Slot::Strong(another)) => object == another,
        (Slot::Nothing | Slot::Strong(_) | Slot::Weak(_) | Slot::Dangling, _) => false,
    }
}
