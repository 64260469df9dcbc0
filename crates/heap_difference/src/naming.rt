//! The keys that operations and their outcomes name.
ghost use Rattle.std.specs.Prelude.{◌≡◌, ◌++◌, ◌∷◌, [], OnOk, map, flat_map};
ghost use Rattle.ownership_model.specs.declared.key.Key.TheVariants as key;
ghost use Rattle.ownership_model.specs.View.{members, held_fields};
ghost use Rattle.ownership_model.specs.Footprint.{scope_keys, named_keys};
ghost use Rattle.ownership_model.specs.Touched.{event_object, counted};
ghost use Rattle.heap_difference.specs.Naming.{op_keys, outcome_keys, with_names};

use ownership_model::Key;
use std::alloc::AllocError;
use trace_types::kinds::{Field, Kind};
use trace_types::ops::Op;
use trace_types::outcomes::{Counts, Event, Outcome};

/// Adds the keys that were told of operations, and all that these and their outcomes name.
pub fn add_all(
    told: &[Key],
    ops: &[Op],
    outcomes: &[Outcome],
    keys: &mut Vec<Key>,
) -> Result<(), AllocError>
    ensures { OnOk result (keys.new.items
        ≡ keys.old.items ++ with_names told.now ops.now outcomes.now) }
{
    keys.extend_from_slice(told)?;
    add_ops(ops, keys)?;
    add_outcomes(outcomes, keys)
}

/// The object that an event tells of.
#[inline(always)]
pub fn object_of(event: Event) -> u32
    ensures { result ≡ event_object event }
{
    match event {
        Event::Destroyed(object)
        | Event::Unwrapped(object)
        | Event::Moved(object)
        | Event::Freed(object) => object,
    }
}

fn add_ops(ops: &[Op], keys: &mut Vec<Key>) -> Result<(), AllocError>
    ensures { OnOk result (keys.new.items ≡ keys.old.items ++ flat_map op_keys ops.now) }
{
    for op in ops {
        add_op(op, keys)?;
    }
    Ok(())
}

fn add_op(op: &Op, keys: &mut Vec<Key>) -> Result<(), AllocError>
    ensures { OnOk result (keys.new.items ≡ keys.old.items ++ op_keys op.now) }
{
    add_scope(op.thread(), op.kind(), keys)?;
    add_names(op.kind(), keys)
}

fn add_scope(label: u32, kind: &Kind, keys: &mut Vec<Key>) -> Result<(), AllocError>
    ensures { OnOk result (keys.new.items ≡ keys.old.items ++ scope_keys label kind.now) }
{
    if let Kind::ScopeEnd = kind {
        keys.push(Key::Scope(label))?;
    }
    Ok(())
}

// Adds the handles and the cell among the members of an operation.
fn add_names(kind: &Kind, keys: &mut Vec<Key>) -> Result<(), AllocError>
    ensures { OnOk result (keys.new.items ≡ keys.old.items ++ named_keys (members [] kind.now)) }
{
    match kind {
        Kind::New { to, fields } | Kind::NewCyclic { to, fields } => {
            add_new(*to, fields.as_slice(), keys)
        }
        Kind::WeakNew { to: h }
        | Kind::Null { to: h }
        | Kind::Drop { h }
        | Kind::TryUnwrap { h }
        | Kind::IntoInner { h }
        | Kind::GetMut { h }
        | Kind::MakeMut { h }
        | Kind::Counts { h } => Ok(keys.push(Key::Handle(*h))?),
        Kind::NewFrom { from: a, to: b }
        | Kind::Clone { from: a, to: b }
        | Kind::Downgrade { from: a, to: b }
        | Kind::Upgrade { from: a, to: b }
        | Kind::PtrEq { a, b }
        | Kind::Set {
            h: a,
            i: _,
            from: b,
        }
        | Kind::Take { h: a, i: _, to: b }
        | Kind::Get { h: a, i: _, to: b } => add_pair(*a, *b, keys),
        Kind::CellNew { c, from: h } | Kind::CellLoad { c, to: h } => {
            keys.push(Key::Handle(*h))?;
            Ok(keys.push(Key::Cell(*c))?)
        }
        Kind::CellSwap { c, from, to } => {
            keys.push(Key::Handle(*from))?;
            if let Some(to) = to {
                keys.push(Key::Handle(*to))?;
            }
            Ok(keys.push(Key::Cell(*c))?)
        }
        Kind::CellCas {
            c,
            expected,
            desired,
        } => {
            add_pair(*expected, *desired, keys)?;
            Ok(keys.push(Key::Cell(*c))?)
        }
        Kind::CellDrop { c } => Ok(keys.push(Key::Cell(*c))?),
        Kind::ScopeEnd => Ok(()),
    }
}

/// Adds two handles.
pub fn add_pair(first: u32, second: u32, keys: &mut Vec<Key>) -> Result<(), AllocError>
    ensures { OnOk result (keys.new.items ≡ keys.old.items
        ++ key.Handle first ∷ key.Handle second ∷ []) }
{
    keys.push(Key::Handle(first))?;
    Ok(keys.push(Key::Handle(second))?)
}

/// Adds the handle of a new object, and the handles among its fields.
pub fn add_new(to: u32, fields: &[Field], keys: &mut Vec<Key>) -> Result<(), AllocError>
    ensures { OnOk result (keys.new.items ≡ keys.old.items
        ++ (key.Handle to ∷ (map key.Handle (held_fields fields.now) ++ []))) }
{
    keys.push(Key::Handle(to))?;
    add_fields(fields, keys)
}

// Adds the handles among the fields of a new object.
fn add_fields(fields: &[Field], keys: &mut Vec<Key>) -> Result<(), AllocError>
    ensures { OnOk result (keys.new.items ≡ keys.old.items
        ++ map key.Handle (held_fields fields.now)) }
{
    for field in fields {
        add_field(*field, keys)?;
    }
    Ok(())
}

// Adds the handle of a field of a new object, if it is one.
fn add_field(field: Field, keys: &mut Vec<Key>) -> Result<(), AllocError>
    ensures { OnOk result (keys.new.items ≡ keys.old.items
        ++ map key.Handle (held_fields (field ∷ []))) }
{
    match field {
        Field::Held(h) => Ok(keys.push(Key::Handle(h))?),
        Field::Null | Field::Me => Ok(()),
    }
}

fn add_outcomes(outcomes: &[Outcome], keys: &mut Vec<Key>) -> Result<(), AllocError>
    ensures { OnOk result (keys.new.items
        ≡ keys.old.items ++ flat_map outcome_keys outcomes.now) }
{
    for outcome in outcomes {
        add_outcome(outcome, keys)?;
    }
    Ok(())
}

fn add_outcome(outcome: &Outcome, keys: &mut Vec<Key>) -> Result<(), AllocError>
    ensures { OnOk result (keys.new.items ≡ keys.old.items ++ outcome_keys outcome.now) }
{
    add_events(outcome.events.as_slice(), keys)?;
    add_counted(outcome.counts, keys)
}

/// Adds the objects that events tell of.
pub fn add_events(events: &[Event], keys: &mut Vec<Key>) -> Result<(), AllocError>
    ensures { OnOk result (keys.new.items ≡ keys.old.items
        ++ map key.Object (map event_object events.now)) }
{
    for event in events {
        keys.push(Key::Object(object_of(*event)))?;
    }
    Ok(())
}

/// Adds the object whose counts are told, if any are.
pub fn add_counted(counts: Option<Counts>, keys: &mut Vec<Key>) -> Result<(), AllocError>
    ensures { OnOk result (keys.new.items ≡ keys.old.items ++ map key.Object (counted counts)) }
{
    match counts {
        Some(counts) => Ok(keys.push(Key::Object(counts.object))?),
        None => Ok(()),
    }
}
