//! The keys that operations may set, by what they and their outcomes name.
ghost use Rattle.std.specs.Prelude.{◌≡◌, ◌++◌, OnOk, map, option_to_list};
ghost use Rattle.std.specs.List.{list_any};
ghost use Rattle.ownership_model.specs.declared.key.Key.TheVariants as key;
ghost use Rattle.ownership_model.specs.Before.{is_scope_end};
ghost use Rattle.ownership_model.specs.Sets.{if_owner, set_handles, set_cell, sets_counted, set_names, set_names_of, end_scopes};
ghost use Rattle.heap_difference.specs.Naming.{with_sets};

use crate::naming::{add_all, add_counted, add_events, add_new, add_pair};
use ownership_model::Key;
use std::alloc::AllocError;
use trace_types::kinds::Kind;
use trace_types::ops::Op;
use trace_types::outcomes::Outcome;

/// Adds all that operations may set: what they and their outcomes name of it. What the end of a scope ends is not named: where one ends a scope, all that was told
/// of them and that they name is added as well.
pub fn add_sets(
    told: &[Key],
    ops: &[Op],
    outcomes: &[Outcome],
    keys: &mut Vec<Key>,
) -> Result<(), AllocError>
    ensures { OnOk result (keys.new.items
        ≡ keys.old.items ++ with_sets told.now ops.now outcomes.now) }
{
    add_named(ops, outcomes, keys)?;
    if end_scopes(ops) {
        add_all(told, ops, outcomes, keys)?;
    }
    Ok(())
}

// Whether one of the operations ends a scope.
fn end_scopes(ops: &[Op]) -> bool
    ensures { result ≡ end_scopes ops.now }
{
    for op in ops {
        if is_scope_end(op.kind()) {
            return true;
        }
    }
    false
}

#[inline(always)]
fn is_scope_end(kind: &Kind) -> bool
    ensures { result ≡ is_scope_end kind.now }
{
    matches!(kind, Kind::ScopeEnd)
}

fn add_named(ops: &[Op], outcomes: &[Outcome], keys: &mut Vec<Key>) -> Result<(), AllocError>
    ensures { OnOk result (keys.new.items
        ≡ keys.old.items ++ set_names_of ops.now outcomes.now) }
{
    for (op, outcome) in ops.iter().zip(outcomes) {
        add_one(op.kind(), outcome, keys)?;
    }
    Ok(())
}

fn add_one(kind: &Kind, outcome: &Outcome, keys: &mut Vec<Key>) -> Result<(), AllocError>
    ensures { OnOk result (keys.new.items ≡ keys.old.items ++ set_names kind.now outcome.now) }
{
    add_handles(outcome.counts.is_none(), kind, keys)?;
    add_cell(kind, keys)?;
    add_events(outcome.events.as_slice(), keys)?;
    if sets_counted(kind) {
        add_counted(outcome.counts, keys)?;
    }
    Ok(())
}

// Adds the handles that an operation of this kind may make, set or end, where the end of a scope has none: the owner of a field only if it may hold the
// value itself, as where no counts are told.
fn add_handles(owns: bool, kind: &Kind, keys: &mut Vec<Key>) -> Result<(), AllocError>
    ensures { OnOk result (keys.new.items
        ≡ keys.old.items ++ map key.Handle (set_handles owns kind.now)) }
{
    match kind {
        Kind::New { to, fields } | Kind::NewCyclic { to, fields } => {
            add_new(*to, fields.as_slice(), keys)
        }
        Kind::NewFrom { from: a, to: b }
        | Kind::CellCas {
            c: _,
            expected: a,
            desired: b,
        } => add_pair(*a, *b, keys),
        Kind::WeakNew { to: h }
        | Kind::Null { to: h }
        | Kind::Clone { from: _, to: h }
        | Kind::Drop { h }
        | Kind::Downgrade { from: _, to: h }
        | Kind::Upgrade { from: _, to: h }
        | Kind::TryUnwrap { h }
        | Kind::IntoInner { h }
        | Kind::MakeMut { h }
        | Kind::Get { h: _, i: _, to: h }
        | Kind::CellNew { c: _, from: h }
        | Kind::CellLoad { c: _, to: h } => Ok(keys.push(Key::Handle(*h))?),
        Kind::Set {
            h: owner,
            i: _,
            from: h,
        }
        | Kind::Take {
            h: owner,
            i: _,
            to: h,
        } => {
            keys.push(Key::Handle(*h))?;
            add_owner(owns, *owner, keys)
        }
        Kind::CellSwap { c: _, from, to } => {
            keys.push(Key::Handle(*from))?;
            if let Some(to) = to {
                keys.push(Key::Handle(*to))?;
            }
            Ok(())
        }
        Kind::GetMut { h: _ }
        | Kind::Counts { h: _ }
        | Kind::PtrEq { a: _, b: _ }
        | Kind::CellDrop { c: _ }
        | Kind::ScopeEnd => Ok(()),
    }
}

// Adds the handle of a field's owner, if it may hold the value itself.
#[inline(always)]
fn add_owner(owns: bool, owner: u32, keys: &mut Vec<Key>) -> Result<(), AllocError>
    ensures { OnOk result (keys.new.items
        ≡ keys.old.items ++ map key.Handle (if_owner owns owner)) }
{
    if owns {
        keys.push(Key::Handle(owner))?;
    }
    Ok(())
}

// Adds the cell that an operation of this kind makes, sets or ends.
#[inline(always)]
fn add_cell(kind: &Kind, keys: &mut Vec<Key>) -> Result<(), AllocError>
    ensures { OnOk result (keys.new.items
        ≡ keys.old.items ++ map key.Cell (option_to_list (set_cell kind.now))) }
{
    match kind {
        Kind::CellNew { c, from: _ }
        | Kind::CellSwap { c, from: _, to: _ }
        | Kind::CellCas {
            c,
            expected: _,
            desired: _,
        }
        | Kind::CellDrop { c } => Ok(keys.push(Key::Cell(*c))?),
        _ => Ok(()),
    }
}

// Whether an operation of this kind may set the object whose counts it tells.
#[inline(always)]
fn sets_counted(kind: &Kind) -> bool
    ensures { result ≡ sets_counted kind.now }
{
    matches!(
        kind,
        Kind::New { to: _, fields: _ }
            | Kind::NewCyclic { to: _, fields: _ }
            | Kind::NewFrom { from: _, to: _ }
            | Kind::MakeMut { h: _ }
            | Kind::Set {
                h: _,
                i: _,
                from: _,
            }
            | Kind::Take { h: _, i: _, to: _ }
    )
}
