//! Keys that an operation touches, and that neither it nor its outcome names, told beside what it does.
ghost use Rattle.std.specs.Prelude.{◌≡◌, ◌++◌, [], OnOk, map, flat_map, option_to_list};
ghost use Rattle.std.specs.Option.{option_copied};
ghost use Rattle.ownership_model.specs.declared.key.Key.TheVariants as key;
ghost use Rattle.ownership_model.specs.Alike.{Covers};
ghost use Rattle.ownership_model.specs.View.{members, named_in};
ghost use Rattle.op_step.specs.Told.{first_keys, ended_key, ended_keys, unnamed_keys};

use object_heap::{Heap, take_back, tell_once};
use ownership_model::{Key, Plan};
use std::alloc::AllocError;
use trace_types::kinds::Kind;
use trace_types::slots::{Change, Holding, Slot};

/// Tells what an operation that has this plan reads or sets, where neither it nor its outcome names it, nor the plan moves it: the object that the
/// first handle of one that is skipped names, and the handles of a scope that ends.
#[inline(always)]
pub fn tell_unnamed(
    heap: &Heap,
    kind: &Kind,
    plan: &Plan,
    keys: &mut Vec<Key>,
) -> Result<(), AllocError>
    ensures { OnOk result (Covers keys.new.items
        (keys.old.items ++ unnamed_keys heap.now kind.now plan.now)) }
{
    match plan {
        Plan::Skip(_) => tell_first(heap, kind, keys),
        Plan::Act {
            answer: _,
            changes,
            event: _,
            pending: _,
            object: _,
        } => tell_scope(kind, changes.as_slice(), keys),
    }
}

/// Tells the object whose counts are told, so that it isn't told once more behind itself.
#[inline(always)]
pub fn tell_object(object: Option<u32>, keys: &mut Vec<Key>) -> Result<(), AllocError>
    ensures { OnOk result (Covers keys.new.items keys.old.items) }
{
    match object {
        Some(object) => tell_once(object, keys),
        None => Ok(()),
    }
}

/// Takes back the object whose counts are told, where it still stands last: the outcome has it.
#[inline(always)]
pub fn untell_object(object: Option<u32>, keys: &mut Vec<Key>)
    ensures { Covers (keys.new.items ++ map key.Object (option_to_list object)) keys.old.items }
{
    if let Some(object) = object {
        take_back(object, keys);
    }
}

// Tells the object that the first handle names, if it names one.
fn tell_first(heap: &Heap, kind: &Kind, keys: &mut Vec<Key>) -> Result<(), AllocError>
    ensures { OnOk result (Covers keys.new.items (keys.old.items ++ first_keys heap.now kind.now)) }
{
    match first_handle(kind) {
        Some(h) => tell_named(named_object(heap.holding(h)), keys),
        None => Ok(()),
    }
}

fn tell_named(object: Option<u32>, keys: &mut Vec<Key>) -> Result<(), AllocError>
    ensures { OnOk result (Covers keys.new.items
        (keys.old.items ++ map key.Object (option_to_list object))) }
{
    match object {
        Some(object) => tell_once(object, keys),
        None => Ok(()),
    }
}

// Tells the handles of a scope that ends.
#[inline(always)]
fn tell_scope(kind: &Kind, changes: &[Change], keys: &mut Vec<Key>) -> Result<(), AllocError>
    ensures { OnOk result (Covers keys.new.items
        (keys.old.items ++ ended_keys kind.now changes.now)) }
{
    if let Kind::ScopeEnd = kind {
        return tell_ended(changes, keys);
    }
    Ok(())
}

// Tells the handles that changes end.
fn tell_ended(changes: &[Change], keys: &mut Vec<Key>) -> Result<(), AllocError>
    ensures { OnOk result (Covers keys.new.items
        (keys.old.items ++ flat_map ended_key changes.now)) }
{
    for change in changes {
        tell_end(change, keys)?;
    }
    Ok(())
}

fn tell_end(change: &Change, keys: &mut Vec<Key>) -> Result<(), AllocError>
    ensures { OnOk result (keys.new.items ≡ keys.old.items ++ ended_key change.now) }
{
    match change {
        Change::EndHandle(handle) => Ok(keys.push(Key::Handle(*handle))?),
        Change::SetHandle(_, _, _)
        | Change::SetCell(_, _)
        | Change::EndCell(_)
        | Change::SetField(_, _, _)
        | Change::Make(_, _)
        | Change::TurnHusk(_) => Ok(()),
    }
}

// The object that what a handle holds names.
fn named_object(held: Option<&Holding>) -> Option<u32>
    ensures { result ≡ named_in (option_copied held.entry) }
{
    match held {
        Some(Holding::Slot(Slot::Strong(object) | Slot::Weak(object))) => Some(*object),
        Some(Holding::Slot(Slot::Nothing | Slot::Dangling) | Holding::Bare(_)) | None => None,
    }
}

// The handle that stands first among the members of an operation.
fn first_handle(kind: &Kind) -> Option<u32>
    ensures { result ≡ (members [] kind.now).first }
{
    match kind {
        Kind::New { to: h, fields: _ }
        | Kind::NewCyclic { to: h, fields: _ }
        | Kind::NewFrom { from: h, to: _ }
        | Kind::WeakNew { to: h }
        | Kind::Null { to: h }
        | Kind::Clone { from: h, to: _ }
        | Kind::Drop { h }
        | Kind::Downgrade { from: h, to: _ }
        | Kind::Upgrade { from: h, to: _ }
        | Kind::TryUnwrap { h }
        | Kind::IntoInner { h }
        | Kind::GetMut { h }
        | Kind::MakeMut { h }
        | Kind::Counts { h }
        | Kind::PtrEq { a: h, b: _ }
        | Kind::Set { h, i: _, from: _ }
        | Kind::Take { h, i: _, to: _ }
        | Kind::Get { h, i: _, to: _ }
        | Kind::CellNew { c: _, from: h }
        | Kind::CellLoad { c: _, to: h }
        | Kind::CellSwap {
            c: _,
            from: h,
            to: _,
        }
        | Kind::CellCas {
            c: _,
            expected: h,
            desired: _,
        } => Some(*h),
        Kind::CellDrop { c: _ } | Kind::ScopeEnd => None,
    }
}
