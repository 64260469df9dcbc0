//! The object that a handle names, as an operation sees it.
ghost use Rattle.std.specs.Prelude.{◌≡◌};
ghost use Rattle.std.specs.Option.{option_copied};
ghost use Rattle.std.specs.FinMap as map;
ghost use Rattle.ownership_model.specs.View.{seen};
ghost use Rattle.ownership_model.specs.View as View;
ghost use Rattle.ownership_model.specs.State.{is_alive};
ghost use Rattle.ownership_model.specs.Table.{fields_of};
ghost use Rattle.ownership_model.specs.Bounds.{IsBounded};
ghost use Rattle.ownership_model.specs.Plain.{state_of};

use crate::plain::state::PlainState;
use trace_types::slots::{Entry, Holding, Slot};

/// How many `Arc`s there are to the object.
pub fn strong_named(state: &PlainState, h: u32) -> u64
    requires { IsBounded (state_of state.now) }
    ensures { result ≡ (seen (state_of state.now)
        (View.named_in (map.get state.now.handles h))).strong }
{
    match named_in(state, h) {
        Some(object) => state.count(Slot::Strong(object), &[]),
        None => 0,
    }
}

/// How many `Weak`s there are to the object.
pub fn weak_named(state: &PlainState, h: u32) -> u64
    requires { IsBounded (state_of state.now) }
    ensures { result ≡ (seen (state_of state.now)
        (View.named_in (map.get state.now.handles h))).weak }
{
    match named_in(state, h) {
        Some(object) => state.count(Slot::Weak(object), &[]),
        None => 0,
    }
}

/// Whether the value of the object lives.
pub fn is_alive_named(state: &PlainState, h: u32) -> bool
    ensures { result ≡ is_alive
        (seen (state_of state.now) (View.named_in (map.get state.now.handles h))).entry }
{
    matches!(entry_named(state, h), Some(Entry::Alive(_)))
}

/// The fields of the object; none where its value is gone.
pub fn fields_named(state: &PlainState, h: u32) -> &[Slot]
    ensures { result.now ≡ fields_of
        (seen (state_of state.now) (View.named_in (map.get state.now.handles h))).entry }
{
    match entry_named(state, h) {
        Some(Entry::Alive(fields)) => fields.as_slice(),
        Some(Entry::Husk) | None => &[],
    }
}

fn entry_named(state: &PlainState, h: u32) -> Option<&Entry>
    ensures { option_copied result
        ≡ (seen (state_of state.now) (View.named_in (map.get state.now.handles h))).entry }
{
    match named_in(state, h) {
        Some(object) => state.objects.get(object),
        None => None,
    }
}

fn named_in(state: &PlainState, h: u32) -> Option<u32>
    ensures { result ≡ View.named_in (map.get state.now.handles h) }
{
    match state.handles.get(h) {
        Some(Holding::Slot(slot)) => slot.object(),
        Some(Holding::Bare(_)) | None => None,
    }
}
