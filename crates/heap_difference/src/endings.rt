//! Whether operations may end a handle under one that is put in, by what they name.
ghost use Rattle.std.specs.Prelude.{◌≡◌, ◌∷◌, [], option_to_list};
ghost use Rattle.std.specs.List.{list_any};
ghost use Rattle.ownership_model.specs.Reach.{has};
ghost use Rattle.ownership_model.specs.View.{held_fields};
ghost use Rattle.heap_difference.specs.Endings.{may_end, may_end_any};
ghost use Rattle.heap_difference.specs.Puts.{unders};

use object_heap::Put;
use trace_types::kinds::{Field, Kind};
use trace_types::ops::Op;

/// Whether one of the operations may end a handle just under one that is put in.
pub fn may_end_under(puts: &[Put], ops: &[Op]) -> bool
    ensures { result ≡ may_end_any ops.now (unders puts.now) }
{
    for op in ops {
        if may_end_one(op.kind(), puts) {
            return true;
        }
    }
    false
}

fn may_end_one(kind: &Kind, puts: &[Put]) -> bool
    ensures { result ≡ list_any (may_end kind.now) (unders puts.now) }
{
    for put in puts {
        if may_end_its_under(kind, put) {
            return true;
        }
    }
    false
}

#[inline(always)]
fn may_end_its_under(kind: &Kind, put: &Put) -> bool
    ensures { result ≡ list_any (may_end kind.now) (option_to_list put.now.under) }
{
    match put.under {
        None => false,
        Some(under) => may_end(kind, under),
    }
}

// Whether an operation of this kind may end a handle: by what is moved out of it, or dropped with it. The end of a scope may end any.
#[inline(always)]
fn may_end(kind: &Kind, handle: u32) -> bool
    ensures { result ≡ may_end kind.now handle }
{
    match kind {
        Kind::New { to: _, fields } | Kind::NewCyclic { to: _, fields } => {
            is_moved(fields.as_slice(), handle)
        }
        Kind::NewFrom { from: h, to: _ }
        | Kind::Drop { h }
        | Kind::Set {
            h: _,
            i: _,
            from: h,
        }
        | Kind::CellNew { c: _, from: h }
        | Kind::CellSwap {
            c: _,
            from: h,
            to: _,
        }
        | Kind::CellCas {
            c: _,
            expected: _,
            desired: h,
        } => *h == handle,
        Kind::WeakNew { to: _ }
        | Kind::Null { to: _ }
        | Kind::Clone { from: _, to: _ }
        | Kind::Downgrade { from: _, to: _ }
        | Kind::Upgrade { from: _, to: _ }
        | Kind::TryUnwrap { h: _ }
        | Kind::IntoInner { h: _ }
        | Kind::GetMut { h: _ }
        | Kind::MakeMut { h: _ }
        | Kind::Counts { h: _ }
        | Kind::PtrEq { a: _, b: _ }
        | Kind::Take { h: _, i: _, to: _ }
        | Kind::Get { h: _, i: _, to: _ }
        | Kind::CellLoad { c: _, to: _ }
        | Kind::CellDrop { c: _ } => false,
        Kind::ScopeEnd => true,
    }
}

// Whether a handle is among the fields of a new object.
fn is_moved(fields: &[Field], handle: u32) -> bool
    ensures { result ≡ has handle (held_fields fields.now) }
{
    for field in fields {
        if is_held(*field, handle) {
            return true;
        }
    }
    false
}

#[inline(always)]
fn is_held(field: Field, handle: u32) -> bool
    ensures { result ≡ has handle (held_fields (field ∷ [])) }
{
    match field {
        Field::Held(h) => h == handle,
        Field::Null | Field::Me => false,
    }
}
