//! Handles that one operation names twice.
ghost use Rattle.std.specs.Prelude.{◌≡◌, ◌==◌, [], ◌∷◌};
ghost use Rattle.std.specs.List.{list_any};
ghost use Rattle.ownership_model.specs.View.{held_fields, repeated_in};
ghost use Rattle.ownership_model.specs.View as View;

use trace_types::kinds::{Field, Kind};

/// The first handle that repeats an earlier one of the same operation. Only `ptr_eq` may name a handle twice.
pub fn repeated(kind: &Kind) -> Option<u32>
    ensures { result ≡ View.repeated kind.now }
{
    match kind {
        Kind::New { to, fields } | Kind::NewCyclic { to, fields } => {
            repeated_field(*to, fields.as_slice())
        }
        Kind::NewFrom { from, to }
        | Kind::Clone { from, to }
        | Kind::Downgrade { from, to }
        | Kind::Upgrade { from, to } => repeated_pair(*from, *to),
        Kind::Set { h, i: _, from } => repeated_pair(*h, *from),
        Kind::Take { h, i: _, to } | Kind::Get { h, i: _, to } => repeated_pair(*h, *to),
        Kind::CellSwap { c: _, from, to } => match to {
            Some(to) => repeated_pair(*from, *to),
            None => None,
        },
        Kind::CellCas {
            c: _,
            expected,
            desired,
        } => repeated_pair(*expected, *desired),
        Kind::WeakNew { to: _ }
        | Kind::Null { to: _ }
        | Kind::Drop { h: _ }
        | Kind::TryUnwrap { h: _ }
        | Kind::IntoInner { h: _ }
        | Kind::GetMut { h: _ }
        | Kind::MakeMut { h: _ }
        | Kind::Counts { h: _ }
        | Kind::PtrEq { a: _, b: _ }
        | Kind::CellNew { c: _, from: _ }
        | Kind::CellLoad { c: _, to: _ }
        | Kind::CellDrop { c: _ }
        | Kind::ScopeEnd => None,
    }
}

fn repeated_pair(first: u32, second: u32) -> Option<u32>
    ensures { result ≡ repeated_in [] (first ∷ second ∷ []) }
{
    if first == second { Some(second) } else { None }
}

// A handle of the fields that `to` or an earlier field names.
fn repeated_field(to: u32, fields: &[Field]) -> Option<u32>
    ensures { result ≡ repeated_in [] (to ∷ held_fields fields.now) }
{
    for (place, field) in fields.iter().enumerate() {
        if let Field::Held(h) = field {
            if is_named(*h, to, &fields[..place]) {
                return Some(*h);
            }
        }
    }
    None
}

fn is_named(h: u32, to: u32, earlier: &[Field]) -> bool
    ensures { result ≡ list_any (λ b. b == h) (to ∷ held_fields earlier.now) }
{
    h == to || is_field(h, earlier)
}

fn is_field(h: u32, fields: &[Field]) -> bool
    ensures { result ≡ list_any (λ b. b == h) (held_fields fields.now) }
{
    for field in fields {
        if let Field::Held(named) = field {
            if *named == h {
                return true;
            }
        }
    }
    false
}
