//! Handles that one operation names twice.
ghost use Rattle.std.specs.Prelude.{◌≡◌, ◌++◌, IfOk, OnOk};
ghost use Rattle.ownership_model.specs.View.{held_fields};
ghost use Rattle.ownership_model.specs.View as View;

use std::alloc::{AllocError, Global};
use trace_types::kinds::{Field, Kind};

/// The first handle that repeats an earlier one of the same operation. Only `ptr_eq` may name a handle twice.
pub fn repeated(alloc: Global, kind: &Kind) -> Result<Option<u32>, AllocError>
    ensures { IfOk result (λ h. h ≡ View.repeated kind.now) }
{
    let mut before = Vec::new(alloc);
    for h in &apart_handles(alloc, kind)? {
        if before.contains(h) {
            return Ok(Some(*h));
        }
        before.insert(0, *h)?;
    }
    Ok(None)
}

// The handles that have to differ, in the order of the table.
fn apart_handles(alloc: Global, kind: &Kind) -> Result<Vec<u32>, AllocError>
    ensures { IfOk result (λ v. v.items ≡ View.apart_handles kind.now) }
{
    match kind {
        Kind::New { to, fields } | Kind::NewCyclic { to, fields } => {
            let mut handles = vec![in alloc; *to]?;
            push_held(&mut handles, fields.as_slice())?;
            Ok(handles)
        }
        Kind::NewFrom { from, to }
        | Kind::Clone { from, to }
        | Kind::Downgrade { from, to }
        | Kind::Upgrade { from, to } => Ok(vec![in alloc; *from, *to]?),
        Kind::Set { h, i: _, from } => Ok(vec![in alloc; *h, *from]?),
        Kind::Take { h, i: _, to } | Kind::Get { h, i: _, to } => Ok(vec![in alloc; *h, *to]?),
        Kind::CellCas {
            c: _,
            expected,
            desired,
        } => Ok(vec![in alloc; *expected, *desired]?),
        Kind::CellSwap { c: _, from, to } => match to {
            Some(to) => Ok(vec![in alloc; *from, *to]?),
            None => Ok(vec![in alloc; *from]?),
        },
        Kind::CellNew { c: _, from } => Ok(vec![in alloc; *from]?),
        Kind::WeakNew { to } | Kind::Null { to } | Kind::CellLoad { c: _, to } => {
            Ok(vec![in alloc; *to]?)
        }
        Kind::Drop { h }
        | Kind::TryUnwrap { h }
        | Kind::IntoInner { h }
        | Kind::GetMut { h }
        | Kind::MakeMut { h }
        | Kind::Counts { h } => Ok(vec![in alloc; *h]?),
        Kind::PtrEq { a: _, b: _ } | Kind::CellDrop { c: _ } | Kind::ScopeEnd => Ok(Vec::new(
            alloc,
        )),
    }
}

fn push_held(handles: &mut Vec<u32>, fields: &[Field]) -> Result<(), AllocError>
    ensures { OnOk result (handles.new.items ≡ handles.old.items ++ held_fields fields.now) }
{
    for field in fields {
        if let Field::Held(h) = field {
            handles.push(*h)?;
        }
    }
    Ok(())
}
