//! What an operation is to do on plain lists: its row of the table.
ghost use Rattle.std.specs.Prelude.{◌≡◌, IfOk};
ghost use Rattle.ownership_model.specs.View.{view_of};
ghost use Rattle.ownership_model.specs.Table.{row};
ghost use Rattle.ownership_model.specs.Bounds.{IsBounded};
ghost use Rattle.ownership_model.specs.Rows.{row_in, Tells};
ghost use Rattle.ownership_model.specs.Plain.{state_of};

use crate::plain::names::repeated;
use crate::plain::state::PlainState;
use crate::plain::{cells, fields, handles, making, scopes, unique};
use crate::plan::{Plan, Stop};
use std::alloc::{AllocError, Global};
use trace_types::kinds::Kind;
use trace_types::ops::Op;
use trace_types::outcomes::Reason;

/// Why the operation is skipped, or what it does.
pub fn plan_of(alloc: Global, state: &PlainState, op: &Op) -> Result<Plan, AllocError>
    requires { IsBounded (state_of state.now) }
    ensures { IfOk result (λ plan. plan
        ≡ row op.now (view_of (state_of state.now) op.now.thread op.now.kind)) }
{
    if let Some(h) = repeated(alloc, op.kind())? {
        return Ok(Plan::Skip(Reason::SameName(h)));
    }
    match row_plan(alloc, state, op.thread(), op.id(), op.kind()) {
        Ok(plan) => Ok(plan),
        Err(Stop::Skip(reason)) => Ok(Plan::Skip(reason)),
        Err(Stop::Memory) => Err(AllocError),
    }
}

fn row_plan(
    alloc: Global,
    state: &PlainState,
    label: u32,
    id: u32,
    kind: &Kind,
) -> Result<Plan, Stop>
    requires { IsBounded (state_of state.now) }
    ensures { Tells result (row_in (state_of state.now) label id kind.now) }
{
    match kind {
        Kind::New { to, fields } | Kind::NewCyclic { to, fields } => {
            making::new(alloc, state, label, id, *to, fields.as_slice())
        }
        Kind::NewFrom { from, to } => making::new_from(alloc, state, label, id, *from, *to),
        Kind::WeakNew { to } => making::weak_new(alloc, state, label, *to),
        Kind::Null { to } => making::null(alloc, state, label, *to),
        Kind::Clone { from, to } => handles::clone(alloc, state, label, *from, *to),
        Kind::Drop { h } => handles::drop(alloc, state, *h),
        Kind::Downgrade { from, to } => handles::downgrade(alloc, state, label, *from, *to),
        Kind::Upgrade { from, to } => handles::upgrade(alloc, state, label, *from, *to),
        Kind::TryUnwrap { h } => unique::try_unwrap(alloc, state, label, *h),
        Kind::IntoInner { h } => unique::into_inner(alloc, state, label, *h),
        Kind::GetMut { h } => unique::get_mut(alloc, state, *h),
        Kind::MakeMut { h } => unique::make_mut(alloc, state, label, id, *h),
        Kind::Counts { h } => handles::counts(alloc, state, *h),
        Kind::PtrEq { a, b } => handles::ptr_eq(alloc, state, *a, *b),
        Kind::Set { h, i, from } => fields::set(alloc, state, label, *h, *i, *from),
        Kind::Take { h, i, to } => fields::take(alloc, state, label, *h, *i, *to),
        Kind::Get { h, i, to } => fields::get(alloc, state, label, *h, *i, *to),
        Kind::CellNew { c, from } => cells::cell_new(alloc, state, *c, *from),
        Kind::CellLoad { c, to } => cells::cell_load(alloc, state, label, *c, *to),
        Kind::CellSwap { c, from, to } => cells::cell_swap(alloc, state, label, *c, *from, *to),
        Kind::CellCas {
            c,
            expected,
            desired,
        } => cells::cell_cas(alloc, state, label, *c, *expected, *desired),
        Kind::CellDrop { c } => cells::cell_drop(alloc, state, *c),
        Kind::ScopeEnd => scopes::scope_end(alloc, state, label),
    }
}
