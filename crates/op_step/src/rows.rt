//! What an operation is to do on a heap: its row of the table.
ghost use Rattle.std.specs.Prelude.{◌≡◌, IfOk};
ghost use Rattle.ownership_model.specs.View.{view_of};
ghost use Rattle.ownership_model.specs.Table.{row};
ghost use Rattle.ownership_model.specs.Rows.{row_in, Tells};

use crate::names::repeated;
use crate::room::Room;
use crate::{cells, fields, handles, make, scope, unique};
use object_heap::Heap;
use ownership_model::{Plan, Stop};
use std::alloc::{AllocError, Global};
use trace_types::kinds::Kind;
use trace_types::ops::Op;
use trace_types::outcomes::Reason;

/// Why the operation is skipped, or what it does.
pub fn plan(alloc: Global, heap: &Heap, op: &Op) -> Result<Plan, AllocError>
    ensures { IfOk result (λ p. p ≡ row op.now (view_of heap.now op.now.thread op.now.kind)) }
{
    let mut room = Room::new(alloc);
    plan_in(&mut room, heap, op)
}

/// As `plan`, with its lists in a room.
#[inline(always)]
pub fn plan_in(room: &mut Room, heap: &Heap, op: &Op) -> Result<Plan, AllocError>
    ensures { IfOk result (λ p. p ≡ row op.now (view_of heap.now op.now.thread op.now.kind)) }
{
    if let Some(h) = repeated(op.kind()) {
        return Ok(Plan::Skip(Reason::SameName(h)));
    }
    match row_plan(room, heap, op.thread(), op.id(), op.kind()) {
        Ok(plan) => Ok(plan),
        Err(Stop::Skip(reason)) => Ok(Plan::Skip(reason)),
        Err(Stop::Memory) => Err(AllocError),
    }
}

fn row_plan(room: &mut Room, heap: &Heap, label: u32, id: u32, kind: &Kind) -> Result<Plan, Stop>
    ensures { Tells result (row_in heap.now label id kind.now) }
{
    match kind {
        Kind::New { to, fields } | Kind::NewCyclic { to, fields } => {
            make::new(room, heap, label, id, *to, fields.as_slice())
        }
        Kind::NewFrom { from, to } => make::new_from(room, heap, label, id, *from, *to),
        Kind::WeakNew { to } => make::weak_new(room, heap, label, *to),
        Kind::Null { to } => make::null(room, heap, label, *to),
        Kind::Clone { from, to } => handles::clone(room, heap, label, *from, *to),
        Kind::Drop { h } => handles::drop(room, heap, *h),
        Kind::Downgrade { from, to } => handles::downgrade(room, heap, label, *from, *to),
        Kind::Upgrade { from, to } => handles::upgrade(room, heap, label, *from, *to),
        Kind::TryUnwrap { h } => unique::try_unwrap(room, heap, label, *h),
        Kind::IntoInner { h } => unique::into_inner(room, heap, label, *h),
        Kind::GetMut { h } => unique::get_mut(room.alloc(), heap, *h),
        Kind::MakeMut { h } => unique::make_mut(room, heap, label, id, *h),
        Kind::Counts { h } => handles::counts(room.alloc(), heap, *h),
        Kind::PtrEq { a, b } => handles::ptr_eq(room.alloc(), heap, *a, *b),
        Kind::Set { h, i, from } => fields::set(room, heap, label, *h, *i, *from),
        Kind::Take { h, i, to } => fields::take(room, heap, label, *h, *i, *to),
        Kind::Get { h, i, to } => fields::get(room, heap, label, *h, *i, *to),
        Kind::CellNew { c, from } => cells::cell_new(room, heap, *c, *from),
        Kind::CellLoad { c, to } => cells::cell_load(room, heap, label, *c, *to),
        Kind::CellSwap { c, from, to } => cells::cell_swap(room, heap, label, *c, *from, *to),
        Kind::CellCas {
            c,
            expected,
            desired,
        } => cells::cell_cas(room, heap, label, *c, *expected, *desired),
        Kind::CellDrop { c } => cells::cell_drop(room, heap, *c),
        Kind::ScopeEnd => scope::scope_end(room, heap, label),
    }
}
