//! The trace after a batch of edits.
ghost use Rattle.std.specs.Prelude.{◌≡◌, ◌<◌, ◌≤◌, ◌++◌, length, ◌⊎◌, IfOk, OnOk, IfErr, IfSome, Some, Ok, Err, false, slice_set};
ghost use Rattle.trace_types.specs.Trace.{IsTrace, place_of, is_taken};
ghost use Rattle.run_engine.specs.declared.editing.faults.RunFault.TheVariants.{EmptyBatch, TooManyEdits};
ghost use Rattle.run_engine.specs.Edited.{place_after, inserted, removed, changed, edited_one, edited_by, IsFaultOf};

use crate::editing::faults::RunFault;
use crate::editing::listing::Listing;
use crate::editing::original::Original;
use std::alloc::{AllocError, Global};
use trace_types::edits::{Batch, Edit};
use trace_types::limits::{MAX_EDITS, MAX_OPS};
use trace_types::ops::Op;
use trace_types::trace::Trace;

/// The trace after the edits. The size of the batch is tried first, which takes no memory. Then the edits are tried in
/// order, each on the result of those before it.
pub fn apply(alloc: Global, trace: &Trace, batch: &Batch) -> Result<Trace, RunFault>
    ensures ok { IfOk result (λ t. edited_by trace.now batch.now ≡ Ok t) }
    ensures fault { IfErr result (IsFaultOf (edited_by trace.now batch.now)) }
    ensures empty { length batch.now ≡ 0 → result ≡ Err EmptyBatch }
    ensures too_many { MAX_EDITS < length batch.now → result ≡ Err TooManyEdits }
{
    try_size(batch.len())?;
    let ops = Listing::of(alloc, Original::of_trace(trace))?;
    let ops = edited(ops, batch.as_slice())?;
    Ok(copied(alloc, &ops)?)
}

/// The operations after the edits, as `apply` has them, with distinct numbers.
///
/// They are a list and no `Trace`: no number is looked up, and no index of the numbers is made, which a trace keeps where they don't rise.
pub fn edited_ops(alloc: Global, trace: &Trace, batch: &Batch) -> Result<Vec<Op>, RunFault>
    ensures ok { IfOk result (λ v. edited_by trace.now batch.now ≡ Ok v.items) }
    ensures trace { IfOk result (λ v. IsTrace v.items) }
    ensures fault { IfErr result (IsFaultOf (edited_by trace.now batch.now)) }
    ensures empty { length batch.now ≡ 0 → result ≡ Err EmptyBatch }
    ensures too_many { MAX_EDITS < length batch.now → result ≡ Err TooManyEdits }
{
    try_size(batch.len())?;
    let ops = Listing::of(alloc, Original::of_trace(trace))?;
    let ops = edited(ops, batch.as_slice())?;
    Ok(ops.copies(alloc, 0, ops.len())?)
}

/// Whether a batch may have so many edits.
pub fn try_size(len: usize) -> Result<(), RunFault>
    ensures ok { OnOk result ((0 < len) × (len ≤ MAX_EDITS)) }
    ensures fault { IfErr result
        (λ e. ((e ≡ EmptyBatch) × (len ≡ 0)) ⊎ ((e ≡ TooManyEdits) × (MAX_EDITS < len))) }
{
    if len == 0 {
        return Err(RunFault::EmptyBatch);
    }
    if len > MAX_EDITS {
        return Err(RunFault::TooManyEdits);
    }
    Ok(())
}

/// The operations after the edits, which are carried out in order.
pub(crate) fn edited<'a>(ops: Listing<'a>, batch: &'a [Edit]) -> Result<Listing<'a>, RunFault>
    requires base { IsTrace ops.base }
    requires trace { IsTrace ops.ops }
    requires some { 0 < length batch.now }
    requires few { length batch.now ≤ MAX_EDITS }
    ensures ok { IfOk result (λ r. edited_by ops.entry.ops batch.now ≡ Ok r.ops) }
    ensures fault { IfErr result (IsFaultOf (edited_by ops.entry.ops batch.now)) }
    ensures base { IfOk result (λ r. r.base ≡ ops.entry.base) }
    ensures trace { IfOk result (λ r. IsTrace r.ops) }
{
    let mut ops = ops;
    for i in 0..batch.len() {
        edit_one(&mut ops, &batch[i], i as u64)?;
    }
    Ok(ops)
}

/// Carries out the edit with an index in the batch.
pub(crate) fn edit_one<'a>(
    ops: &mut Listing<'a>,
    edit: &'a Edit,
    index: u64,
) -> Result<(), RunFault>
    requires base { IsTrace ops.old.base }
    requires trace { IsTrace ops.old.ops }
    ensures ok { OnOk result (edited_one index ops.old.ops edit.now ≡ Ok ops.new.ops) }
    ensures fault { IfErr result (IsFaultOf (edited_one index ops.old.ops edit.now)) }
    ensures base { ops.new.base ≡ ops.old.base }
    ensures trace { OnOk result (IsTrace ops.new.ops) }
{
    match edit {
        Edit::Insert { after, op } => insert(ops, *after, op, index),
        Edit::Remove { id } => remove(ops, *id, index),
        Edit::Change { id, op } => change(ops, *id, op, index),
    }
}

// Inserts an operation right after the one with a number, or in front of all where that is 0.
fn insert<'a>(ops: &mut Listing<'a>, after: u32, op: &'a Op, index: u64) -> Result<(), RunFault>
    requires base { IsTrace ops.old.base }
    requires trace { IsTrace ops.old.ops }
    ensures ok { OnOk result
        (inserted index ops.old.ops op.now (place_after after ops.old.ops) ≡ Ok ops.new.ops) }
    ensures fault { IfErr result
        (IsFaultOf (inserted index ops.old.ops op.now (place_after after ops.old.ops))) }
    ensures base { ops.new.base ≡ ops.old.base }
    ensures trace { OnOk result (IsTrace ops.new.ops) }
{
    let Some(place) = place_after(ops, after) else {
        return Err(RunFault::NoSuchOp(index));
    };
    if ops.is_taken(op.id()) {
        return Err(RunFault::IdTaken(index));
    }
    if ops.len() >= MAX_OPS {
        return Err(RunFault::TooMany(index));
    }
    Ok(ops.insert(place, op)?)
}

// Removes the operation with a number.
fn remove(ops: &mut Listing, id: u32, index: u64) -> Result<(), RunFault>
    requires base { IsTrace ops.old.base }
    requires trace { IsTrace ops.old.ops }
    ensures ok { OnOk result
        (removed index ops.old.ops (place_of id ops.old.ops) ≡ Ok ops.new.ops) }
    ensures fault { IfErr result (IsFaultOf (removed index ops.old.ops (place_of id ops.old.ops))) }
    ensures base { ops.new.base ≡ ops.old.base }
    ensures trace { OnOk result (IsTrace ops.new.ops) }
{
    let Some(place) = ops.place(id) else {
        return Err(RunFault::NoSuchOp(index));
    };
    Ok(ops.remove(place)?)
}

// Puts an operation in the place of the one with a number, which it may have too.
fn change<'a>(ops: &mut Listing<'a>, id: u32, op: &'a Op, index: u64) -> Result<(), RunFault>
    requires base { IsTrace ops.old.base }
    requires trace { IsTrace ops.old.ops }
    ensures ok { OnOk result
        (changed index ops.old.ops id op.now (place_of id ops.old.ops) ≡ Ok ops.new.ops) }
    ensures fault { IfErr result
        (IsFaultOf (changed index ops.old.ops id op.now (place_of id ops.old.ops))) }
    ensures base { ops.new.base ≡ ops.old.base }
    ensures trace { OnOk result (IsTrace ops.new.ops) }
{
    let Some(place) = ops.place(id) else {
        return Err(RunFault::NoSuchOp(index));
    };
    if op.id() != id && ops.is_taken(op.id()) {
        return Err(RunFault::IdTaken(index));
    }
    Ok(exchange(ops, id, place, op)?)
}

// Puts an operation in the place of operation `id`.
fn exchange<'a>(ops: &mut Listing<'a>, id: u32, place: usize, op: &'a Op) -> Result<(), AllocError>
    requires trace { IsTrace ops.old.ops }
    requires place { place_of id ops.old.ops ≡ Some place }
    requires new { (op.now.id ≡ id) ⊎ (is_taken op.now.id ops.old.ops ≡ false) }
    ensures base { ops.new.base ≡ ops.old.base }
    ensures ops { OnOk result (ops.new.ops ≡ slice_set ops.old.ops place op.now) }
    ensures trace { OnOk result (IsTrace ops.new.ops) }
{
    ops.set(place, op)?;
    Ok(())
}

/// Where an operation goes that comes right after operation `after`.
pub(crate) fn place_after(ops: &Listing, after: u32) -> Option<usize>
    requires base { IsTrace ops.now.base }
    requires trace { IsTrace ops.now.ops }
    ensures value { result ≡ place_after after ops.now.ops }
    ensures within { IfSome result (λ place. place ≤ length ops.now.ops) }
{
    if after == 0 {
        return Some(0);
    }
    match ops.place(after) {
        Some(place) => Some(place + 1),
        None => None,
    }
}

/// A trace of copies of the operations. Their numbers are distinct, so that only memory can be wanting.
pub(crate) fn copied(alloc: Global, ops: &Listing) -> Result<Trace, AllocError>
    ensures { IfOk result (λ t. t ≡ ops.now.ops) }
{
    let mut trace = Trace::new(alloc);
    let mut at = 0;
    while at < ops.len() {
        let next = ops.from(at);
        push_copies(&mut trace, next)?;
        at += next.len();
    }
    Ok(trace)
}

// Puts copies of operations behind those of a trace.
fn push_copies(trace: &mut Trace, ops: &[Op]) -> Result<(), AllocError>
    ensures { OnOk result (trace.new ≡ trace.old ++ ops.now) }
{
    for op in ops {
        if trace.push(op.clone()?).is_err() {
            return Err(AllocError);
        }
    }
    Ok(())
}
