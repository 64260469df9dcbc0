//! The replay of a whole trace, and which of its checkpoints are given up.
ghost use Rattle.std.specs.Prelude.{◌≡◌, ◌+◌, ◌*◌, ◌<◌, ◌≤◌, ◌%◌, ◌&&◌, ◌∷◌, [], Some, IfOk, OnOk, length, replicate, false, nat_eq, nat_lt};
ghost use Rattle.trace_types.specs.Trace.{IsTrace};
ghost use Rattle.op_step.specs.Meter.{raised};
ghost use Rattle.run_engine.specs.Segments.{marks_from, IsReached};
ghost use Rattle.run_engine.specs.Marks.{load_marks};
ghost use Rattle.run_engine.specs.RunView.{load_view};
ghost use Rattle.run_engine.specs.GivenUp.{given_up, name_at, names_at, IsTouched};
ghost use Rattle.run_engine.specs.inner.Loaded.{is_given_up, kept_below, loaded_view};
ghost use Rattle.run_engine.specs.inner.Metered.{IsMetered};

use crate::replay::anchors::Anchoring;
use crate::replay::fresh::Fresh;
use crate::replay::origin::{Behind, Origin};
use crate::replay::prefix::{Prefix, STRIDE, joined, replayed_on, stepped};
use crate::segments::blocks::Segments;
use mark_shelf::MarkShelf;
use object_heap::Heap;
use op_step::{Meter, copy_ops};
use std::alloc::{AllocError, Global};
use std::collections::BTreeSet;
use std::sync::Arc;
use trace_types::ops::Op;
use trace_types::trace::Trace;

/// Replays operations, with checkpoints at the multiples of 64, but for those that are given up, and with anchors if there are many. Each segment gets a
/// filter of what it touches.
pub fn loaded(
    alloc: Global,
    ops: &[Op],
    flags: &[bool],
    meter: &mut Meter,
) -> Result<Prefix, AllocError>
    requires trace { IsTrace ops.now }
    ensures prefix { IfOk result (λ f. IsReached ops.now (length ops.now) f.segments f.end) }
    ensures marks { IfOk result
        (λ f. marks_from 0 f.segments ≡ kept_below flags.now (length ops.now)) }
    ensures count { OnOk result (meter.new ≡ raised meter.old (length ops.now)) }
    ensures metered { IsMetered meter.old meter.new 0 (length ops.now) }
{
    let mut prefix = Prefix {
        segments: Segments::empty(alloc),
        end: Heap::empty(),
        len: 0,
        fresh: Fresh::none(alloc),
        behind: Behind::Nothing,
        answered: BTreeSet::new(alloc),
        anchoring: Anchoring::loaded(ops.len()),
    };
    while prefix.len < ops.len() {
        let at = prefix.len;
        let to = at + (ops.len() - at).min(STRIDE);
        let copies = Arc::new(alloc, copy_ops(alloc, &ops[at..to])?)?;
        if is_given_up(flags, at) {
            let anchor = prefix.anchoring.anchor(&prefix.end, at);
            prefix = replayed_on(alloc, prefix, copies, anchor, true, meter)?;
        } else {
            let is_anchored = prefix.anchoring.is_due(at);
            let mut piece = stepped(alloc, &prefix.end, copies, is_anchored, true, meter)?;
            // of a whole trace no chunk is remembered, and one that stayed would keep its heaps
            piece.origin = Origin::Old;
            prefix = joined(alloc, prefix, piece)?;
        }
    }
    Ok(prefix)
}

// Whether the checkpoint at a position is given up.
fn is_given_up(flags: &[bool], at: usize) -> bool
    ensures { result ≡ is_given_up flags.now at }
{
    let i = at / STRIDE;
    at > 0 && i < flags.len() && flags[i]
}

/// Touches the names of the inner checkpoints of a loaded run, in rising position, and tells which checkpoints are given up: those
/// whose names are answered.
pub fn given_up_in(
    alloc: Global,
    trace: &Trace,
    shelf: &mut MarkShelf,
) -> Result<Vec<bool>, AllocError>
    ensures { IfOk result (λ v.
        IsTouched (load_view trace.now) (loaded_view trace.now v.items) shelf.old shelf.new
        (names_at trace.now (load_marks (length trace.now)))) }
{
    let ops = trace.as_slice();
    let mut flags = none_given_up(alloc, ops.len() / STRIDE + 1)?;
    let mut at = STRIDE;
    while at < ops.len() {
        let name = name_before(ops, at);
        touch_one(&mut flags, trace, shelf, name);
        at += STRIDE;
    }
    Ok(flags)
}

// So many checkpoints, none of which is given up.
fn none_given_up(alloc: Global, len: usize) -> Result<Vec<bool>, AllocError>
    ensures { IfOk result (λ v. v.items ≡ replicate len false) }
{
    let flags = vec![in alloc; false; len]?;
    Ok(flags)
}

// The name of the checkpoint at a position.
fn name_before(ops: &[Op], at: usize) -> u32
    requires behind { 0 < at }
    requires within { at ≤ length ops.now }
    ensures { name_at ops.now at ≡ Some result }
{
    let op = &ops[at - 1];
    op.id()
}

// Touches one name, and gives up the checkpoint whose name is answered.
fn touch_one(flags: &mut Vec<bool>, trace: &Trace, shelf: &mut MarkShelf, name: u32)
    requires room { length trace.now < 64 * length flags.old.items }
    ensures room { length flags.new.items ≡ length flags.old.items }
    ensures touched { IsTouched (loaded_view trace.now flags.old.items)
        (loaded_view trace.now flags.new.items) shelf.old shelf.new (name ∷ []) }
{
    if let Some(answer) = shelf.touch(name) {
        give_up(flags, trace, answer);
    }
}

// Gives up the inner checkpoint right behind the operation with this number, if there is one.
fn give_up(flags: &mut Vec<bool>, trace: &Trace, name: u32)
    requires room { length trace.now < 64 * length flags.old.items }
    ensures room { length flags.new.items ≡ length flags.old.items }
    ensures marks { (loaded_view trace.now flags.new.items).marks
        ≡ given_up trace.now (loaded_view trace.now flags.old.items).marks name }
{
    let len = trace.len();
    if let Some(place) = trace.place(name) {
        let at = place + 1;
        if is_inner(at, len) {
            flags[at / STRIDE] = true;
        }
    }
}

// Whether an inner checkpoint may stand at a position.
fn is_inner(at: usize, len: usize) -> bool
    ensures { result ≡ (nat_lt at len && nat_eq (at % 64) 0) }
{
    at < len && at % STRIDE == 0
}
