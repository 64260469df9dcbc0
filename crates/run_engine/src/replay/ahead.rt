//! A replay where no old stretch can serve: its cuts are known before it is stepped.
ghost use Rattle.std.specs.Prelude.{◌≡◌, ℕ, List, [], ◌∷◌, ◌+◌, ◌<◌, ◌≤◌, IfOk, length, slice_range};
ghost use Rattle.std.specs.Arc.{arc_value};
ghost use Rattle.trace_types.specs.Operation.{Operation};
ghost use Rattle.trace_types.specs.Trace.{IsTrace};
ghost use Rattle.run_engine.specs.Guesses.{Reusable};
ghost use Rattle.run_engine.specs.Memo.{IsSearched};
ghost use Rattle.run_engine.specs.inner.Onward.{cuts};
ghost use Rattle.run_engine.specs.Steps.{AreTaken, HaveSteppedOn};
ghost use Rattle.run_engine.specs.inner.GoesOn.{MayGoOn, GoesOn, GoesAhead};
ghost use Rattle.run_engine.specs.inner.Placed.{IsPlaced};
ghost use Rattle.run_engine.specs.inner.Metered.{IsMetered};

use crate::editing::listing::Listing;
use crate::replay::prefix::{Prefix, STRIDE, found, joined, replayed_on, stepped};
use crate::replay::touching::{inner_name, touch_ahead};
use crate::segments::names::is_among;
use mark_shelf::MarkShelf;
use op_step::Meter;
use std::alloc::{AllocError, Global};
use std::sync::Arc;
use trace_types::ops::Op;

/// Goes on with the replay to a position: the names of all checkpoints on the way are touched first. Where a name is answered by then,
/// the operations behind it are stepped in place, unless the shelf has a chunk of them.
pub fn go_ahead(
    alloc: Global,
    ops: &Listing,
    prefix: Prefix,
    to: usize,
    shelf: &mut MarkShelf,
    meter: &mut Meter,
) -> Result<Prefix, AllocError>
    requires may { MayGoOn ops.now.ops prefix to }
    requires trace { IsTrace ops.now.ops }
    requires placed { IsPlaced shelf.old.chunks prefix }
    ensures goes_on { (old : List Operation) (known : Reusable) → IfOk result (λ f.
        GoesOn old ops.now.ops known prefix f shelf.old shelf.new meter.old meter.new) }
    ensures placed { IfOk result (IsPlaced shelf.new.chunks) }
    ensures there { IfOk result (λ f. f.len ≡ to) }
    ensures metered { IsMetered meter.old meter.new prefix.len to }
{
    let mut prefix = prefix;
    touch_ahead(ops, prefix.len, to, shelf, &mut prefix.answered)?;
    let prefix = step_ahead(alloc, ops, prefix, to, shelf, meter)?;
    Ok(prefix)
}

// Steps the operations up to a position, where the names are touched.
fn step_ahead(
    alloc: Global,
    ops: &Listing,
    prefix: Prefix,
    to: usize,
    shelf: &mut MarkShelf,
    meter: &mut Meter,
) -> Result<Prefix, AllocError>
    requires may { MayGoOn ops.now.ops prefix to }
    requires trace { IsTrace ops.now.ops }
    requires placed { IsPlaced shelf.old.chunks prefix }
    ensures goes_ahead { IfOk result (λ f. GoesAhead ops.now.ops prefix f (cuts prefix.len to)) }
    ensures placed { IfOk result (IsPlaced shelf.new.chunks) }
    ensures searched { IsSearched shelf.old shelf.new }
    ensures stepped { (old : List Operation) (marks : List ℕ) → IfOk result (λ f.
        HaveSteppedOn old ops.now.ops marks shelf.old.chunks prefix.len f.len meter.old meter.new) }
    ensures there { IfOk result (λ f. f.len ≡ to) }
    ensures metered { IsMetered meter.old meter.new prefix.len to }
{
    let mut prefix = prefix;
    while prefix.len < to {
        let len = (to - prefix.len).min(STRIDE);
        let next = ops.shared(alloc, prefix.len, prefix.len + len)?;
        prefix = next_cut(alloc, ops, prefix, next, shelf, meter)?;
    }
    Ok(prefix)
}

// Goes on with the replay as far as the next cut: by a chunk that the shelf has, or else the operations are stepped, in place where the
// name of the checkpoint was answered.
fn next_cut(
    alloc: Global,
    ops: &Listing,
    prefix: Prefix,
    next: Arc<Vec<Op>>,
    shelf: &mut MarkShelf,
    meter: &mut Meter,
) -> Result<Prefix, AllocError>
    requires may { MayGoOn ops.now.ops prefix (prefix.len + length (arc_value next).items) }
    requires some { 0 < length (arc_value next).items }
    requires small { length (arc_value next).items ≤ 64 }
    requires next { (arc_value next).items
        ≡ slice_range ops.now.ops prefix.len (prefix.len + length (arc_value next).items) }
    requires trace { IsTrace ops.now.ops }
    requires placed { IsPlaced shelf.old.chunks prefix }
    ensures goes_ahead { IfOk result (λ f. GoesAhead ops.now.ops prefix f (prefix.len ∷ [])) }
    ensures placed { IfOk result (IsPlaced shelf.new.chunks) }
    ensures searched { IsSearched shelf.old shelf.new }
    ensures taken { (old : List Operation) (marks : List ℕ) → IfOk result (λ _.
        AreTaken old marks shelf.old.chunks prefix.end (arc_value next).items (length (arc_value next).items)
        meter.old meter.new) }
    ensures len { IfOk result (λ f. f.len ≡ prefix.len + length (arc_value next).items) }
    ensures metered { IsMetered meter.old meter.new 0 (length (arc_value next).items) }
{
    let is_anchored = prefix.anchoring.is_due(prefix.len);
    let known = found(
        alloc,
        &prefix.end,
        &next,
        prefix.behind.number(),
        is_anchored,
        shelf,
    )?;
    if let Some(piece) = known {
        let prefix = joined(alloc, prefix, piece)?;
        return Ok(prefix);
    }
    if is_among(inner_name(ops, prefix.len), &prefix.answered) {
        let anchor = prefix.anchoring.anchor(&prefix.end, prefix.len);
        let prefix = replayed_on(alloc, prefix, next, anchor, false, meter)?;
        return Ok(prefix);
    }
    let piece = stepped(alloc, &prefix.end, next, is_anchored, false, meter)?;
    let prefix = joined(alloc, prefix, piece)?;
    Ok(prefix)
}
