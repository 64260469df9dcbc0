//! Guesses that serve a replay: chunks that somebody hands in. Nothing is believed of one: it is compared before it is taken.
ghost use Rattle.std.specs.Prelude.{◌≡◌, ℕ, List, ◌+◌, ◌-◌, ◌<◌, ◌≤◌, IfOk, IfSome, IsTrue, length, take, drop, slice_range};
ghost use Rattle.trace_types.specs.Trace.{IsTrace};
ghost use Rattle.op_step.specs.Chunk.{Chunk};
ghost use Rattle.run_engine.specs.Guesses.{IsGuessed, IsAsLong};
ghost use Rattle.run_engine.specs.inner.OldRun.{new_trace};
ghost use Rattle.run_engine.specs.Segments.{IsPiece};
ghost use Rattle.run_engine.specs.inner.Placed.{IsNext};

use crate::editing::listing::Listing;
use crate::replay::origin::Origin;
use crate::replay::prefix::NextStretch;
use crate::replay::revision::Revision;
use mark_shelf::same_ops;
use object_heap::Heap;
use op_step::ChunkRun;
use std::alloc::{AllocError, Global};
use trace_types::ops::Op;

/// A guess to go on with: the first of them that begins with this heap, has the operations from `at` on, one at least, and doesn't go
/// past `to`.
pub fn guessed(
    alloc: Global,
    revision: &Revision,
    heap: &Heap,
    at: usize,
    to: usize,
) -> Result<Option<NextStretch>, AllocError>
    requires order { at ≤ to }
    requires within { to ≤ length (new_trace revision.now) }
    ensures piece { IfOk result (λ o. IfSome o (λ p.
        IsPiece heap.now (slice_range (new_trace revision.now) at to)
        p.segments p.end p.len)) }
    ensures there { IfOk result (λ o. IfSome o (λ p.
        IsGuessed revision.now.guesses.now heap.now
        (take p.len (slice_range (new_trace revision.now) at to)))) }
    ensures gap { IfOk result
        (λ o. IfSome o (λ p. IsAsLong revision.now.guesses.now p.len)) }
    ensures next { (chunks : List (ℕ × Chunk)) →
        IfOk result (λ o. IfSome o (λ p. IsNext chunks heap.now p)) }
{
    for guess in revision.guesses {
        if serves(guess, heap, revision.ops, at, to) {
            let mut piece = NextStretch::of(alloc, guess, false, false)?;
            piece.origin = Origin::Old;
            return Ok(Some(piece));
        }
    }
    Ok(None)
}

/// Whether a guess has the operation at a place for its first.
pub fn may_guess(revision: &Revision, at: usize) -> bool
    requires { at < length (new_trace revision.now) }
{
    for guess in revision.guesses {
        if begins_with(guess, revision.ops.at(at)) {
            return true;
        }
    }
    false
}

// Whether a guess has an operation for its first, by the number.
fn begins_with(guess: &ChunkRun, op: &Op) -> bool {
    match guess.ops().first() {
        None => false,
        Some(first) => first.id() == op.id(),
    }
}

// Whether a guess begins with this heap, has the operations from `at` on, one at least, and doesn't go past `to`. A heap may be large: it is
// compared last, and only where its sum is that of the guess's start, as it is of equal heaps.
fn serves(guess: &ChunkRun, heap: &Heap, ops: &Listing, at: usize, to: usize) -> bool
    requires trace { IsTrace ops.now.ops }
    requires order { at ≤ to }
    requires within { to ≤ length ops.now.ops }
    ensures start { IsTrue result → guess.now.start ≡ heap.now }
    ensures some { IsTrue result → 0 < length guess.now.ops }
    ensures short { IsTrue result → length guess.now.ops ≤ to - at }
    ensures listed { IsTrue result →
        guess.now.ops ≡ take (length guess.now.ops) (drop at ops.now.ops) }
{
    let len = guess.ops().len();
    if len == 0 || len > to - at {
        return false;
    }
    are_listed(ops, at, guess.ops()) && is_same(guess.start(), heap)
}

// Whether these operations are listed from a place on.
fn are_listed(ops: &Listing, at: usize, others: &[Op]) -> bool
    requires trace { IsTrace ops.now.ops }
    requires within { at + length others.now ≤ length ops.now.ops }
    ensures { IsTrue result → others.now ≡ take (length others.now) (drop at ops.now.ops) }
{
    let mut i = 0;
    while i < others.len() {
        let next = ops.from(at + i);
        let few = next.len().min(others.len() - i);
        if !same_ops(&next[..few], &others[i..i + few]) {
            return false;
        }
        i += few;
    }
    true
}

// Whether both are the same heap.
fn is_same(start: &Heap, heap: &Heap) -> bool
    ensures { IsTrue result → start.now ≡ heap.now }
{
    start.sum() == heap.sum() && start.same(heap)
}
