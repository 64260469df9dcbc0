//! Stretches of an old run that serve again.
ghost use Rattle.std.specs.Prelude.{◌≡◌, ◌⊎◌, ℕ, List, [], ◌+◌, ◌-◌, ◌<◌, ◌≤◌, IfOk, IfSome, IsTrue, length, take, drop, slice_range};
ghost use Rattle.ownership_model.specs.State.{nothing_held};
ghost use Rattle.ownership_model.specs.Step.{end_from};
ghost use Rattle.run_engine.specs.Segments.{trace_of, marks_from, AreReplayFrom, BeginsMarked, IsRun, IsPiece};
ghost use Rattle.run_engine.specs.inner.OldRun.{old_trace, old_marks, new_trace};
ghost use Rattle.run_engine.specs.inner.Divergence.{IsFork};
ghost use Rattle.run_engine.specs.NewMarks.{IsFirstPart};
ghost use Rattle.op_step.specs.Chunk.{Chunk};
ghost use Rattle.run_engine.specs.Steps.{IsOldStretch};
ghost use Rattle.run_engine.specs.inner.Placed.{IsNext};

use crate::replay::origin::Origin;
use crate::replay::prefix::{NextStretch, STRIDE};
use crate::replay::progress::Fork;
use crate::replay::revision::Revision;
use crate::segments::blocks::Segments;
use crate::segments::mark::Mark;
use crate::segments::seek::segment_at;
use object_heap::Heap;
use std::alloc::{AllocError, Global};
use trace_types::limits::MAX_OPS;

/// The old stretch between neighbouring checkpoints that the operations from `at` on come from, if it begins with this heap,
/// they are all of it, and it doesn't go past `to`; and how many old operations stand before its end. If it has more of them than serve, its
/// first ones serve as far as the last anchor before.
///
/// Where the fork stands just there, the heap is that of the stretch, and no heap is compared: as it is behind another old stretch.
pub fn old_stretch(
    alloc: Global,
    revision: &Revision,
    heap: &Heap,
    at: usize,
    to: usize,
    fork: Fork,
) -> Result<Option<(NextStretch, usize)>, AllocError>
    requires some { at < to }
    requires within { to ≤ length (new_trace revision.now) }
    requires heap { heap.now ≡ end_from nothing_held (take at (new_trace revision.now)) }
    requires fork { IsFork revision.now fork }
    ensures gap { IfOk result
        (λ o. IfSome o (λ p. IsFirstPart (old_marks revision.now) p.0.len)) }
    ensures stretch { IfOk result (λ o. IfSome o (λ p.
        IsOldStretch (old_trace revision.now) (old_marks revision.now) heap.now
        (slice_range (new_trace revision.now) at to) p.0.len)) }
    ensures piece { IfOk result (λ o. IfSome o (λ p.
        IsPiece heap.now (slice_range (new_trace revision.now) at to)
        p.0.segments p.0.end p.0.len)) }
    ensures base { IfOk result (λ o. IfSome o (λ p.
        p.0.end ≡ end_from nothing_held (take p.1 (old_trace revision.now)))) }
    ensures next { (chunks : List (ℕ × Chunk)) →
        IfOk result (λ o. IfSome o (λ p. IsNext chunks heap.now p.0)) }
{
    let Some(alike) = revision.ops.alike(at) else {
        return Ok(None);
    };
    let before = at - alike.at;
    let from = alike.from + before;
    let Some(i) = segment_at(revision.segments, from) else {
        return Ok(None);
    };
    let old = revision.segments;
    let Some(mark) = old.at(i).mark() else {
        return Ok(None);
    };
    let j = reach(old, i, (alike.len - before).min(to - at));
    if j == i {
        return Ok(None);
    }
    let segments = old.stretch(alloc, i, j)?;
    let len = segments.ops_len();
    let is_same = has_heap(alloc, &mark, heap, fork.is_at(at, from))?;
    if !is_same {
        return Ok(None);
    }
    let Some(after) = heap_at(alloc, old, revision.end, j)? else {
        return Ok(None);
    };
    let piece = NextStretch {
        segments,
        end: after,
        len,
        origin: Origin::Old,
        to_anchor: begins_anchored(old, j),
    };
    Ok(Some((piece, from + len)))
}

// Whether a checkpoint has this heap. Where that is known none is made, and none is walked.
fn has_heap(alloc: Global, mark: &Mark, heap: &Heap, is_known: bool) -> Result<bool, AllocError>
    requires { IsTrue is_known → mark.now ≡ heap.now }
    ensures { IfOk result (λ is. IsTrue is → mark.now ≡ heap.now) }
{
    if is_known {
        return Ok(true);
    }
    let marked = mark.heap(alloc)?;
    Ok(marked.sum() == heap.sum() && marked.same(heap))
}

/// Whether an old checkpoint stands in front of the operation at a place, where that comes from the old run.
pub fn may_begin(revision: &Revision, at: usize) -> bool
    requires within { at < length (new_trace revision.now) }
{
    let Some(alike) = revision.ops.alike(at) else {
        return false;
    };
    let before = at - alike.at;
    match segment_at(revision.segments, alike.from + before) {
        None => false,
        Some(i) => revision.segments.at(i).is_marked(),
    }
}

// As far as which segment an old stretch serves that begins at the one at an index, where so many operations are wanted at most: to the next
// checkpoint, or the end, or else to the last anchor before. If not even 64 operations stand before that, none serves, and it is the index.
fn reach(segments: &Segments, from: usize, most: usize) -> usize
    requires index { from < length segments.now }
    requires few { length (trace_of segments.now) ≤ MAX_OPS }
    ensures order { from ≤ result }
    ensures within { result ≤ length segments.now }
    ensures none { (at : ℕ) →
        marks_from at (take (result - (from + 1)) (drop (from + 1) segments.now)) ≡ [] }
    ensures fits { length (trace_of (slice_range segments.now from result)) ≤ most }
    ensures whole { from < result → BeginsMarked (drop result segments.now)
        ⊎ (64 ≤ length (trace_of (slice_range segments.now from result))) }
{
    let mut last = from;
    let mut len = 0;
    for i in from..segments.len() {
        len += segments.at(i).ops().len();
        if len > most {
            return last;
        }
        let next = i + 1;
        if next == segments.len() || segments.at(next).is_marked() {
            return next;
        }
        if len >= STRIDE && segments.at(next).is_anchored() {
            last = next;
        }
    }
    last
}

/// Whether the segment at an index begins with an anchor. Behind all there is none.
pub fn begins_anchored(segments: &Segments, index: usize) -> bool {
    index < segments.len() && segments.at(index).is_anchored()
}

/// The heap of the checkpoint with which the segment at j begins, if that is kept, or the end.
pub fn mark_at(
    alloc: Global,
    segments: &Segments,
    end: &Heap,
    j: usize,
) -> Result<Option<Heap>, AllocError>
    requires within { j ≤ length segments.now }
    requires run { IsRun segments.now end.now }
    ensures heap { IfOk result
        (λ o. IfSome o (λ h. h ≡ end_from nothing_held (trace_of (take j segments.now)))) }
    ensures kept { IfOk result (λ o. IfSome o (λ h. BeginsMarked (drop j segments.now))) }
{
    if j == segments.len() {
        return Ok(Some(end.share()?));
    }
    match segments.at(j).mark() {
        None => Ok(None),
        Some(mark) => Ok(Some(mark.heap(alloc)?)),
    }
}

/// The heap where the segment at j begins, or the end, if it is kept, as a checkpoint or as an anchor.
pub fn heap_at(
    alloc: Global,
    segments: &Segments,
    end: &Heap,
    j: usize,
) -> Result<Option<Heap>, AllocError>
    requires within { j ≤ length segments.now }
    requires run { IsRun segments.now end.now }
    ensures { IfOk result
        (λ o. IfSome o (λ h. h ≡ end_from nothing_held (trace_of (take j segments.now)))) }
{
    match mark_at(alloc, segments, end, j)? {
        None => anchor_at(alloc, segments, j),
        Some(heap) => Ok(Some(heap)),
    }
}

// The heap of the anchor with which the segment at j begins, if there is one.
fn anchor_at(alloc: Global, segments: &Segments, j: usize) -> Result<Option<Heap>, AllocError>
    requires { AreReplayFrom nothing_held segments.now }
    ensures { IfOk result
        (λ o. IfSome o (λ h. h ≡ end_from nothing_held (trace_of (take j segments.now)))) }
{
    if j >= segments.len() {
        return Ok(None);
    }
    match segments.at(j).anchor() {
        None => Ok(None),
        Some(anchor) => Ok(Some(anchor.heap(alloc)?)),
    }
}
