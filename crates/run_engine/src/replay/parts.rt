//! Parts of old stretches that are taken over though the heaps differ.
ghost use Rattle.std.specs.Prelude.{◌≡◌, ◌+◌, ◌^◌, ◌<◌, ◌≤◌, ◌⊎◌, ℕ, List, IfOk, IfSome, IsTrue, length, take, drop, true, false};
ghost use Rattle.std.specs.Arc.{arc_value};
ghost use Rattle.ownership_model.specs.State.{State, nothing_held};
ghost use Rattle.ownership_model.specs.Step.{end_from, AreUnused};
ghost use Rattle.op_step.specs.Chunk.{Chunk};
ghost use Rattle.heap_difference.specs.Differences.{IsDifference};
ghost use Rattle.heap_difference.specs.Alikes.{AreShifts};
ghost use Rattle.heap_difference.specs.Layers.{IsLaidBy};
ghost use Rattle.run_engine.specs.inner.OldRun.{old_trace};
ghost use Rattle.run_engine.specs.inner.Placed.{IsNext};
ghost use Rattle.run_engine.specs.inner.Untouched.{CanBeUnder, MayBeUnder, IsPassedOver, IsPartUnder, IsNextPart, IsWhole};
ghost use Rattle.run_engine.specs.Segments.{trace_of, has_mark};
ghost use Rattle.run_engine.specs.declared.replay.revision.Revision.{Revision};

use crate::replay::prefix::{NextStretch, STRIDE};
use crate::replay::rejoin::OldMark;
use crate::replay::revision::Revision;
use crate::replay::stretch::heap_at;
use crate::replay::untouched::{is_followed, layer_of, next_of, passed, recounted};
use crate::segments::blocks::Segments;
use crate::segments::segment::Segment;
use heap_difference::{Holders, KeySet, Layer};
use object_heap::Heap;
use std::alloc::{AllocError, Global};
use std::sync::Arc;

/// The part of an old stretch that begins at an old checkpoint or anchor, to go on with from a heap that differs there at some keys: its
/// segments are known to touch none of them. It ends where the old stretch does, or at the last anchor before a segment that may touch one.
/// If not even 64 operations stand before that, and the old stretch is longer, there is none. A handle that differs is to be found soon in its
/// scope, and the layer has few keys.
///
/// The operations and outcomes are shared. The heap where it begins becomes a checkpoint, old anchors stay under one layer, with what differs, and the
/// heap behind it alone is made.
pub fn untouched_part(
    alloc: Global,
    revision: &Revision,
    heap: &Heap,
    old: &OldMark,
    keys: &KeySet,
) -> Result<Option<NextStretch>, AllocError>
    requires within { old.now.index < length revision.now.segments.now }
    requires place { length (trace_of (take old.now.index revision.now.segments.now)) ≡ old.now.at }
    requires mark { old.now.mark
        ≡ end_from nothing_held (take old.now.at (old_trace revision.now)) }
    requires unused { AreUnused heap.now
        (trace_of (drop old.now.index revision.now.segments.now)) }
    requires difference { IsDifference keys.now old.now.mark heap.now }
    ensures next { IfOk result (λ o. IfSome o (IsNextPart revision.now.segments.now
        old.now.index heap.now)) }
    ensures difference { IfOk result (λ o. IfSome o (λ p. IsDifference keys.now
        (end_from nothing_held (trace_of (take (old.now.index + length p.segments)
        revision.now.segments.now))) p.end)) }
    ensures origin { (chunks : List (ℕ × Chunk)) →
        IfOk result (λ o. IfSome o (IsNext chunks heap.now)) }
{
    let Some(layer) = layer_of(alloc, revision, &old.mark, heap, old.index, keys)? else {
        return Ok(None);
    };
    let part = part_under(alloc, revision, heap, old.index, &layer)?;
    if !is_enough(revision.segments, old.index, &part) {
        return Ok(None);
    }
    let after = heap_at(
        alloc,
        revision.segments,
        revision.end,
        old.index + part.len(),
    )?;
    let Some(after) = after else {
        return Ok(None);
    };
    let end = layer.laid(alloc, after)?;
    Ok(Some(next_of(revision, old.index, part, end)))
}

// Whether a part of an old stretch from an index on is the whole of it, or has at least 64 operations.
fn is_enough(old: &Segments, index: usize, part: &Segments) -> bool
    requires within { index + length part.now ≤ length old.now }
    requires index { index < length old.now }
    requires few { length old.now < 2 ^ 64 }
    ensures some { IsTrue result → 0 < length part.now }
    ensures enough { IsTrue result → IsWhole old.now index (length part.now)
        ⊎ (64 ≤ length (trace_of part.now)) }
{
    if part.ops_len() >= STRIDE {
        return true;
    }
    part.len() > 0 && old.at(index).is_marked() && is_followed(old, index + part.len())
}

// The segments of an old stretch from an index on as they stand under the layer, the first with a checkpoint: as far as the stretch goes, or as the
// last anchor before one that may touch a key of the layer.
fn part_under(
    alloc: Global,
    revision: &Revision,
    heap: &Heap,
    index: usize,
    layer: &Arc<Layer>,
) -> Result<Segments, AllocError>
    requires within { index < length revision.now.segments.now }
    requires from { (arc_value layer.now).from ≡ heap.now }
    requires laid { IsLaidBy (arc_value layer.now)
        (end_from nothing_held (trace_of (take index revision.now.segments.now)))
        (arc_value layer.now).from }
    requires counts { AreShifts (arc_value layer.now).shifts
        (end_from nothing_held (trace_of (take index revision.now.segments.now)))
        (arc_value layer.now).from }
    requires unused { AreUnused (arc_value layer.now).from
        (trace_of (drop index revision.now.segments.now)) }
    ensures { IfOk result (IsPartUnder revision.now.segments.now (arc_value layer.now)
        index (arc_value layer.now).from) }
{
    let mut done = Segments::empty(alloc);
    let mut holders = layer.holders(alloc)?;
    let first = first_under(alloc, revision, heap, index, layer, &mut holders)?;
    let Some(first) = first else {
        return Ok(done);
    };
    let mut open = Segments::empty(alloc).push(alloc, first)?;
    for i in index + 1..revision.segments.len() {
        let segment = revision.segments.at(i);
        if segment.is_marked() {
            return done.append(alloc, open);
        }
        if segment.is_anchored() {
            done = done.append(alloc, open)?;
            open = Segments::empty(alloc);
        }
        let next = bare_under(alloc, revision, i, layer, &mut holders)?;
        let Some(next) = next else {
            return Ok(done);
        };
        open = open.push(alloc, next)?;
    }
    done.append(alloc, open)
}

// The old segment at an index, with the heap that the layer is of as its checkpoint, if it may be passed under the layer.
fn first_under(
    alloc: Global,
    revision: &Revision,
    heap: &Heap,
    i: usize,
    layer: &Layer,
    holders: &mut Holders,
) -> Result<Option<Segment>, AllocError>
    requires { CanBeUnder revision.now.segments.now layer.now holders.old i heap.now }
    ensures { IfOk result (λ o. IfSome o (IsPassedOver revision.now.segments.now layer.now
        holders.new i heap.now true)) }
{
    let segment = revision.segments.at(i);
    let Some(told) = passed(alloc, &segment, layer, holders)? else {
        return Ok(None);
    };
    let started = segment.started(alloc, heap.share()?)?;
    Ok(Some(recounted(alloc, started, told)?))
}

// The old segment at an index, which has no checkpoint, as it stands under the layer, if it may be passed.
fn bare_under(
    alloc: Global,
    revision: &Revision,
    i: usize,
    layer: &Arc<Layer>,
    holders: &mut Holders,
) -> Result<Option<Segment>, AllocError>
    requires may { MayBeUnder revision.now.segments.now (arc_value layer.now) holders.old i }
    requires bare { has_mark revision.now.segments.now i ≡ false }
    ensures { IfOk result (λ o. IfSome o (λ s. (new : State) →
        CanBeUnder revision.now.segments.now (arc_value layer.now) holders.old i new →
        IsPassedOver revision.now.segments.now (arc_value layer.now) holders.new i new false s)) }
{
    let segment = revision.segments.at(i);
    let Some(told) = passed(alloc, &segment, layer, holders)? else {
        return Ok(None);
    };
    let Some(under) = segment.under(alloc, layer)? else {
        return Ok(None);
    };
    Ok(Some(recounted(alloc, under, told)?))
}
