//! Old stretches that are taken over though the heaps differ.
ghost use Rattle.std.specs.Prelude.{◌≡◌, ◌+◌, ◌<◌, ◌≤◌, ℕ, List, IfOk, IfSome, IsTrue, OnOk, length, take, drop, flat_map, true};
ghost use Rattle.std.specs.Arc.{arc_value};
ghost use Rattle.ownership_model.specs.State.{State, nothing_held};
ghost use Rattle.ownership_model.specs.Step.{end_from, AreUnused};
ghost use Rattle.op_step.specs.Chunk.{Chunk};
ghost use Rattle.ownership_model.specs.Reach.{has};
ghost use Rattle.heap_difference.specs.Alikes.{is_alike, AreAlikes, AreShifts};
ghost use Rattle.heap_difference.specs.Naming.{outcome_keys};
ghost use Rattle.heap_difference.specs.Recounted.{told_or};
ghost use Rattle.heap_difference.specs.Differences.{IsDifference};
ghost use Rattle.heap_difference.specs.Layers.{IsLaidBy, AreAmong};
ghost use Rattle.run_engine.specs.inner.Layered.{told_at};
ghost use Rattle.run_engine.specs.inner.OldRun.{old_trace};
ghost use Rattle.run_engine.specs.inner.Placed.{IsNext};
ghost use Rattle.run_engine.specs.inner.Divergence.{IsDivergence};
ghost use Rattle.run_engine.specs.inner.Untouched.{CanBeUnder, MayBeUnder, IsUnder, AreUnder, AreNext, IsClear};
ghost use Rattle.run_engine.specs.Segments.{trace_of, has_mark, BeginsMarked};
ghost use Rattle.run_engine.specs.declared.replay.revision.Revision.{Revision};

use crate::replay::divergence::Divergence;
use crate::replay::origin::Origin;
use crate::replay::prefix::NextStretch;
use crate::replay::rejoin::OldMark;
use crate::replay::revision::Revision;
use crate::replay::stretch::{begins_anchored, mark_at};
use crate::segments::blocks::Segments;
use crate::segments::cover::Cover;
use crate::segments::segment::Segment;
use crate::segments::standing::Standing;
use heap_difference::{Alikes, Holders, KeySet, Layer, Numbers};
use object_heap::Heap;
use std::alloc::{AllocError, Global};
use std::sync::Arc;
use trace_types::outcomes::Outcome;
use trace_types::sequence::Sequence;

/// How many keys a layer has at most. Where more would lie over a heap that is kept its operations are stepped again.
const MOST_LAID: usize = 64;

/// How many stretches are taken over at once at most.
const MOST_STRETCHES: usize = 256;

/// How many handles are gone over at most to find the place of one in its scope.
const NEAR: usize = 128;

/// The old stretches, one behind the other, that begin at an old checkpoint, to go on with from a heap that differs there at some keys: each
/// is one segment, ends at the next checkpoint, and is known to touch none of these keys. A handle that differs is to be found soon in its
/// scope, and the layer has few keys.
///
/// Their operations and outcomes are shared. Their heaps are the old ones under one layer, with what differs: none is made but that behind the
/// last, and it is compared with the old one there. While they may agree, half as many are tried. Old anchors stay.
pub fn untouched_stretches(
    alloc: Global,
    revision: &Revision,
    heap: &Heap,
    old: &OldMark,
    keys: &KeySet,
    divergence: &mut Divergence,
) -> Result<Option<NextStretch>, AllocError>
    requires within { old.now.index < length revision.now.segments.now }
    requires place { length (trace_of (take old.now.index revision.now.segments.now)) ≡ old.now.at }
    requires kept { has_mark revision.now.segments.now old.now.index ≡ true }
    requires mark { old.now.mark
        ≡ end_from nothing_held (take old.now.at (old_trace revision.now)) }
    requires unused { AreUnused heap.now
        (trace_of (drop old.now.index revision.now.segments.now)) }
    requires difference { IsDifference keys.now old.now.mark heap.now }
    ensures next { IfOk result (λ o. IfSome o (AreNext revision.now.segments.now
        old.now.index heap.now)) }
    ensures difference { IfOk result (λ o. IfSome o (λ p. IsDifference keys.now
        (end_from nothing_held (trace_of (take (old.now.index + length p.segments)
        revision.now.segments.now))) p.end)) }
    ensures origin { (chunks : List (ℕ × Chunk)) →
        IfOk result (λ o. IfSome o (IsNext chunks heap.now)) }
    ensures known { (r : Revision) → IsDivergence r divergence.old →
        OnOk result (IsDivergence r divergence.new) }
{
    let Some(layer) = layer_of(alloc, revision, &old.mark, heap, old.index, keys)? else {
        return Ok(None);
    };
    let mut most = MOST_STRETCHES;
    while most > 0 {
        let run = stretches_under(alloc, revision, old.index, &layer, most)?;
        let count = run.len();
        let next = apart(alloc, revision, old.index, &layer, run, keys, divergence)?;
        if let Some(next) = next {
            return Ok(Some(next));
        }
        most = most.min(count) / 2;
    }
    Ok(None)
}

/// What stands in a heap at some keys at which an old one differs, and, where one more layer has no room over the heap that is kept for the old segment at
/// an index, at the keys of all that lie there: none where these keys are too many, or where a handle is far from the end of its scope. Of an object
/// that is alive in both heaps with as many fields only those are laid that differ, unless it is laid there already, and the layer comes in the place of
/// that.
pub fn layer_of(
    alloc: Global,
    revision: &Revision,
    old: &Heap,
    heap: &Heap,
    index: usize,
    keys: &KeySet,
) -> Result<Option<Arc<Layer>>, AllocError>
    requires { index < length revision.now.segments.now }
    ensures from { IfOk result (λ o. IfSome o (λ l. (arc_value l).from ≡ heap.now)) }
    ensures within { IfOk result (λ o. IfSome o (λ l. AreAmong keys.now (arc_value l))) }
    ensures laid { IfOk result (λ o. IfSome o (λ l.
        IsDifference keys.now old.now heap.now → IsLaidBy (arc_value l) old.now heap.now)) }
    ensures counts { IfOk result (λ o. IfSome o (λ l.
        AreShifts (arc_value l).shifts old.now heap.now)) }
{
    let segment = revision.segments.at(index);
    let cover = segment.cover();
    let all = cover.wanted(alloc, keys)?;
    if all.len() > MOST_LAID || !are_near(heap, &all.handles) {
        return Ok(None);
    }
    heap.show_sound();
    let is_over = all.len() == keys.len();
    let alikes = alikes_of(alloc, cover, old, heap, &keys.objects, is_over)?;
    let layer = Layer::of(alloc, heap, all, alikes)?;
    Ok(Some(Arc::new(alloc, layer)?))
}

// Those of the objects that are alive in both heaps with as many fields, or those of them that no layer there lays, if another one is to come in the place
// of these.
fn alikes_of(
    alloc: Global,
    cover: &Cover,
    old: &Heap,
    heap: &Heap,
    objects: &Numbers,
    is_over: bool,
) -> Result<Alikes, AllocError>
    ensures alikes { IfOk result (λ a. AreAlikes a.shifts.items a.fields.items old.now heap.now) }
    ensures within { IfOk result (λ a. (o : ℕ) → is_alike a.shifts.items o ≡ true →
        has o objects.now ≡ true) }
{
    let free = free_objects(alloc, cover, objects, is_over)?;
    Alikes::of(alloc, old, heap, free.as_slice())
}

// The objects, or those of them that no layer there lays, if another one is to come in the place of these.
fn free_objects(
    alloc: Global,
    cover: &Cover,
    objects: &Numbers,
    is_over: bool,
) -> Result<Vec<u32>, AllocError>
    ensures { IfOk result (λ v. (o : ℕ) → has o v.items ≡ true → has o objects.now ≡ true) }
{
    let mut free = Vec::new(alloc);
    for object in objects.as_slice() {
        if is_over || !cover.has_object(*object) {
            free.push(*object)?;
        }
    }
    Ok(free)
}

// The old segments from an index on as they begin under the layer, as many as may be taken over, and at most so many.
fn stretches_under(
    alloc: Global,
    revision: &Revision,
    index: usize,
    layer: &Arc<Layer>,
    most: usize,
) -> Result<Segments, AllocError>
    requires within { index < length revision.now.segments.now }
    requires kept { has_mark revision.now.segments.now index ≡ true }
    requires laid { IsLaidBy (arc_value layer.now)
        (end_from nothing_held (trace_of (take index revision.now.segments.now)))
        (arc_value layer.now).from }
    requires counts { AreShifts (arc_value layer.now).shifts
        (end_from nothing_held (trace_of (take index revision.now.segments.now)))
        (arc_value layer.now).from }
    requires unused { AreUnused (arc_value layer.now).from
        (trace_of (drop index revision.now.segments.now)) }
    ensures under { IfOk result (AreUnder revision.now.segments.now (arc_value layer.now)
        index (arc_value layer.now).from) }
    ensures few { IfOk result (λ run. length run ≤ most) }
{
    let end = revision.segments.len().min(index.saturating_add(most));
    let mut holders = layer.holders(alloc)?;
    let mut run = Segments::empty(alloc);
    for i in index..end {
        let segment = stretch_under(alloc, revision, i, layer, &mut holders)?;
        match segment {
            None => return Ok(run),
            Some(segment) => run = run.push(alloc, segment)?,
        }
    }
    Ok(run)
}

// The old segment at an index as it begins under the layer, if it may be taken over: it has its checkpoint, and so has the next one, or it is
// the last; and it may be passed.
fn stretch_under(
    alloc: Global,
    revision: &Revision,
    i: usize,
    layer: &Arc<Layer>,
    holders: &mut Holders,
) -> Result<Option<Segment>, AllocError>
    requires { MayBeUnder revision.now.segments.now (arc_value layer.now) holders.old i }
    ensures { IfOk result (λ o. IfSome o (λ s. (new : State) →
        CanBeUnder revision.now.segments.now (arc_value layer.now) holders.old i new →
        IsUnder revision.now.segments.now (arc_value layer.now) holders.new i new s)) }
{
    let segment = revision.segments.at(i);
    if !segment.is_marked() {
        return Ok(None);
    }
    if !is_followed(revision.segments, i + 1) {
        return Ok(None);
    }
    let Some(told) = passed(alloc, &segment, layer, holders)? else {
        return Ok(None);
    };
    let Some(under) = segment.under(alloc, layer)? else {
        return Ok(None);
    };
    Ok(Some(recounted(alloc, under, told)?))
}

/// Whether it is known that the operations of a segment may be passed under a layer. Then it comes with their outcomes in the new run, if these are
/// others.
pub fn passed(
    alloc: Global,
    segment: &Standing,
    layer: &Layer,
    holders: &mut Holders,
) -> Result<Option<Option<Sequence<Outcome>>>, AllocError>
    ensures { IfOk result (λ o. IfSome o (λ others. IsClear segment.now layer.now holders.old holders.new
        (told_or segment.now.outcomes others))) }
{
    let Some(touched) = segment.keys() else {
        return Ok(None);
    };
    let filter = segment.filter();
    layer.passed(
        alloc,
        holders,
        filter,
        touched,
        segment.ops(),
        segment.outcomes(),
    )
}

/// A segment with other outcomes, which name the same, if such are given.
pub fn recounted(
    alloc: Global,
    segment: Segment,
    told: Option<Sequence<Outcome>>,
) -> Result<Segment, AllocError>
    requires { flat_map outcome_keys (told_or segment.outcomes told)
        ≡ flat_map outcome_keys segment.outcomes }
    ensures { IfOk result (λ s. s ≡ told_at (told_or segment.outcomes told) segment) }
{
    match told {
        None => Ok(segment),
        Some(outcomes) => segment.with_outcomes(alloc, outcomes),
    }
}

/// Whether the segment at an index begins with its checkpoint, or there is none.
pub fn is_followed(old: &Segments, index: usize) -> bool
    ensures { IsTrue result → BeginsMarked (drop index old.now) }
{
    index >= old.len() || old.at(index).is_marked()
}

// Segments that are taken over, to go on with: none if there is no segment, or if there are more than one and the heaps behind them may agree.
fn apart(
    alloc: Global,
    revision: &Revision,
    index: usize,
    layer: &Layer,
    run: Segments,
    keys: &KeySet,
    divergence: &mut Divergence,
) -> Result<Option<NextStretch>, AllocError>
    requires under { AreUnder revision.now.segments.now layer.now index layer.now.from run }
    requires within { AreAmong keys.now layer.now }
    requires difference { IsDifference keys.now
        (end_from nothing_held (trace_of (take index revision.now.segments.now))) layer.now.from }
    ensures next { IfOk result (λ o. IfSome o
        (AreNext revision.now.segments.now index layer.now.from)) }
    ensures difference { IfOk result (λ o. IfSome o (λ p. IsDifference keys.now
        (end_from nothing_held (trace_of (take (index + length p.segments)
        revision.now.segments.now))) p.end)) }
    ensures origin { (chunks : List (ℕ × Chunk)) →
        IfOk result (λ o. IfSome o (IsNext chunks layer.now.from)) }
    ensures known { (r : Revision) → IsDivergence r divergence.old →
        OnOk result (IsDivergence r divergence.new) }
{
    let count = run.len();
    let Some(after) = heap_behind(alloc, revision, index, count)? else {
        return Ok(None);
    };
    let end = layer.laid(alloc, after.share()?)?;
    if count > 1 {
        let is_apart = divergence.is_apart(alloc, &end, &after, keys)?;
        if !is_apart {
            return Ok(None);
        }
    }
    Ok(Some(next_of(revision, index, run, end)))
}

// The old heap behind some segments from an index on, where it is kept: none behind no segment.
fn heap_behind(
    alloc: Global,
    revision: &Revision,
    index: usize,
    count: usize,
) -> Result<Option<Heap>, AllocError>
    requires { index + count ≤ length revision.now.segments.now }
    ensures some { IfOk result (λ o. IfSome o (λ _. 0 < count)) }
    ensures heap { IfOk result (λ o. IfSome o (λ h. h ≡ end_from nothing_held
        (trace_of (take (index + count) revision.now.segments.now)))) }
{
    if count == 0 {
        return Ok(None);
    }
    mark_at(alloc, revision.segments, revision.end, index + count)
}

/// Segments that are taken over from an index on, and the heap behind them, to go on with.
pub fn next_of(revision: &Revision, index: usize, run: Segments, end: Heap) -> NextStretch
    requires { index + length run ≤ length revision.now.segments.now }
    ensures segments { result.segments ≡ run }
    ensures len { result.len ≡ length (trace_of run) }
    ensures end { result.end ≡ end }
    ensures origin { (chunks : List (ℕ × Chunk)) (start : State) → IsNext chunks start result }
{
    let len = run.ops_len();
    let to_anchor = begins_anchored(revision.segments, index + run.len());
    NextStretch {
        segments: run,
        end,
        len,
        origin: Origin::Old,
        to_anchor,
    }
}

// Whether each of the handles that the heap holds is soon put into its scope: a handle that doesn't differ stands not far under it, or few
// stand above it.
fn are_near(heap: &Heap, handles: &Numbers) -> bool {
    for handle in handles.as_slice() {
        if !stands_on_another(heap, handles, *handle) && !is_near_the_top(heap, *handle) {
            return false;
        }
    }
    true
}

// Whether a handle that is none of these stands not far under one of them.
fn stands_on_another(heap: &Heap, handles: &Numbers, handle: u32) -> bool {
    let mut at = handle;
    for _ in 0..NEAR {
        let Some(under) = heap.earlier(at) else {
            return false;
        };
        if !handles.has(under) {
            return true;
        }
        at = under;
    }
    false
}

// Whether few handles stand above one in its scope. So it is for one that is not held.
fn is_near_the_top(heap: &Heap, handle: u32) -> bool {
    let Some(label) = heap.label(handle) else {
        return true;
    };
    let mut at = heap.last(label);
    for _ in 0..NEAR {
        let Some(above) = at else {
            return true;
        };
        if above == handle {
            return true;
        }
        at = heap.earlier(above);
    }
    false
}
