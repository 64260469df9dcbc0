//! What an old run becomes behind a checkpoint, where a replay comes together with it.
ghost use Rattle.std.specs.Prelude.{◌≡◌, ◌↔◌, ◌≤◌, ℕ, length, take, drop, is_some, IfOk, OnOk, IfSome, IsTrue};
ghost use Rattle.trace_types.specs.Trace.{has_distinct_numbers};
ghost use Rattle.ownership_model.specs.State.{nothing_held};
ghost use Rattle.ownership_model.specs.Step.{end_from, AreUnused};
ghost use Rattle.ownership_model.specs.Agrees.{HaveSameRoots};
ghost use Rattle.agreement.specs.Agreement.{Agree};
ghost use Rattle.run_engine.specs.inner.Divergence.{IsFork, DifferWithin, IsDivergence, HasCompared};
ghost use Rattle.run_engine.specs.inner.Difference.{AreDiffering};
ghost use Rattle.run_engine.specs.inner.OldRun.{old_trace, new_trace, rest_of};
ghost use Rattle.run_engine.specs.Segments.{trace_of, marks_from, IsReached, IsRunFrom};

use crate::replay::difference::Difference;
use crate::replay::divergence::Divergence;
use crate::replay::progress::Progress;
use crate::replay::revision::Revision;
use crate::segments::blocks::Segments;
use agreement::{Meeting, patch};
use object_heap::Heap;
use std::alloc::{AllocError, Global};

/// The rest of an old run: its segments from an index on, and its end.
#[derive(Drop)]
pub struct Rest<'a> {
    pub segments: &'a Segments,
    pub from: usize,
    pub end: &'a Heap,
}

/// An old checkpoint or anchor: the heap where the segment at an index begins, behind so many operations.
#[derive(Drop)]
pub struct OldMark {
    pub index: usize,
    pub at: usize,
    pub mark: Heap,
}

/// The rest of the old run from one of its checkpoints on, and its end, as they follow the replayed prefix, where its heap agrees with
/// the checkpoint.
///
/// While the trail to a difference, or handles, cells or scopes tell them apart, no outcome is gone over: the divergence stays where it
/// stands. Else it goes on to where the difference is known, catches up over all that was passed since unless that is far, and they are compared.
pub fn rejoined_at(
    alloc: Global,
    revision: &Revision,
    progress: &Progress,
    old: &OldMark,
    difference: &Difference,
    divergence: &mut Divergence,
) -> Result<Option<(Segments, Heap)>, AllocError>
    requires prefix { IsReached (new_trace revision.now)
        progress.now.prefix.len progress.now.prefix.segments progress.now.prefix.end }
    requires fork { IsFork revision.now progress.now.fork }
    requires within { old.now.index ≤ length revision.now.segments.now }
    requires place { length (trace_of (take old.now.index revision.now.segments.now)) ≡ old.now.at }
    requires mark { old.now.mark
        ≡ end_from nothing_held (take old.now.at (old_trace revision.now)) }
    requires run { IsRunFrom old.now.mark (drop old.now.index revision.now.segments.now)
        revision.now.end.now }
    requires distinct { IsTrue (has_distinct_numbers
        (trace_of (drop old.now.index revision.now.segments.now))) }
    requires unused { AreUnused progress.now.prefix.end
        (trace_of (drop old.now.index revision.now.segments.now)) }
    requires old_unused { AreUnused old.now.mark
        (trace_of (drop old.now.index revision.now.segments.now)) }
    requires differing { AreDiffering revision.now difference.now }
    requires known { IsDivergence revision.now divergence.old }
    ensures answer { IfOk result
        (λ o. IsTrue (is_some o) ↔ Agree progress.now.prefix.end old.now.mark) }
    ensures run { IfOk result (λ o. IfSome o (λ r. IsRunFrom progress.now.prefix.end r.0 r.1)) }
    ensures trace { IfOk result (λ o. IfSome o (λ r.
        trace_of r.0 ≡ trace_of (drop old.now.index revision.now.segments.now))) }
    ensures marks { IfOk result (λ o. IfSome o (λ r. (at : ℕ) →
        marks_from at r.0 ≡ marks_from at (drop old.now.index revision.now.segments.now))) }
    ensures known { OnOk result (IsDivergence revision.now divergence.new) }
{
    let told = divergence.tells_apart(alloc, &progress.prefix.end, &old.mark)?;
    if told {
        return Ok(None);
    }
    divergence.know(alloc, difference)?;
    divergence.let_go(alloc, progress);
    divergence.catch_up(alloc, revision, progress, old.index, old.at)?;
    let rest = Rest {
        segments: revision.segments,
        from: old.index,
        end: revision.end,
    };
    let found = rejoined(alloc, &progress.prefix.end, &old.mark, &rest, divergence)?;
    Ok(found)
}

/// The rest of an old run and its end, as they follow the heap of a replay, where it agrees with the old heap that the rest begins with,
/// which has the same roots. The outcomes are those of the old run, and shared.
///
/// The divergence tells where the two heaps may differ, if that is known.
pub fn rejoined(
    alloc: Global,
    heap: &Heap,
    old_heap: &Heap,
    rest: &Rest,
    divergence: &mut Divergence,
) -> Result<Option<(Segments, Heap)>, AllocError>
    requires within { rest.now.from ≤ length rest.now.segments.now }
    requires run { IsRunFrom old_heap.now (rest_of rest.now) rest.now.end.now }
    requires distinct { IsTrue (has_distinct_numbers (trace_of (rest_of rest.now))) }
    requires unused { AreUnused heap.now (trace_of (rest_of rest.now)) }
    requires old_unused { AreUnused old_heap.now (trace_of (rest_of rest.now)) }
    requires roots { HaveSameRoots heap.now old_heap.now }
    requires known { DifferWithin divergence.old heap.now old_heap.now }
    ensures answer { IfOk result (λ o. IsTrue (is_some o) ↔ Agree heap.now old_heap.now) }
    ensures run { IfOk result (λ o. IfSome o (λ r. IsRunFrom heap.now r.0 r.1)) }
    ensures trace { IfOk result
        (λ o. IfSome o (λ r. trace_of r.0 ≡ trace_of (rest_of rest.now))) }
    ensures marks { IfOk result
        (λ o. IfSome o (λ r. (at : ℕ) → marks_from at r.0 ≡ marks_from at (rest_of rest.now))) }
    ensures known { OnOk result (HasCompared divergence.old divergence.new heap.now old_heap.now) }
{
    let old = rest.segments;
    match divergence.meet(alloc, heap, old_heap)? {
        Meeting::Apart => Ok(None),
        Meeting::Same => {
            let behind = old.stretch(alloc, rest.from, old.len())?;
            Ok(Some((behind, rest.end.share()?)))
        }
        Meeting::Alike(remains) => {
            let end = patch(alloc, rest.end, &remains)?;
            let behind = old.stretch(alloc, rest.from, old.len())?;
            let exchanged = behind.exchanged(alloc, &remains)?;
            Ok(Some((exchanged, end)))
        }
    }
}
