//! A replay goes on over what touches nothing at which the heaps differ.
ghost use Rattle.std.specs.Prelude.{◌≡◌, ◌+◌, ◌-◌, ◌<◌, ◌≤◌, ℕ, List, IfOk, IfSome, OnOk, length, take, drop, true};
ghost use Rattle.ownership_model.specs.State.{nothing_held};
ghost use Rattle.ownership_model.specs.Step.{end_from};
ghost use Rattle.op_step.specs.Chunk.{Chunk};
ghost use Rattle.run_engine.specs.Segments.{trace_of, has_mark, IsReached};
ghost use Rattle.run_engine.specs.inner.OldRun.{old_trace, old_marks, new_trace};
ghost use Rattle.run_engine.specs.inner.GoesOn.{GoesOnBeside};
ghost use Rattle.run_engine.specs.inner.Placed.{IsPlaced, IsNext};
ghost use Rattle.run_engine.specs.inner.Divergence.{IsFork, IsDivergence};
ghost use Rattle.run_engine.specs.inner.Difference.{AreDiffering};
ghost use Rattle.run_engine.specs.inner.Untouched.{AreNext, IsNextPart, IsPast, IsPastMarks, PassesNone};

use crate::replay::difference::Difference;
use crate::replay::divergence::Divergence;
use crate::replay::parts::untouched_part;
use crate::replay::prefix::{NextStretch, joined};
use crate::replay::progress::Progress;
use crate::replay::rejoin::OldMark;
use crate::replay::revision::Revision;
use crate::replay::touching::{touch_at, touch_each};
use crate::replay::untouched::{is_followed, untouched_stretches};
use mark_shelf::MarkShelf;
use std::alloc::{AllocError, Global};

// The old stretches that begin at an old checkpoint, where the replay stands beside it, if they are known to touch nothing at which the heaps
// differ.
fn next_untouched(
    alloc: Global,
    revision: &Revision,
    progress: &Progress,
    old: &OldMark,
    difference: &mut Difference,
    divergence: &mut Divergence,
) -> Result<Option<NextStretch>, AllocError>
    requires prefix { IsReached (new_trace revision.now)
        progress.now.prefix.len progress.now.prefix.segments progress.now.prefix.end }
    requires fork { IsFork revision.now progress.now.fork }
    requires within { old.now.index < length revision.now.segments.now }
    requires place { length (trace_of (take old.now.index revision.now.segments.now)) ≡ old.now.at }
    requires kept { has_mark revision.now.segments.now old.now.index ≡ true }
    requires mark { old.now.mark
        ≡ end_from nothing_held (take old.now.at (old_trace revision.now)) }
    requires shared { trace_of (drop old.now.index revision.now.segments.now)
        ≡ drop progress.now.prefix.len (new_trace revision.now) }
    requires known { AreDiffering revision.now difference.old }
    requires divergence { IsDivergence revision.now divergence.old }
    ensures next { IfOk result (λ o. IfSome o (AreNext revision.now.segments.now
        old.now.index progress.now.prefix.end)) }
    ensures origin { (chunks : List (ℕ × Chunk)) →
        IfOk result (λ o. IfSome o (IsNext chunks progress.now.prefix.end)) }
    ensures known { OnOk result (AreDiffering revision.now difference.new) }
    ensures divergence { OnOk result (IsDivergence revision.now divergence.new) }
{
    let did_look = difference.look(alloc, revision, progress, old)?;
    if !did_look {
        return Ok(None);
    }
    let Some(keys) = difference.keys() else {
        return Ok(None);
    };
    let heap = &progress.prefix.end;
    let next = untouched_stretches(alloc, revision, heap, old, keys, divergence)?;
    match &next {
        None => difference.miss(),
        Some(piece) => difference.pass(piece.len),
    }
    Ok(next)
}

// Goes on with the replay by stretches: the names of the checkpoints where they begin are touched.
fn taken(
    alloc: Global,
    revision: &Revision,
    progress: Progress,
    index: usize,
    next: NextStretch,
    shelf: &mut MarkShelf,
) -> Result<Progress, AllocError>
    requires prefix { IsReached (new_trace revision.now)
        progress.prefix.len progress.prefix.segments progress.prefix.end }
    requires fork { IsFork revision.now progress.fork }
    requires placed { IsPlaced shelf.old.chunks progress.prefix }
    requires shared { trace_of (drop index revision.now.segments.now)
        ≡ drop progress.prefix.len (new_trace revision.now) }
    requires next { AreNext revision.now.segments.now index progress.prefix.end next }
    requires origin { (chunks : List (ℕ × Chunk)) → IsNext chunks progress.prefix.end next }
    ensures beside { (count : ℕ) → IfOk result (λ p.
        GoesOnBeside revision.now progress.prefix p.prefix shelf.old shelf.new count count) }
    ensures fork { IfOk result (λ p. IsFork revision.now p.fork) }
    ensures placed { IfOk result (λ p. IsPlaced shelf.new.chunks p.prefix) }
    ensures len { IfOk result (λ p. p.prefix.len ≡ progress.prefix.len + next.len) }
    ensures end { IfOk result (λ p. p.prefix.end ≡ next.end) }
{
    let mut prefix = progress.prefix;
    touch_each(
        revision.ops,
        prefix.len,
        &next.segments,
        shelf,
        &mut prefix.answered,
    )?;
    let prefix = joined(alloc, prefix, next)?;
    Ok(Progress {
        prefix,
        fork: progress.fork,
    })
}

// Goes on with the replay over the old stretches that begin at an old checkpoint, if they are known to touch nothing at which the heaps differ.
// At no old checkpoint that it passes do the heaps agree. Else the replay stays where it stands.
fn go_past(
    alloc: Global,
    revision: &Revision,
    progress: Progress,
    old: &OldMark,
    difference: &mut Difference,
    divergence: &mut Divergence,
    shelf: &mut MarkShelf,
) -> Result<Progress, AllocError>
    requires prefix { IsReached (new_trace revision.now)
        progress.prefix.len progress.prefix.segments progress.prefix.end }
    requires fork { IsFork revision.now progress.fork }
    requires placed { IsPlaced shelf.old.chunks progress.prefix }
    requires within { old.now.index < length revision.now.segments.now }
    requires place { length (trace_of (take old.now.index revision.now.segments.now)) ≡ old.now.at }
    requires kept { has_mark revision.now.segments.now old.now.index ≡ true }
    requires mark { old.now.mark
        ≡ end_from nothing_held (take old.now.at (old_trace revision.now)) }
    requires shared { trace_of (drop old.now.index revision.now.segments.now)
        ≡ drop progress.prefix.len (new_trace revision.now) }
    requires known { AreDiffering revision.now difference.old }
    requires divergence { IsDivergence revision.now divergence.old }
    ensures beside { (count : ℕ) → IfOk result (λ p.
        GoesOnBeside revision.now progress.prefix p.prefix shelf.old shelf.new count count) }
    ensures fork { IfOk result (λ p. IsFork revision.now p.fork) }
    ensures placed { IfOk result (λ p. IsPlaced shelf.new.chunks p.prefix) }
    ensures no_less { IfOk result (λ p. progress.prefix.len ≤ p.prefix.len) }
    ensures past { IfOk result (λ p. IsPast (old_trace revision.now) (new_trace revision.now)
        old.now.at (length (trace_of (take (old.now.index + 1) revision.now.segments.now)))
        progress.prefix.len p.prefix.len) }
    ensures known { OnOk result (AreDiffering revision.now difference.new) }
    ensures divergence { OnOk result (IsDivergence revision.now divergence.new) }
{
    let next = next_untouched(alloc, revision, &progress, old, difference, divergence)?;
    match next {
        None => Ok(progress),
        Some(piece) => taken(alloc, revision, progress, old.index, piece, shelf),
    }
}

/// Goes on with the replay over old stretches from an old checkpoint on, or over a part of one, if these are known to touch nothing at which the heaps
/// differ; else it stays where it stands. At no old checkpoint that it passes do the heaps agree.
pub fn pass(
    alloc: Global,
    revision: &Revision,
    progress: Progress,
    old: &OldMark,
    difference: &mut Difference,
    divergence: &mut Divergence,
    shelf: &mut MarkShelf,
) -> Result<Progress, AllocError>
    requires prefix { IsReached (new_trace revision.now)
        progress.prefix.len progress.prefix.segments progress.prefix.end }
    requires fork { IsFork revision.now progress.fork }
    requires placed { IsPlaced shelf.old.chunks progress.prefix }
    requires within { old.now.index < length revision.now.segments.now }
    requires place { length (trace_of (take old.now.index revision.now.segments.now)) ≡ old.now.at }
    requires kept { has_mark revision.now.segments.now old.now.index ≡ true }
    requires mark { old.now.mark
        ≡ end_from nothing_held (take old.now.at (old_trace revision.now)) }
    requires shared { trace_of (drop old.now.index revision.now.segments.now)
        ≡ drop progress.prefix.len (new_trace revision.now) }
    requires known { AreDiffering revision.now difference.old }
    requires divergence { IsDivergence revision.now divergence.old }
    ensures beside { (count : ℕ) → IfOk result (λ p.
        GoesOnBeside revision.now progress.prefix p.prefix shelf.old shelf.new count count) }
    ensures fork { IfOk result (λ p. IsFork revision.now p.fork) }
    ensures placed { IfOk result (λ p. IsPlaced shelf.new.chunks p.prefix) }
    ensures no_less { IfOk result (λ p. progress.prefix.len ≤ p.prefix.len) }
    ensures past { IfOk result (λ p. IsPastMarks (old_trace revision.now) (new_trace revision.now)
        (old_marks revision.now) old.now.at
        (length (trace_of (take (old.now.index + 1) revision.now.segments.now)))
        progress.prefix.len p.prefix.len) }
    ensures known { OnOk result (AreDiffering revision.now difference.new) }
    ensures divergence { OnOk result (IsDivergence revision.now divergence.new) }
{
    if is_followed(revision.segments, old.index + 1) {
        return go_past(
            alloc, revision, progress, old, difference, divergence, shelf,
        );
    }
    pass_part(alloc, revision, progress, old, difference, shelf)
}

// The part of an old stretch that begins at an old checkpoint or anchor, where the replay stands beside it, if it is known to touch nothing at which
// the heaps differ.
fn next_part(
    alloc: Global,
    revision: &Revision,
    progress: &Progress,
    old: &OldMark,
    difference: &mut Difference,
) -> Result<Option<NextStretch>, AllocError>
    requires prefix { IsReached (new_trace revision.now)
        progress.now.prefix.len progress.now.prefix.segments progress.now.prefix.end }
    requires fork { IsFork revision.now progress.now.fork }
    requires within { old.now.index < length revision.now.segments.now }
    requires place { length (trace_of (take old.now.index revision.now.segments.now)) ≡ old.now.at }
    requires mark { old.now.mark
        ≡ end_from nothing_held (take old.now.at (old_trace revision.now)) }
    requires shared { trace_of (drop old.now.index revision.now.segments.now)
        ≡ drop progress.now.prefix.len (new_trace revision.now) }
    requires known { AreDiffering revision.now difference.old }
    ensures next { IfOk result (λ o. IfSome o (IsNextPart revision.now.segments.now
        old.now.index progress.now.prefix.end)) }
    ensures origin { (chunks : List (ℕ × Chunk)) →
        IfOk result (λ o. IfSome o (IsNext chunks progress.now.prefix.end)) }
    ensures known { OnOk result (AreDiffering revision.now difference.new) }
{
    let did_look = difference.look(alloc, revision, progress, old)?;
    if !did_look {
        return Ok(None);
    }
    let Some(keys) = difference.keys() else {
        return Ok(None);
    };
    let next = untouched_part(alloc, revision, &progress.prefix.end, old, keys)?;
    match &next {
        None => difference.miss(),
        Some(piece) => difference.pass(piece.len),
    }
    Ok(next)
}

/// Goes on with the replay over the part of an old stretch that begins at an old checkpoint or anchor, if it is known to touch nothing at which the
/// heaps differ. It passes no old checkpoint. Else the replay stays where it stands.
pub fn pass_part(
    alloc: Global,
    revision: &Revision,
    progress: Progress,
    old: &OldMark,
    difference: &mut Difference,
    shelf: &mut MarkShelf,
) -> Result<Progress, AllocError>
    requires prefix { IsReached (new_trace revision.now)
        progress.prefix.len progress.prefix.segments progress.prefix.end }
    requires fork { IsFork revision.now progress.fork }
    requires placed { IsPlaced shelf.old.chunks progress.prefix }
    requires within { old.now.index < length revision.now.segments.now }
    requires place { length (trace_of (take old.now.index revision.now.segments.now)) ≡ old.now.at }
    requires mark { old.now.mark
        ≡ end_from nothing_held (take old.now.at (old_trace revision.now)) }
    requires shared { trace_of (drop old.now.index revision.now.segments.now)
        ≡ drop progress.prefix.len (new_trace revision.now) }
    requires known { AreDiffering revision.now difference.old }
    ensures beside { (count : ℕ) → IfOk result (λ p.
        GoesOnBeside revision.now progress.prefix p.prefix shelf.old shelf.new count count) }
    ensures fork { IfOk result (λ p. IsFork revision.now p.fork) }
    ensures placed { IfOk result (λ p. IsPlaced shelf.new.chunks p.prefix) }
    ensures no_less { IfOk result (λ p. progress.prefix.len ≤ p.prefix.len) }
    ensures past { IfOk result (λ p. PassesNone (old_marks revision.now) old.now.at
        progress.prefix.len p.prefix.len) }
    ensures known { OnOk result (AreDiffering revision.now difference.new) }
{
    let next = next_part(alloc, revision, &progress, old, difference)?;
    let Some(piece) = next else {
        return Ok(progress);
    };
    let fork = progress.fork;
    let mut prefix = progress.prefix;
    touch_at(revision.ops, prefix.len, shelf, &mut prefix.answered)?;
    let prefix = joined(alloc, prefix, piece)?;
    Ok(Progress { prefix, fork })
}
