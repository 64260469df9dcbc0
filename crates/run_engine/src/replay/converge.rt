//! A replay beside an old one, as far as the two come together.
ghost use Rattle.std.specs.Prelude.{◌≡◌, ◌↔◌, ◌++◌, ◌∷◌, ◌+◌, ◌-◌, ◌<◌, ◌≤◌, ℕ, List, [], IfOk, IfSome, OnOk, IsTrue, is_some, length, take, drop, slice_range, true, false};
ghost use Rattle.std.specs.Ordering.{nat_cmp};
ghost use Rattle.std.specs.BTreeSet.{contains};
ghost use Rattle.ownership_model.specs.State.{nothing_held};
ghost use Rattle.trace_types.specs.Trace.{has_distinct_numbers};
ghost use Rattle.ownership_model.specs.Step.{end_from, AreUnused};
ghost use Rattle.agreement.specs.Agreement.{Agree};
ghost use Rattle.op_step.specs.Chunk.{Chunk};
ghost use Rattle.run_engine.specs.Segments.{trace_of, marks_from, all_marks, IsRun, IsRunFrom, IsPiece};
ghost use Rattle.run_engine.specs.Guesses.{with_guesses};
ghost use Rattle.run_engine.specs.inner.OldRun.{old_trace, old_marks, new_trace, reusable};
ghost use Rattle.run_engine.specs.HeadAndTail.{ShareEnd};
ghost use Rattle.run_engine.specs.Bounds.{StepsAtMost};
ghost use Rattle.run_engine.specs.NewMarks.{IsGap};
ghost use Rattle.run_engine.specs.inner.Onward.{AreMarksLeft, AreAnswered};
ghost use Rattle.run_engine.specs.GivenUp.{names_at};
ghost use Rattle.run_engine.specs.Memo.{IsSearched};
ghost use Rattle.run_engine.specs.Steps.{IsOldStretch, AreTaken, AreStepped};
ghost use Rattle.run_engine.specs.inner.GoesOn.{MayGoOn, GoesOnBeside};
ghost use Rattle.run_engine.specs.inner.Placed.{IsPlaced, IsNext};
ghost use Rattle.run_engine.specs.inner.Divergence.{IsFork, IsDivergence};
ghost use Rattle.run_engine.specs.inner.Difference.{AreDiffering};
ghost use Rattle.run_engine.specs.inner.Metered.{IsMetered};
ghost use Rattle.run_engine.specs.inner.Replaced.{AreReplaced};
ghost use Rattle.run_engine.specs.inner.Untouched.{PassesNone};

use crate::replay::ahead::go_ahead;
use crate::replay::difference::Difference;
use crate::replay::divergence::Divergence;
use crate::replay::guess::{guessed, may_guess};
use crate::replay::origin::Behind;
use crate::replay::passing::{pass, pass_part};
use crate::replay::prefix::{NextStretch, Prefix, STRIDE, found, joined, stepped};
use crate::replay::progress::{Fork, Progress};
use crate::replay::rejoin::{OldMark, rejoined_at};
use crate::replay::replaced::Replaced;
use crate::replay::revision::Revision;
use crate::replay::stretch::{may_begin, old_stretch};
use crate::replay::touching::touch_at;
use crate::segments::blocks::Segments;
use mark_shelf::MarkShelf;
use object_heap::Heap;
use op_step::Meter;
use std::alloc::{AllocError, Global};
use trace_types::limits::MAX_OPS;

/// Where the operations begin that both traces end with, in the old trace and in the edited one.
#[derive(Clone, Copy)]
pub struct Seam {
    pub base: usize,
    pub edited: usize,
}

// How far a replay is to go on, and from where on no old stretch with the same heap can serve: a guess may anywhere.
#[derive(Clone, Copy)]
struct Limits {
    to: usize,
    open: usize,
}

// An old stretch that begins where a replay stands, to go on with, and the place behind it, where the replay has the old run's heap.
fn next_stretch(
    alloc: Global,
    revision: &Revision,
    progress: &Progress,
    to: usize,
) -> Result<Option<(NextStretch, Fork)>, AllocError>
    requires may { MayGoOn (new_trace revision.now) progress.now.prefix to }
    requires some { progress.now.prefix.len < to }
    requires fork { IsFork revision.now progress.now.fork }
    ensures piece { IfOk result (λ o. IfSome o (λ p.
        IsPiece progress.now.prefix.end
        (slice_range (new_trace revision.now) progress.now.prefix.len to)
        p.0.segments p.0.end p.0.len)) }
    ensures fork { IfOk result (λ o. IfSome o (λ p. IsFork revision.now p.1)) }
    ensures gap { IfOk result (λ o. IfSome o (λ p. IsGap (reusable revision.now) p.0.len)) }
    ensures stretch { IfOk result (λ o. IfSome o (λ p.
        IsOldStretch (old_trace revision.now) (old_marks revision.now) progress.now.prefix.end
        (slice_range (new_trace revision.now) progress.now.prefix.len to) p.0.len)) }
    ensures next { (chunks : List (ℕ × Chunk)) →
        IfOk result (λ o. IfSome o (λ p. IsNext chunks progress.now.prefix.end p.0)) }
{
    let prefix = &progress.prefix;
    let fork = progress.fork;
    let stretch = old_stretch(alloc, revision, &prefix.end, prefix.len, to, fork)?;
    let Some((piece, base)) = stretch else {
        return Ok(None);
    };
    let edited = prefix.len + piece.len;
    Ok(Some((piece, Fork { edited, base })))
}

// What a replay goes on with: a guess, an old stretch if the replay stands where both runs are known to have one heap, a chunk that the shelf has of
// the operations up to the next cut, another old stretch, or else those operations, which are stepped; and the last place that is known then where
// the replay has the old run's heap.
fn next_piece(
    alloc: Global,
    revision: &Revision,
    progress: &Progress,
    to: usize,
    shelf: &mut MarkShelf,
    meter: &mut Meter,
) -> Result<(NextStretch, Fork), AllocError>
    requires may { MayGoOn (new_trace revision.now) progress.now.prefix to }
    requires some { progress.now.prefix.len < to }
    requires fork { IsFork revision.now progress.now.fork }
    requires placed { IsPlaced shelf.old.chunks progress.now.prefix }
    ensures piece { IfOk result (λ p.
        IsPiece progress.now.prefix.end
        (slice_range (new_trace revision.now) progress.now.prefix.len to)
        p.0.segments p.0.end p.0.len) }
    ensures fork { IfOk result (λ p. IsFork revision.now p.1) }
    ensures gap { IfOk result (λ p. IsGap (reusable revision.now) p.0.len) }
    ensures steps { IfOk result (λ p. meter.new ≤ meter.old + p.0.len) }
    ensures taken { IfOk result (λ p.
        AreTaken (old_trace revision.now) (old_marks revision.now)
        (with_guesses revision.now.guesses.now shelf.old.chunks) progress.now.prefix.end (slice_range (new_trace revision.now) progress.now.prefix.len to)
        p.0.len meter.old meter.new) }
    ensures next { IfOk result (λ p. IsNext shelf.new.chunks progress.now.prefix.end p.0) }
    ensures searched { IsSearched shelf.old shelf.new }
    ensures metered { IsMetered meter.old meter.new progress.now.prefix.len to }
{
    let prefix = &progress.prefix;
    let fork = progress.fork;
    let guess = guessed(alloc, revision, &prefix.end, prefix.len, to)?;
    if let Some(piece) = guess {
        return Ok((piece, fork));
    }
    if fork.edited == prefix.len {
        let same = next_stretch(alloc, revision, progress, to)?;
        if let Some(next) = same {
            return Ok(next);
        }
    }
    let len = (to - prefix.len).min(STRIDE);
    let next = revision.ops.shared(alloc, prefix.len, prefix.len + len)?;
    let is_anchored = prefix.anchoring.is_due(prefix.len);
    let known = found(
        alloc,
        &prefix.end,
        &next,
        prefix.behind.number(),
        is_anchored,
        shelf,
    )?;
    if let Some(piece) = known {
        return Ok((piece, fork));
    }
    let stretch = next_stretch(alloc, revision, progress, to)?;
    if let Some(stretch) = stretch {
        return Ok(stretch);
    }
    let piece = stepped(alloc, &prefix.end, next, is_anchored, false, meter)?;
    Ok((piece, fork))
}

// From where on nothing can serve but a chunk that the shelf has.
fn served(revision: &Revision, limits: Limits) -> usize
    ensures { result ≤ limits.to }
{
    if revision.guesses.is_empty() {
        return limits.open.min(limits.to);
    }
    limits.to
}

// Whether an old stretch or a guess may begin at a cut.
fn may_serve(revision: &Revision, cut: usize, open: usize) -> bool
    requires { cut < length (new_trace revision.now) }
{
    may_guess(revision, cut) || cut < open && may_begin(revision, cut)
}

// The next cut from a position on where an old stretch or a guess may begin. Where none does before nothing can serve, the first cut from
// there on, or where the replay is to end.
fn next_start(revision: &Revision, at: usize, limits: Limits) -> usize
    requires order { at ≤ limits.to }
    requires within { limits.to ≤ length (new_trace revision.now) }
    ensures no_less { at ≤ result }
    ensures within { result ≤ limits.to }
{
    let open = served(revision, limits);
    let mut cut = at;
    while cut < open {
        if may_serve(revision, cut, limits.open) {
            return cut;
        }
        cut += (limits.to - cut).min(STRIDE);
    }
    cut
}

// Goes on with the replay where old stretches and guesses may serve. Where one may begin, the name of the checkpoint is touched, and then a
// stretch is taken; the cuts up to there are known before they are reached.
fn serve(
    alloc: Global,
    revision: &Revision,
    progress: Progress,
    limits: Limits,
    shelf: &mut MarkShelf,
    meter: &mut Meter,
) -> Result<Progress, AllocError>
    requires may { MayGoOn (new_trace revision.now) progress.prefix limits.to }
    requires fork { IsFork revision.now progress.fork }
    requires placed { IsPlaced shelf.old.chunks progress.prefix }
    ensures beside { IfOk result (λ p.
        GoesOnBeside revision.now progress.prefix p.prefix shelf.old shelf.new
        meter.old meter.new) }
    ensures fork { IfOk result (λ p. IsFork revision.now p.fork) }
    ensures placed { IfOk result (λ p. IsPlaced shelf.new.chunks p.prefix) }
    ensures order { IfOk result (λ p. p.prefix.len ≤ limits.to) }
    ensures steps { IfOk result
        (λ p. meter.new + progress.prefix.len ≤ meter.old + p.prefix.len) }
    ensures metered { IsMetered meter.old meter.new progress.prefix.len limits.to }
{
    let mut progress = progress;
    while progress.prefix.len < served(revision, limits) {
        let at = progress.prefix.len;
        let next = next_start(revision, at, limits);
        if at < next {
            let fork = progress.fork;
            let prefix = go_ahead(alloc, revision.ops, progress.prefix, next, shelf, meter)?;
            progress = Progress { prefix, fork };
        } else {
            touch_at(revision.ops, at, shelf, &mut progress.prefix.answered)?;
            let (piece, fork) = next_piece(alloc, revision, &progress, limits.to, shelf, meter)?;
            let prefix = joined(alloc, progress.prefix, piece)?;
            progress = Progress { prefix, fork };
        }
    }
    Ok(progress)
}

// Goes on with the replay to the place that the limits name.
fn advance(
    alloc: Global,
    revision: &Revision,
    progress: Progress,
    limits: Limits,
    shelf: &mut MarkShelf,
    meter: &mut Meter,
) -> Result<Progress, AllocError>
    requires may { MayGoOn (new_trace revision.now) progress.prefix limits.to }
    requires fork { IsFork revision.now progress.fork }
    requires placed { IsPlaced shelf.old.chunks progress.prefix }
    ensures beside { IfOk result (λ p.
        GoesOnBeside revision.now progress.prefix p.prefix shelf.old shelf.new
        meter.old meter.new) }
    ensures fork { IfOk result (λ p. IsFork revision.now p.fork) }
    ensures placed { IfOk result (λ p. IsPlaced shelf.new.chunks p.prefix) }
    ensures there { IfOk result (λ p. p.prefix.len ≡ limits.to) }
    ensures metered { IsMetered meter.old meter.new progress.prefix.len limits.to }
{
    let progress = serve(alloc, revision, progress, limits, shelf, meter)?;
    let fork = progress.fork;
    let prefix = go_ahead(
        alloc,
        revision.ops,
        progress.prefix,
        limits.to,
        shelf,
        meter,
    )?;
    Ok(Progress { prefix, fork })
}

// Goes on with the replay to an old anchor, where one of the new run is due, and over the part of an old stretch from there on, if that is known to
// touch nothing at which the heaps differ. It passes no old checkpoint.
fn pass_anchor(
    alloc: Global,
    revision: &Revision,
    progress: Progress,
    limits: Limits,
    old: &OldMark,
    difference: &mut Difference,
    shelf: &mut MarkShelf,
    meter: &mut Meter,
) -> Result<Progress, AllocError>
    requires may { MayGoOn (new_trace revision.now) progress.prefix limits.to }
    requires fork { IsFork revision.now progress.fork }
    requires placed { IsPlaced shelf.old.chunks progress.prefix }
    requires within { old.now.index < length revision.now.segments.now }
    requires place { length (trace_of (take old.now.index revision.now.segments.now)) ≡ old.now.at }
    requires mark { old.now.mark
        ≡ end_from nothing_held (take old.now.at (old_trace revision.now)) }
    requires shared { trace_of (drop old.now.index revision.now.segments.now)
        ≡ drop limits.to (new_trace revision.now) }
    requires known { AreDiffering revision.now difference.old }
    ensures beside { IfOk result (λ p.
        GoesOnBeside revision.now progress.prefix p.prefix shelf.old shelf.new
        meter.old meter.new) }
    ensures fork { IfOk result (λ p. IsFork revision.now p.fork) }
    ensures placed { IfOk result (λ p. IsPlaced shelf.new.chunks p.prefix) }
    ensures no_less { IfOk result (λ p. limits.to ≤ p.prefix.len) }
    ensures past { IfOk result (λ p. PassesNone (old_marks revision.now) old.now.at
        limits.to p.prefix.len) }
    ensures known { OnOk result (AreDiffering revision.now difference.new) }
    ensures metered { IsMetered meter.old meter.new progress.prefix.len limits.to }
{
    let mut progress = advance(alloc, revision, progress, limits, shelf, meter)?;
    let len = progress.prefix.len;
    progress.prefix.anchoring = progress.prefix.anchoring.anew(len, true);
    let progress = pass_part(alloc, revision, progress, old, difference, shelf)?;
    Ok(progress)
}

// Whether the replay comes to an old position yet, at or behind the seam: it may have passed it.
fn is_ahead(progress: &Progress, seam: Seam, at: usize) -> bool
    requires old { at ≤ MAX_OPS }
    requires edited { seam.edited ≤ MAX_OPS }
    ensures ahead { IsTrue result →
        (seam.base ≤ at) × (progress.now.prefix.len ≤ at - seam.base + seam.edited) }
    ensures behind { result ≡ false → seam.base ≤ at →
        at - seam.base + seam.edited < progress.now.prefix.len }
{
    at >= seam.base && progress.prefix.len <= at - seam.base + seam.edited
}

// The segments of the replayed prefix, and then others.
fn spliced(
    alloc: Global,
    prefix: Prefix,
    rest: Segments,
    end: Heap,
    len: usize,
) -> Result<Prefix, AllocError>
    ensures segments { IfOk result (λ p. p.segments ≡ prefix.segments ++ rest) }
    ensures end { IfOk result (λ p. p.end ≡ end) }
    ensures answered { IfOk result (λ p. p.answered ≡ prefix.answered) }
{
    let segments = prefix.segments.append(alloc, rest)?;
    Ok(Prefix {
        segments,
        end,
        len,
        fresh: prefix.fresh,
        behind: Behind::Nothing,
        answered: prefix.answered,
        anchoring: prefix.anchoring,
    })
}

// Ends the replay at an old checkpoint where the heaps agree: the rest of the old run follows. The name of the checkpoint is touched.
fn stop(
    alloc: Global,
    revision: &Revision,
    progress: Progress,
    rest: Segments,
    end: Heap,
    shelf: &mut MarkShelf,
) -> Result<Prefix, AllocError>
    ensures segments { IfOk result (λ p. p.segments ≡ progress.prefix.segments ++ rest) }
    ensures end { IfOk result (λ p. p.end ≡ end) }
    ensures answered { IfOk result (λ p.
        AreAnswered shelf.old shelf.new (names_at (new_trace revision.now) (progress.prefix.len ∷ []))
        (contains nat_cmp progress.prefix.answered) (contains nat_cmp p.answered)) }
{
    let mut prefix = progress.prefix;
    touch_at(revision.ops, prefix.len, shelf, &mut prefix.answered)?;
    spliced(alloc, prefix, rest, end, revision.ops.len())
}

// Goes on with the replay to an old checkpoint, and compares: what follows of the old run from there on, if the heaps agree. The old stretch before
// the checkpoint is noted.
fn come_to(
    alloc: Global,
    revision: &Revision,
    progress: Progress,
    limits: Limits,
    old: &OldMark,
    replaced: &mut Replaced,
    difference: &Difference,
    divergence: &mut Divergence,
    shelf: &mut MarkShelf,
    meter: &mut Meter,
) -> Result<(Progress, Option<(Segments, Heap)>), AllocError>
    requires may { MayGoOn (new_trace revision.now) progress.prefix limits.to }
    requires fork { IsFork revision.now progress.fork }
    requires placed { IsPlaced shelf.old.chunks progress.prefix }
    requires within { old.now.index < length revision.now.segments.now }
    requires place { length (trace_of (take old.now.index revision.now.segments.now)) ≡ old.now.at }
    requires mark { old.now.mark
        ≡ end_from nothing_held (take old.now.at (old_trace revision.now)) }
    requires run { IsRunFrom old.now.mark (drop old.now.index revision.now.segments.now)
        revision.now.end.now }
    requires shared { trace_of (drop old.now.index revision.now.segments.now)
        ≡ drop limits.to (new_trace revision.now) }
    requires distinct { IsTrue (has_distinct_numbers
        (trace_of (drop old.now.index revision.now.segments.now))) }
    requires unused { AreUnused old.now.mark
        (trace_of (drop old.now.index revision.now.segments.now)) }
    requires replaced { AreReplaced revision.now replaced.old }
    requires differing { AreDiffering revision.now difference.now }
    requires divergence { IsDivergence revision.now divergence.old }
    ensures beside { IfOk result (λ p.
        GoesOnBeside revision.now progress.prefix p.0.prefix shelf.old shelf.new
        meter.old meter.new) }
    ensures fork { IfOk result (λ p. IsFork revision.now p.0.fork) }
    ensures placed { IfOk result (λ p. IsPlaced shelf.new.chunks p.0.prefix) }
    ensures there { IfOk result (λ p. p.0.prefix.len ≡ limits.to) }
    ensures metered { IsMetered meter.old meter.new progress.prefix.len limits.to }
    ensures replaced { OnOk result (AreReplaced revision.now replaced.new) }
    ensures divergence { OnOk result (IsDivergence revision.now divergence.new) }
    ensures answer { IfOk result
        (λ p. IsTrue (is_some p.1) ↔ Agree p.0.prefix.end old.now.mark) }
    ensures run { IfOk result (λ p. IfSome p.1 (λ r. IsRunFrom p.0.prefix.end r.0 r.1)) }
    ensures trace { IfOk result (λ p. IfSome p.1 (λ r.
        trace_of r.0 ≡ trace_of (drop old.now.index revision.now.segments.now))) }
    ensures marks { IfOk result (λ p. IfSome p.1 (λ r. (at : ℕ) →
        marks_from at r.0 ≡ marks_from at (drop old.now.index revision.now.segments.now))) }
{
    let from = progress.prefix.len;
    let progress = advance(alloc, revision, progress, limits, shelf, meter)?;
    replaced.note(alloc, revision, old, &progress, from);
    let found = rejoined_at(alloc, revision, &progress, old, difference, divergence)?;
    Ok((progress, found))
}

// Goes on with a replay that stands at or before the seam to its end, or to the first old checkpoint at or behind the seam where the heaps agree. What is
// known of where they differ is handed in.
fn go_beside(
    alloc: Global,
    revision: &Revision,
    progress: Progress,
    seam: Seam,
    replaced: &mut Replaced,
    difference: &mut Difference,
    divergence: &mut Divergence,
    shelf: &mut MarkShelf,
    meter: &mut Meter,
) -> Result<Prefix, AllocError>
    requires may { MayGoOn (new_trace revision.now) progress.prefix seam.edited }
    requires fork { IsFork revision.now progress.fork }
    requires known { AreDiffering revision.now difference.old }
    requires divergence { IsDivergence revision.now divergence.old }
    requires replaced { AreReplaced revision.now replaced.old }
    requires shared { ShareEnd (old_trace revision.now)
        (new_trace revision.now) seam.base seam.edited }
    requires placed { IsPlaced shelf.old.chunks progress.prefix }
    ensures run { IfOk result (λ r. IsRun r.segments r.end) }
    ensures trace { IfOk result (λ r. trace_of r.segments ≡ (new_trace revision.now)) }
    ensures marks { IfOk result (λ r.
        AreMarksLeft (record {
          trace = old_trace revision.now;
          ops = new_trace revision.now;
          kept = marks_from 0 progress.prefix.segments;
          old = reusable revision.now;
          new = all_marks r.segments;
          from = progress.prefix.len;
          base = seam.base;
          edited = seam.edited;
        }) shelf.old shelf.new (contains nat_cmp progress.prefix.answered) (contains nat_cmp r.answered)) }
    ensures bound { StepsAtMost (old_trace revision.now) (new_trace revision.now) seam.base seam.edited
        (old_marks revision.now) progress.prefix.len meter.old meter.new }
    ensures stepped { IfOk result (λ _.
        AreStepped (record {
          old = old_trace revision.now;
          ops = new_trace revision.now;
          base = seam.base;
          edited = seam.edited;
          marks = old_marks revision.now;
          chunks = with_guesses revision.now.guesses.now shelf.old.chunks;
        }) progress.prefix.len meter.old meter.new) }
    ensures never_less { meter.old ≤ meter.new }
{
    let old = revision.segments;
    let mut progress = progress;
    let (first, mut at) = old.last_from(seam.base);
    for i in first..old.len() {
        let segment = old.at(i);
        if is_ahead(&progress, seam, at) {
            let limits = Limits {
                to: at - seam.base + seam.edited,
                open: seam.edited,
            };
            if let Some(mark) = segment.mark() {
                let old_mark = OldMark {
                    index: i,
                    at,
                    mark: mark.heap(alloc)?,
                };
                let (come, found) = come_to(
                    alloc, revision, progress, limits, &old_mark, replaced, difference, divergence,
                    shelf, meter,
                )?;
                if let Some((rest, end)) = found {
                    return Ok(stop(alloc, revision, come, rest, end, shelf)?);
                }
                progress = pass(
                    alloc, revision, come, &old_mark, difference, divergence, shelf,
                )?;
            } else if difference.is_followed() {
                if let Some(anchor) = segment.anchor() {
                    let old_mark = OldMark {
                        index: i,
                        at,
                        mark: anchor.heap(alloc)?,
                    };
                    progress = pass_anchor(
                        alloc, revision, progress, limits, &old_mark, difference, shelf, meter,
                    )?;
                }
            }
        }
        at += segment.ops().len();
    }
    let limits = Limits {
        to: revision.ops.len(),
        open: seam.edited,
    };
    let from = progress.prefix.len;
    let progress = advance(alloc, revision, progress, limits, shelf, meter)?;
    replaced.note_end(alloc, revision, &progress, from);
    Ok(progress.prefix)
}

/// Goes on with the replay to its end, or to the first old checkpoint at or behind the seam where the heaps agree.
///
/// From the seam on the heap is another at each old checkpoint that is passed, and at an old anchor nobody asks: an old stretch, or a part of one, serves
/// only if it touches nothing at which the heaps are known to differ. Where the replay steps to an old checkpoint, the old stretch before that is noted.
pub fn converge(
    alloc: Global,
    revision: &Revision,
    prefix: Prefix,
    seam: Seam,
    replaced: &mut Replaced,
    shelf: &mut MarkShelf,
    meter: &mut Meter,
) -> Result<Prefix, AllocError>
    requires may { MayGoOn (new_trace revision.now) prefix seam.edited }
    requires replaced { AreReplaced revision.now replaced.old }
    requires shared { ShareEnd (old_trace revision.now)
        (new_trace revision.now) seam.base seam.edited }
    requires begins { take prefix.len (new_trace revision.now)
        ≡ take prefix.len (old_trace revision.now) }
    requires placed { IsPlaced shelf.old.chunks prefix }
    ensures run { IfOk result (λ r. IsRun r.segments r.end) }
    ensures trace { IfOk result (λ r. trace_of r.segments ≡ (new_trace revision.now)) }
    ensures marks { IfOk result (λ r.
        AreMarksLeft (record {
          trace = old_trace revision.now;
          ops = new_trace revision.now;
          kept = marks_from 0 prefix.segments;
          old = reusable revision.now;
          new = all_marks r.segments;
          from = prefix.len;
          base = seam.base;
          edited = seam.edited;
        }) shelf.old shelf.new (contains nat_cmp prefix.answered) (contains nat_cmp r.answered)) }
    ensures bound { StepsAtMost (old_trace revision.now) (new_trace revision.now) seam.base seam.edited
        (old_marks revision.now) prefix.len meter.old meter.new }
    ensures stepped { IfOk result (λ _.
        AreStepped (record {
          old = old_trace revision.now;
          ops = new_trace revision.now;
          base = seam.base;
          edited = seam.edited;
          marks = old_marks revision.now;
          chunks = with_guesses revision.now.guesses.now shelf.old.chunks;
        }) prefix.len meter.old meter.new) }
    ensures never_less { meter.old ≤ meter.new }
{
    let fork = Fork {
        edited: prefix.len,
        base: prefix.len,
    };
    let mut divergence = Divergence::none(alloc, fork);
    let mut difference = Difference::none(alloc, fork);
    go_beside(
        alloc,
        revision,
        Progress { prefix, fork },
        seam,
        replaced,
        &mut difference,
        &mut divergence,
        shelf,
        meter,
    )
}
