//! The keys at which a replay and the old run beside it differ, where they are known.
ghost use Rattle.std.specs.Prelude.{◌≡◌, ◌+◌, ◌<◌, ◌≤◌, ◌^◌, ◌||◌, IfOk, IfSome, OnOk, IsTrue, length, nat_lt, take};
ghost use Rattle.std.specs.Option.{option_copied};
ghost use Rattle.ownership_model.specs.State.{nothing_held};
ghost use Rattle.ownership_model.specs.Step.{end_from};
ghost use Rattle.heap_difference.specs.Differences.{IsDifference};
ghost use Rattle.heap_difference.specs.KeySets.{set_of};
ghost use Rattle.run_engine.specs.inner.OldRun.{old_trace, new_trace};
ghost use Rattle.run_engine.specs.Segments.{trace_of, AreReplayFrom, IsReached};
ghost use Rattle.run_engine.specs.inner.Divergence.{IsFork};
ghost use Rattle.run_engine.specs.inner.Difference.{AreDiffering, DifferAt, HasGathered};
ghost use Rattle.run_engine.specs.declared.replay.revision.Revision.{Revision};

use crate::replay::progress::{Fork, Progress};
use crate::replay::rejoin::OldMark;
use crate::replay::revision::Revision;
use crate::segments::blocks::Segments;
use heap_difference::{Alikes, KeySet, Numbers, add_all, found};
use object_heap::Heap;
use ownership_model::Key;
use std::alloc::{AllocError, Global};
use trace_types::kinds::Kind;
use trace_types::ops::Op;
use trace_types::outcomes::Outcome;

/// How many keys of a kind are followed at most. To lay more of them over a heap takes as long as to step a stretch.
const MOST_KEYS: usize = 16;

/// How many objects are followed at most: of those that are alike only fields are laid.
const MOST_OBJECTS: usize = 60;

/// How many keys of a kind may differ where a look is in vain, and not the last one.
const MOST_FOUND: usize = 1_024;

/// How many keys of a kind that either run touches are looked up at most.
const MOST_TOUCHED: usize = 65_536;

/// How many times at most a handle that is looked up passes another one under it in its scope: it does so where numbers fall.
const MOST_PASSED: usize = 131_072;

/// How many keys are gathered of both runs at most. One that segments tell again counts again.
const MOST_TOLD: usize = 2_097_152;

/// How many segments are gone over at most to find what differs behind them: as many as may lie between two anchors of a long run, and more.
const MOST_SEGMENTS: usize = 1024;

/// How many keys of a stretch, and how many of its outcomes, are tried before all are looked up.
const FIRST_KEYS: usize = 32;

/// How many looks in a row may be in vain. One where more keys differ than are followed counts as four.
const MOST_LOOKS: usize = 12;

/// How many operations of a stretch are tried before all are looked up.
const FIRST_OPS: usize = 16;

/// The keys at which the heap of a replay and that of the old run beside it differ, if they are known: each stands behind so many
/// operations of its trace.
///
/// While looks are in vain, because each stretch touches what differs, checkpoints and anchors are passed before the next look, and at last there
/// is none any more until both have one heap again.
#[derive(Drop)]
pub struct Difference {
    keys: Option<KeySet>,
    // how many operations of the edited trace, and of the old one
    pub edited: usize,
    pub base: usize,
    // how many looks were in vain since the last stretch that was taken over, and how many checkpoints and anchors are passed before the next look
    vain: usize,
    wait: usize,
}

impl Difference {
    /// Both stand where they have one heap: nothing differs.
    pub fn none(alloc: Global, fork: Fork) -> Self
        ensures { (r : Revision) → IsFork r fork → AreDiffering r result }
    {
        Difference {
            keys: Some(KeySet::none(alloc)),
            edited: fork.edited,
            base: fork.base,
            vain: 0,
            wait: 0,
        }
    }

    /// The keys, if they are known.
    pub fn keys(&self) -> Option<&KeySet>
        ensures { option_copied result ≡ self.now.keys }
    {
        match &self.keys {
            None => None,
            Some(keys) => Some(keys),
        }
    }

    /// Whether the keys are known.
    pub fn is_followed(&self) -> bool {
        self.keys.is_some()
    }

    /// Looks for the keys at which the heaps differ where a replay and an old checkpoint or anchor stand, and tells whether they may be followed: while stretches
    /// touch what differs, it does so more and more seldom. Where the next stretch soon touches what differs, that look is in vain, too.
    ///
    /// They are looked for among those that differed where it looked last, and all that the segments since then touch. From where on a
    /// segment doesn't tell what it touches, or too much is touched or differs, they aren't known, and there is no look until both have one heap again.
    /// Where somewhat more differ than are followed the look is in vain: further on they may be fewer.
    pub fn look(
        &mut self,
        alloc: Global,
        revision: &Revision,
        progress: &Progress,
        old: &OldMark,
    ) -> Result<bool, AllocError>
        requires known { AreDiffering revision.now self.old }
        requires fork { IsFork revision.now progress.now.fork }
        requires prefix { IsReached (new_trace revision.now)
            progress.now.prefix.len progress.now.prefix.segments progress.now.prefix.end }
        requires within { old.now.index < length revision.now.segments.now }
        requires place { length (trace_of (take old.now.index revision.now.segments.now))
            ≡ old.now.at }
        requires mark { old.now.mark
            ≡ end_from nothing_held (take old.now.at (old_trace revision.now)) }
        ensures known { OnOk result (AreDiffering revision.now self.new) }
        ensures keys { IfOk result (λ did_look. IsTrue did_look → IfSome self.new.keys (λ k.
            IsDifference k old.now.mark progress.now.prefix.end)) }
        ensures edited { IfOk result (λ did_look. IsTrue did_look →
            self.new.edited ≡ progress.now.prefix.len) }
        ensures base { IfOk result (λ did_look. IsTrue did_look → self.new.base ≡ old.now.at) }
    {
        if self.wait > 0 {
            self.wait -= 1;
            return Ok(false);
        }
        if self.edited == progress.prefix.len && self.base == old.at {
            return Ok(!are_too_many(&self.keys));
        }
        self.begin_anew(alloc, progress.fork);
        if self.keys.is_none() {
            return Ok(false);
        }
        if soon_differ(revision, &progress.prefix.end, old.index) {
            self.miss();
            return Ok(false);
        }
        self.keys = self.keys_at(alloc, revision, progress, old)?;
        self.edited = progress.prefix.len;
        self.base = old.at;
        if are_too_many(&self.keys) {
            self.miss_by_far();
            return Ok(false);
        }
        Ok(true)
    }

    // Goes on to where both are known to have one heap, if that is further on: what was passed up to there needs no look.
    fn begin_anew(&mut self, alloc: Global, fork: Fork)
        ensures { (r : Revision) → AreDiffering r self.old → IsFork r fork →
            AreDiffering r self.new }
    {
        if fork.edited <= self.edited {
            return;
        }
        self.keys = Some(KeySet::none(alloc));
        self.edited = fork.edited;
        self.base = fork.base;
    }

    // The keys at which the heaps differ where a replay and an old checkpoint or anchor stand, among those that differed before and all that the
    // segments since then touch.
    fn keys_at(
        &self,
        alloc: Global,
        revision: &Revision,
        progress: &Progress,
        old: &OldMark,
    ) -> Result<Option<KeySet>, AllocError>
        requires known { AreDiffering revision.now self.now }
        requires prefix { IsReached (new_trace revision.now)
            progress.now.prefix.len progress.now.prefix.segments progress.now.prefix.end }
        requires within { old.now.index ≤ length revision.now.segments.now }
        requires place { length (trace_of (take old.now.index revision.now.segments.now))
            ≡ old.now.at }
        requires mark { old.now.mark
            ≡ end_from nothing_held (take old.now.at (old_trace revision.now)) }
        ensures { IfOk result (λ o. IfSome o (λ k.
            IsDifference k old.now.mark progress.now.prefix.end)) }
    {
        let Some(before) = &self.keys else {
            return Ok(None);
        };
        let new = &progress.prefix.segments;
        let mut told = Vec::new(alloc);
        let are_told = gather(new, self.edited, new.len(), &mut told)?;
        if !are_told {
            return Ok(None);
        }
        let are_both = gather(revision.segments, self.base, old.index, &mut told)?;
        if !are_both {
            return Ok(None);
        }
        let all = KeySet::of(alloc, &told)?.joined(alloc, before)?;
        if are_more(&all, MOST_TOUCHED) || are_slow(&progress.prefix.end, &all.handles) {
            return Ok(None);
        }
        let keys = found(alloc, &old.mark, &progress.prefix.end, &all)?;
        if are_more(&keys, MOST_FOUND) {
            return Ok(None);
        }
        Ok(Some(keys))
    }

    /// Both went on by as many operations, behind which the same keys differ.
    pub fn pass(&mut self, len: usize)
        requires edited { self.old.edited + len < 2 ^ 64 }
        requires base { self.old.base + len < 2 ^ 64 }
        ensures { (r : Revision) →
            IfSome self.old.keys (λ k. DifferAt r k (self.old.edited + len) (self.old.base + len)) →
            AreDiffering r self.new }
    {
        self.edited += len;
        self.base += len;
        self.vain = 0;
    }

    /// A look was in vain. From the fourth in a row on one checkpoint or anchor is passed before the next look. After too many in a row the keys are
    /// followed no further.
    pub fn miss(&mut self)
        ensures { (r : Revision) → AreDiffering r self.old → AreDiffering r self.new }
    {
        self.vain = self.vain.saturating_add(1);
        self.wait = self.vain / 4;
        if self.vain >= MOST_LOOKS {
            self.keys = None;
        }
    }

    // A look was in vain where too many keys differ: it counts as four.
    fn miss_by_far(&mut self)
        ensures { (r : Revision) → AreDiffering r self.old → AreDiffering r self.new }
    {
        self.vain = self.vain.saturating_add(3);
        self.miss();
    }
}

// Whether one of the first keys that were told of the stretch at an index, or that it names, is soon seen to differ between the heap that is
// kept for its checkpoint and another one. Then the stretch can hardly be taken over. If not, that says nothing.
fn soon_differ(revision: &Revision, heap: &Heap, index: usize) -> bool
    requires { index < length revision.now.segments.now }
{
    let segment = revision.segments.at(index);
    let Some(kept) = segment.base() else {
        return false;
    };
    let Some(touched) = segment.keys() else {
        return false;
    };
    let few = touched.len().min(FIRST_KEYS);
    for key in &touched[..few] {
        if is_told_apart(kept, heap, *key) {
            return true;
        }
    }
    names_soon_differ(kept, heap, segment.ops(), segment.outcomes())
}

// Whether an object whose counts one of the first outcomes tells has others, or a cell that one of the first operations names holds another
// pointer.
fn names_soon_differ(kept: &Heap, heap: &Heap, ops: &[Op], outcomes: &[Outcome]) -> bool {
    counts_soon_differ(kept, heap, outcomes) || cells_soon_differ(kept, heap, ops)
}

fn counts_soon_differ(kept: &Heap, heap: &Heap, outcomes: &[Outcome]) -> bool {
    let some = outcomes.len().min(FIRST_KEYS);
    let mut last = None;
    for outcome in &outcomes[..some] {
        if let Some(counts) = outcome.counts {
            let object = counts.object;
            if last != Some(object) && is_told_apart(kept, heap, Key::Object(object)) {
                return true;
            }
            last = Some(object);
        }
    }
    false
}

fn cells_soon_differ(kept: &Heap, heap: &Heap, ops: &[Op]) -> bool {
    let few = ops.len().min(FIRST_OPS);
    for op in &ops[..few] {
        if let Some(cell) = named_cell(op.kind()) {
            if is_told_apart(kept, heap, Key::Cell(cell)) {
                return true;
            }
        }
    }
    false
}

// The cell that an operation reads.
fn named_cell(kind: &Kind) -> Option<u32> {
    match kind {
        Kind::CellLoad { c, .. }
        | Kind::CellSwap { c, .. }
        | Kind::CellCas { c, .. }
        | Kind::CellDrop { c } => Some(*c),
        _ => None,
    }
}

// Whether two heaps are told apart at a key with little work: by whether it is there, by the counts of an object that isn't alive in both with as many
// fields, by what a cell holds.
fn is_told_apart(kept: &Heap, heap: &Heap, key: Key) -> bool {
    match key {
        Key::Handle(handle) => kept.holding(handle).is_some() != heap.holding(handle).is_some(),
        Key::Cell(cell) => kept.cell(cell) != heap.cell(cell),
        Key::Object(object) => {
            kept.counts(object) != heap.counts(object) && !Alikes::are_alike(kept, heap, object)
        }
        Key::Scope(_) => false,
    }
}

// All that segments touch joins the keys, from the one at a position on and before the one at an index: in any order, and some more than once.
// False if one of them doesn't tell, if much is exchanged in its heaps, if they are too many, or if none begins there.
fn gather(
    segments: &Segments,
    from: usize,
    index: usize,
    keys: &mut Vec<Key>,
) -> Result<bool, AllocError>
    requires replay { AreReplayFrom nothing_held segments.now }
    requires within { index ≤ length segments.now }
    ensures { IfOk result (λ are_known. IsTrue are_known →
        HasGathered segments.now from index (set_of keys.old.items) (set_of keys.new.items)) }
{
    let (first, at) = segments.last_from(from);
    if at != from || index < first || index - first > MOST_SEGMENTS {
        return Ok(false);
    }
    for i in first..index {
        let segment = segments.at(i);
        if !segment.is_little_exchanged() {
            return Ok(false);
        }
        let Some(touched) = segment.keys() else {
            return Ok(false);
        };
        add_all(touched, segment.ops(), segment.outcomes(), keys)?;
        if keys.len() > MOST_TOLD {
            return Ok(false);
        }
    }
    Ok(true)
}

// Whether handles pass too many others on the way to the first one under each that doesn't differ. They are looked up by rising numbers, so those
// are passed that have greater ones.
fn are_slow(heap: &Heap, handles: &Numbers) -> bool {
    let mut left = MOST_PASSED;
    for handle in handles.as_slice() {
        left = left.saturating_sub(passed_under(heap, handles, *handle, left));
        if left == 0 {
            return true;
        }
    }
    false
}

// How many of the handles stand right under one in its scope that have greater numbers, up to so many.
fn passed_under(heap: &Heap, handles: &Numbers, handle: u32, most: usize) -> usize {
    let mut at = handle;
    let mut passed = 0usize;
    for _ in 0..most {
        let Some(under) = heap.earlier(at) else {
            return passed;
        };
        if under < handle || !handles.has(under) {
            return passed;
        }
        passed = passed.saturating_add(1);
        at = under;
    }
    passed
}

// Whether there are more keys of a kind than so many.
fn are_more(keys: &KeySet, most: usize) -> bool
    ensures { result ≡ (nat_lt most (length keys.now.handles)
        || (nat_lt most (length keys.now.cells)
        || (nat_lt most (length keys.now.objects)
        || nat_lt most (length keys.now.labels)))) }
{
    keys.handles.len() > most
        || keys.cells.len() > most
        || keys.objects.len() > most
        || keys.labels.len() > most
}

// Whether more keys differ than are followed.
fn are_too_many(keys: &Option<KeySet>) -> bool {
    match keys {
        None => false,
        Some(keys) => {
            keys.handles.len() > MOST_KEYS
                || keys.cells.len() > MOST_KEYS
                || keys.objects.len() > MOST_OBJECTS
                || keys.labels.len() > MOST_KEYS
        }
    }
}
