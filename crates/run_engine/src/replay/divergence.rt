//! Where a replay and the old run beside it may differ.
ghost use Rattle.std.specs.Prelude.{◌≡◌, ◌≤◌, false, IfOk, IfSome, OnOk, IsTrue, length, take};
ghost use Rattle.ownership_model.specs.State.{State, nothing_held};
ghost use Rattle.ownership_model.specs.Agrees.{HaveSameRoots};
ghost use Rattle.agreement.specs.Agreement.{Agree};
ghost use Rattle.agreement.specs.Meeting.{Meets};
ghost use Rattle.heap_difference.specs.Differences.{IsDifference};
ghost use Rattle.run_engine.specs.inner.OldRun.{new_trace};
ghost use Rattle.run_engine.specs.Segments.{trace_of, AreReplayFrom, IsReached};
ghost use Rattle.run_engine.specs.inner.Divergence.{IsFork, DifferWithin, IsDivergence, HasFollowed, HasCompared};
ghost use Rattle.run_engine.specs.inner.Difference.{AreDiffering};
ghost use Rattle.run_engine.specs.declared.replay.revision.Revision.{Revision};

use crate::replay::difference::Difference;
use crate::replay::progress::{Fork, Progress};
use crate::replay::revision::Revision;
use crate::segments::blocks::Segments;
use agreement::{Meeting, Suspects, Trail, are_apart, are_told_apart, meet_rooted, refutes};
use heap_difference::KeySet;
use object_heap::Heap;
use std::alloc::{AllocError, Global};

/// How many operations stand before a heap at least that is compared with another at all objects of both.
const MANY: usize = 4_096;

/// Where the heap of a replay and that of the old run beside it may differ: each stands behind so many operations of its trace.
#[derive(Drop)]
pub struct Divergence {
    // the objects at which they may differ, where that is known
    suspects: Option<Suspects>,
    // how many operations of the edited trace, and of the old one
    edited: usize,
    base: usize,
    // to where heaps that were compared were found to differ
    trail: Option<Trail>,
}

impl Divergence {
    /// Both stand where they have one heap: nothing differs.
    pub fn none(alloc: Global, fork: Fork) -> Self
        ensures within { (m : State) → DifferWithin result m m }
        ensures edited { result.edited ≡ fork.edited }
        ensures base { result.base ≡ fork.base }
    {
        Divergence {
            suspects: Some(Suspects::none(alloc)),
            edited: fork.edited,
            base: fork.base,
            trail: None,
        }
    }

    // Goes on to where both are known to have one heap, if that is further on: what was passed up to there needs no look.
    fn begin_anew(&mut self, alloc: Global, fork: Fork)
        ensures known { (r : Revision) → IsDivergence r self.old → IsFork r fork →
            IsDivergence r self.new }
        ensures no_earlier { fork.edited ≤ self.new.edited }
    {
        if fork.edited <= self.edited {
            return;
        }
        self.suspects = Some(Suspects::none(alloc));
        self.edited = fork.edited;
        self.base = fork.base;
    }

    /// Gives the suspects up where it is a long way from where both had one heap last, or where they are known, to the end of the replayed prefix: to
    /// look at all objects of both heaps takes less than to go over so many outcomes.
    pub fn let_go(&mut self, alloc: Global, progress: &Progress)
        ensures { (r : Revision) → IsDivergence r self.old → IsFork r progress.now.fork →
            IsDivergence r self.new }
    {
        self.begin_anew(alloc, progress.fork);
        if is_far(self.edited, progress.prefix.len) {
            self.suspects = None;
        }
    }

    /// Goes on to the end of the replayed prefix, and in the old run to where the segment at an index begins: the objects that
    /// outcomes on the way tell of join the suspects. The way begins where both had one heap last, or where it ended before, if that
    /// is further on.
    pub fn catch_up(
        &mut self,
        alloc: Global,
        revision: &Revision,
        progress: &Progress,
        index: usize,
        at: usize,
    ) -> Result<(), AllocError>
        requires known { IsDivergence revision.now self.old }
        requires fork { IsFork revision.now progress.now.fork }
        requires prefix { IsReached (new_trace revision.now)
            progress.now.prefix.len progress.now.prefix.segments progress.now.prefix.end }
        requires within { index ≤ length revision.now.segments.now }
        requires place { length (trace_of (take index revision.now.segments.now)) ≡ at }
        ensures known { OnOk result (IsDivergence revision.now self.new) }
        ensures edited { OnOk result (self.new.edited ≡ progress.now.prefix.len) }
        ensures base { OnOk result (self.new.base ≡ at) }
    {
        self.begin_anew(alloc, progress.fork);
        let prefix = &progress.prefix;
        if let Some(suspects) = &mut self.suspects {
            let new = &prefix.segments;
            let old = revision.segments;
            let is_known = follow(suspects, new, self.edited, new.len())?
                && follow(suspects, old, self.base, index)?;
            if !is_known {
                self.suspects = None;
            }
        }
        self.edited = prefix.len;
        self.base = at;
        Ok(())
    }

    /// Goes on to where it is known at which keys the heaps differ, if that is further on: of these the objects are the suspects there.
    pub fn know(&mut self, alloc: Global, difference: &Difference) -> Result<(), AllocError>
        ensures known { (r : Revision) → IsDivergence r self.old →
            AreDiffering r difference.now → IsDivergence r self.new }
        ensures there { OnOk result (IfSome difference.now.keys (λ _.
            difference.now.edited ≤ self.new.edited)) }
    {
        let Some(keys) = difference.keys() else {
            return Ok(());
        };
        if difference.edited <= self.edited {
            return Ok(());
        }
        self.suspects = Some(Suspects::of(alloc, keys.objects.as_slice())?);
        self.edited = difference.edited;
        self.base = difference.base;
        Ok(())
    }

    /// Whether the heaps are told apart where no suspect is asked: by the trail, or else by their handles, cells and scopes.
    pub fn tells_apart(&mut self, alloc: Global, new: &Heap, old: &Heap) -> Result<bool, AllocError>
        ensures apart { IfOk result (λ told. IsTrue told → ¬ (Agree new.now old.now)) }
        ensures roots { IfOk result (λ told. told ≡ false → HaveSameRoots new.now old.now) }
        ensures known { (r : Revision) → IsDivergence r self.old → IsDivergence r self.new }
    {
        are_told_apart(alloc, new, old, &mut self.trail)
    }

    /// Whether heaps are told apart that differ at some keys alone: by the trail, by a handle among the keys, by their handles, cells and scopes, or
    /// else by what the objects among the keys lead to. If not, they may agree.
    pub fn is_apart(
        &mut self,
        alloc: Global,
        new: &Heap,
        old: &Heap,
        keys: &KeySet,
    ) -> Result<bool, AllocError>
        requires { IsDifference keys.now old.now new.now }
        ensures apart { IfOk result (λ told. IsTrue told → ¬ (Agree new.now old.now)) }
        ensures known { (r : Revision) → IsDivergence r self.old → IsDivergence r self.new }
    {
        if self.leads_apart(new, old) {
            return Ok(true);
        }
        let there = differing_handle(new, old, keys.handles.as_slice());
        if there.is_some() {
            self.trail = there;
        }
        let told = are_told_apart(alloc, new, old, &mut self.trail)?;
        if told {
            return Ok(true);
        }
        let mut suspects = Suspects::of(alloc, keys.objects.as_slice())?;
        are_apart(alloc, new, old, &mut suspects, &mut self.trail)
    }

    // Whether the trail leads to where the heaps differ.
    fn leads_apart(&self, new: &Heap, old: &Heap) -> bool
        ensures { IsTrue result → ¬ (Agree new.now old.now) }
    {
        match &self.trail {
            None => false,
            Some(trail) => refutes(trail, new, old),
        }
    }

    /// Compares a heap with an old one that has the same roots, by the suspects where those are known. Else all objects of both are, and those that
    /// differ from then on.
    pub fn meet(&mut self, alloc: Global, new: &Heap, old: &Heap) -> Result<Meeting, AllocError>
        requires roots { HaveSameRoots new.now old.now }
        requires known { DifferWithin self.old new.now old.now }
        ensures meets { IfOk result (Meets new.now old.now) }
        ensures known { OnOk result (HasCompared self.old self.new new.now old.now) }
    {
        match &mut self.suspects {
            None => {
                let mut suspects = Suspects::of_both(alloc, new, old)?;
                let meeting = meet_rooted(alloc, new, old, &mut suspects, &mut self.trail)?;
                self.suspects = Some(suspects);
                Ok(meeting)
            }
            Some(suspects) => meet_rooted(alloc, new, old, suspects, &mut self.trail),
        }
    }
}

// A trail to one of these handles at which the heaps differ, if they do at any. No other handle is looked at.
fn differing_handle(new: &Heap, old: &Heap, handles: &[u32]) -> Option<Trail> {
    for handle in handles {
        let there = Trail::Handle(*handle);
        if refutes(&there, new, old) {
            return Some(there);
        }
        let under = Trail::Earlier(*handle);
        if refutes(&under, new, old) {
            return Some(under);
        }
    }
    None
}

// Whether there are more operations between two positions than before the first, and many before the second: a heap there has an object for each of
// these at most.
fn is_far(from: usize, to: usize) -> bool {
    to >= MANY && from < to / 2
}

// The objects that the outcomes of segments tell of join the suspects, from the segment at a position on and before the one at an index.
// Whether a segment begins there: else nothing is known.
fn follow(
    suspects: &mut Suspects,
    segments: &Segments,
    from: usize,
    index: usize,
) -> Result<bool, AllocError>
    requires replay { AreReplayFrom nothing_held segments.now }
    requires within { index ≤ length segments.now }
    ensures { IfOk result (λ is_known.
        IsTrue is_known → HasFollowed segments.now from index suspects.old suspects.new) }
{
    let (first, at) = segments.last_from(from);
    if at != from || index < first {
        return Ok(false);
    }
    for i in first..index {
        suspects.add(segments.at(i).outcomes())?;
    }
    Ok(true)
}
