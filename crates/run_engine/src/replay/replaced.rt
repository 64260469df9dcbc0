//! The old stretches that a replay goes over anew, which a shelf then remembers.
ghost use Rattle.std.specs.Prelude.{◌≡◌, ◌≤◌, length, take, true, IfOk, IfSome};
ghost use Rattle.ownership_model.specs.State.{nothing_held};
ghost use Rattle.ownership_model.specs.Step.{end_from};
ghost use Rattle.run_engine.specs.Segments.{trace_of};
ghost use Rattle.run_engine.specs.inner.OldRun.{old_trace};
ghost use Rattle.run_engine.specs.inner.Replaced.{AreReplaced};
ghost use Rattle.run_engine.specs.declared.replay.revision.Revision.{Revision};

use crate::replay::fresh::Fresh;
use crate::replay::progress::Progress;
use crate::replay::rejoin::OldMark;
use crate::replay::revision::Revision;
use crate::segments::mark::Mark;
use object_heap::Heap;
use op_step::ChunkRun;
use std::alloc::{AllocError, Global};

/// The old stretches whose operations a replay went over anew, as chunks, in order: an edit that takes the change back finds them.
#[derive(Drop)]
pub struct Replaced {
    chunks: Fresh,
    // where the last of them ends in the old run, and the heap there
    at: usize,
    heap: Option<Heap>,
}

impl Replaced {
    /// No stretch.
    pub fn none(alloc: Global) -> Self
        ensures { (r : Revision) → AreReplaced r result }
    {
        Replaced {
            chunks: Fresh::none(alloc),
            at: 0,
            heap: None,
        }
    }

    /// The chunks.
    pub fn into_chunks(self) -> Fresh {
        self.chunks
    }

    /// Notes the old segment before an old checkpoint to which a replay came from a position, if it begins with one as well and was gone over anew. Where
    /// memory is refused it is lost.
    pub fn note(
        &mut self,
        alloc: Global,
        revision: &Revision,
        old: &OldMark,
        progress: &Progress,
        from: usize,
    )
        requires within { old.now.index ≤ length revision.now.segments.now }
        requires place { length (trace_of (take old.now.index revision.now.segments.now))
            ≡ old.now.at }
        requires mark { old.now.mark
            ≡ end_from nothing_held (take old.now.at (old_trace revision.now)) }
        requires known { AreReplaced revision.now self.old }
        ensures { AreReplaced revision.now self.new }
    {
        if !is_gone_over(progress, from, old.at) {
            return;
        }
        let Ok(Some((chunk, follows))) = self.before(alloc, revision, old) else {
            return;
        };
        let Ok(heap) = old.mark.share() else {
            return;
        };
        let Ok(_) = self.chunks.push(chunk, follows) else {
            *self = Replaced::none(alloc);
            return;
        };
        self.at = old.at;
        self.heap = Some(heap);
    }

    /// Notes the last old segment, if it begins with a checkpoint and was gone over anew by a replay that came to its end from a position. Where memory
    /// is refused it is lost.
    pub fn note_end(&mut self, alloc: Global, revision: &Revision, progress: &Progress, from: usize)
        requires { AreReplaced revision.now self.old }
        ensures { AreReplaced revision.now self.new }
    {
        let Ok(mark) = revision.end.share() else {
            return;
        };
        let end = OldMark {
            index: revision.segments.len(),
            at: revision.segments.ops_len(),
            mark,
        };
        self.note(alloc, revision, &end, progress, from);
    }

    // The old segment before an old checkpoint as a chunk, if it begins with one as well, and whether it begins where the last one ends.
    fn before(
        &self,
        alloc: Global,
        revision: &Revision,
        old: &OldMark,
    ) -> Result<Option<(ChunkRun, bool)>, AllocError>
        requires within { old.now.index ≤ length revision.now.segments.now }
        requires place { length (trace_of (take old.now.index revision.now.segments.now))
            ≡ old.now.at }
        requires mark { old.now.mark
            ≡ end_from nothing_held (take old.now.at (old_trace revision.now)) }
        requires known { AreReplaced revision.now self.now }
        ensures ends { IfOk result
            (λ o. IfSome o (λ p. end_from p.0.start p.0.ops ≡ old.now.mark)) }
        ensures follows { IfOk result (λ o. IfSome o (λ p. p.1 ≡ true →
            IfSome self.now.chunks (λ s. s ≡ p.0.start))) }
    {
        if old.index == 0 {
            return Ok(None);
        }
        let segment = revision.segments.at(old.index - 1);
        let Some(mark) = segment.mark() else {
            return Ok(None);
        };
        // Else no chunk is made of it, or it is dear to make its heap, and to keep it.
        if segment.keys().is_none() || !segment.is_little_exchanged() {
            return Ok(None);
        }
        let at = old.at - segment.ops().len();
        let start = self.heap_at(alloc, &mark, at)?;
        let chunk = segment.chunk(start, old.mark.share()?)?;
        match chunk {
            None => Ok(None),
            Some(chunk) => Ok(Some((chunk, at == self.at))),
        }
    }

    // The heap of an old checkpoint at a position: that which is kept here, if it is known to be the same.
    fn heap_at(&self, alloc: Global, mark: &Mark, at: usize) -> Result<Heap, AllocError>
        requires { at ≡ self.now.at → IfSome self.now.heap (λ h. h ≡ mark.now) }
        ensures { IfOk result (λ h. h ≡ mark.now) }
    {
        if at == self.at {
            if let Some(heap) = &self.heap {
                return heap.share();
            }
        }
        mark.heap(alloc)
    }
}

// Whether a replay that came from a position to where it stands went over operations before an old position on its way, and didn't take the old stretch
// there.
fn is_gone_over(progress: &Progress, from: usize, at: usize) -> bool {
    from < progress.prefix.len && progress.fork.base < at
}
