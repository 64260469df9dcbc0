//! A segment as it stands in a run.
ghost use Rattle.std.specs.Prelude.{◌≡◌, length, is_some, [], ◌∷◌, IfOk, IfSome};
ghost use Rattle.std.specs.Arc.{arc_value};
ghost use Rattle.std.specs.Option.{option_copied, option_map};
ghost use Rattle.ownership_model.specs.State.{State};
ghost use Rattle.op_step.specs.Chunk.{IsReplayOf};
ghost use Rattle.run_engine.specs.Segments.{AreKeysFrom};
ghost use Rattle.run_engine.specs.inner.Cleared.{cleared_if, last_name};
ghost use Rattle.run_engine.specs.inner.Touching.{IsFiltered};
ghost use Rattle.run_engine.specs.inner.Blocks.{laid_over, AreSoundBelow};
ghost use Rattle.run_engine.specs.inner.Layered.{standing_at, started_at, CanStand, MayStand};

use crate::segments::cover::Cover;
use crate::segments::laid::{exchanged, laid_in};
use crate::segments::mark::Mark;
use crate::segments::segment::Segment;
use agreement::Exchange;
use heap_difference::{Filter, Layer};
use object_heap::Heap;
use op_step::ChunkRun;
use ownership_model::Key;
use std::alloc::{AllocError, Global};
use std::marker::Model;
use std::sync::Arc;
use trace_types::ops::Op;
use trace_types::outcomes::Outcome;
use trace_types::stretches::Stretch;

/// How many objects at most go and come in the heaps of a segment that is taken over or remembered: they are put into each such heap anew.
const MOST_EXCHANGED: usize = 32;

/// A segment as it stands in a run: its checkpoint may be given up there, and something may be laid over it. Contracts see the segment
/// that is meant.
#[derive(Drop)]
pub struct Standing<'a> {
    segment: &'a Segment,
    is_given_up: bool,
    laid: &'a Option<Arc<Exchange>>,
}

impl<'a> Model for Standing<'a> {
    ghost use Rattle.std.specs.Prelude.{[], ◌∷◌};
    ghost use Rattle.std.specs.Arc.{arc_value};
    ghost use Rattle.std.specs.Option.{option_map};
    ghost use Rattle.run_engine.specs.SegmentView.{SegmentView, segment_code};
    ghost use Rattle.run_engine.specs.inner.Cleared.{cleared_if};
    ghost use Rattle.run_engine.specs.inner.Blocks.{laid_over, AreSoundBelow};

    ghost Value = { SegmentView };

    ghost coded = { segment_code };

    ghost view = { λ s. laid_over (option_map arc_value s.laid.now) (cleared_if s.is_given_up s.segment.now) };

    ghost invariant = { λ s.
        AreSoundBelow (option_map arc_value s.laid.now) (cleared_if s.is_given_up s.segment.now ∷ []) };
}

impl<'a> Standing<'a> {
    /// A segment, without its checkpoint if that is given up, under what is laid over it.
    pub fn new(segment: &'a Segment, is_given_up: bool, laid: &'a Option<Arc<Exchange>>) -> Self
        requires { AreSoundBelow (option_map arc_value laid.now)
            (cleared_if is_given_up segment.now ∷ []) }
        ensures { result ≡ laid_over (option_map arc_value laid.entry.now)
            (cleared_if is_given_up segment.entry.now) }
    {
        Standing {
            segment,
            is_given_up,
            laid,
        }
    }

    /// The operations, where they stand.
    pub fn ops(&self) -> &'a [Op]
        ensures { result.now ≡ self.now.ops }
    {
        self.segment.ops()
    }

    /// The operations, which a share has without a copy.
    pub fn shared_ops(&self) -> &'a Arc<Vec<Op>>
        ensures { (arc_value result.now).items ≡ self.now.ops }
    {
        self.segment.shared_ops()
    }

    /// The number of the last operation, which is kept beside them: they aren't looked at.
    pub fn last_id(&self) -> Option<u32>
        ensures { result ≡ last_name self.now.ops }
    {
        self.segment.last_id()
    }

    /// The outcomes, where they stand.
    pub fn outcomes(&self) -> &'a [Outcome]
        ensures { result.now ≡ self.now.outcomes }
    {
        self.segment.outcomes()
    }

    /// The operations and their outcomes, where they stand.
    pub fn stretch(&self) -> Stretch<'a>
        requires { length self.now.outcomes ≡ length self.now.ops }
        ensures ops { result.ops.now ≡ self.now.ops }
        ensures outcomes { result.outcomes.now ≡ self.now.outcomes }
    {
        Stretch {
            ops: self.ops(),
            outcomes: self.outcomes(),
        }
    }

    /// The keys that were told of the operations, if they are known. With what the operations and their outcomes name they are all that the operations
    /// touch, move or copy in the run. They come in any order, and perhaps more than once.
    pub fn keys(&self) -> Option<&'a [Key]>
        ensures { option_copied result ≡ self.now.keys }
    {
        self.segment.keys()
    }

    /// What the operations touch, move or copy, as bits, if that is kept. Where its keys aren't known it says nothing.
    pub fn filter(&self) -> Option<&'a Filter>
        ensures { IsFiltered (option_copied result) self.now.keys self.now.ops
            self.now.outcomes }
    {
        self.segment.filter()
    }

    /// The same operations and outcomes where they begin with another heap, which is kept as their checkpoint, and as their anchor if they have
    /// one.
    pub fn started(&self, alloc: Global, heap: Heap) -> Result<Segment, AllocError>
        ensures { IfOk result (λ s. s ≡ started_at heap self.now) }
    {
        self.segment.started(alloc, heap)
    }

    /// The same operations and outcomes where they begin with the heap that a layer makes of their own one: all
    /// is shared, and no heap is made. None if too much is laid over it, or exchanged.
    pub fn under(&self, alloc: Global, layer: &Arc<Layer>) -> Result<Option<Segment>, AllocError>
        requires { MayStand (arc_value layer.now) self.now }
        ensures { IfOk result (λ o. IfSome o (λ s. (new : State) →
            CanStand (arc_value layer.now) self.now new → s ≡ standing_at new self.now)) }
    {
        if !self.is_little_exchanged() {
            return Ok(None);
        }
        if self.is_given_up {
            let bare = self.segment.without_mark()?;
            return bare.under(alloc, self.laid, layer);
        }
        self.segment.under(alloc, self.laid, layer)
    }

    /// Its operations with their outcomes as a chunk, from the heap where they begin to the one behind them: all is shared. None if it isn't known what
    /// they touch.
    pub fn chunk(&self, start: Heap, end: Heap) -> Result<Option<ChunkRun>, AllocError>
        requires replay { IsReplayOf (record { start = start; ops = self.now.ops }) self.now.outcomes end }
        requires keys { AreKeysFrom start self.now.keys self.now.ops self.now.outcomes }
        ensures { IfOk result
            (λ o. IfSome o (λ c. c ≡ record { start = start; ops = self.now.ops })) }
    {
        self.segment.chunk(start, end)
    }

    /// Whether few objects are exchanged in its heaps, or none. It is a hint.
    pub fn is_little_exchanged(&self) -> bool {
        exchanged(self.laid) <= MOST_EXCHANGED
    }

    /// What is laid over its checkpoint and its anchor. It is a hint.
    pub fn cover(&self) -> &'a Cover {
        self.segment.cover()
    }

    /// The heap that is kept for its checkpoint, before anything is laid over it or exchanged. It is a hint.
    pub fn base(&self) -> Option<&'a Heap> {
        self.segment.base()
    }

    /// Whether there is a checkpoint where it begins.
    pub fn is_marked(&self) -> bool
        ensures { result ≡ is_some self.now.mark }
    {
        !self.is_given_up && self.segment.is_marked()
    }

    /// The checkpoint where it begins, if there is one.
    pub fn mark(&self) -> Option<Mark<'a>>
        ensures { result ≡ self.now.mark }
    {
        if self.is_given_up {
            return None;
        }
        let kept = self.segment.mark()?;
        Some(Mark::new(kept, laid_in(self.laid)))
    }

    /// Whether there is an anchor where it begins.
    pub fn is_anchored(&self) -> bool
        ensures { result ≡ is_some self.now.anchor }
    {
        self.segment.is_anchored()
    }

    /// The anchor where it begins, if there is one.
    pub fn anchor(&self) -> Option<Mark<'a>>
        ensures { result ≡ self.now.anchor }
    {
        let kept = self.segment.anchor()?;
        Some(Mark::new(kept, laid_in(self.laid)))
    }
}
