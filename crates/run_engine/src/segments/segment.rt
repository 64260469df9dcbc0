//! A segment of a run.
ghost use Rattle.std.specs.Prelude.{◌≡◌, [], ◌∷◌, false, IfOk, IfSome, IsTrue, None, Some, is_some, flat_map, if◌then◌else◌};
ghost use Rattle.std.specs.Arc.{arc_value};
ghost use Rattle.std.specs.Option.{option_map, option_copied};
ghost use Rattle.trace_types.specs.Trace.{place_of};
ghost use Rattle.ownership_model.specs.State.{State};
ghost use Rattle.ownership_model.specs.Step.{outcomes_from};
ghost use Rattle.heap_difference.specs.Naming.{outcome_keys};
ghost use Rattle.op_step.specs.Chunk.{IsReplayOf};
ghost use Rattle.run_engine.specs.Segments.{AreKeysFrom};
ghost use Rattle.run_engine.specs.inner.Blocks.{laid_over, AreSoundBelow};
ghost use Rattle.run_engine.specs.inner.Layered.{standing_at, started_at, CanStand, MayStand};
ghost use Rattle.run_engine.specs.inner.Parts.{AreBetween};
ghost use Rattle.run_engine.specs.inner.Cleared.{last_name};
ghost use Rattle.run_engine.specs.inner.Touching.{shared_keys, IsFiltered};

use crate::segments::bounds::{Bounds, bounds_of};
use crate::segments::cover::Cover;
use crate::segments::kept::Kept;
use agreement::Exchange;
use heap_difference::{Filter, Layer};
use object_heap::Heap;
use op_step::{ChunkRun, Replayed};
use ownership_model::Key;
use std::alloc::{AllocError, Global};
use std::marker::Model;
use std::sync::Arc;
use trace_types::ops::Op;
use trace_types::outcomes::Outcome;
use trace_types::sequence::Sequence;

/// Operations with their outcomes, and the heap where they begin, if that is kept: as a checkpoint, as an anchor, or as both. It may be kept
/// as an older one with layers over it. The versions of a run share all of it: one more of a segment takes a count for each.
#[derive(Drop)]
pub struct Segment {
    mark: Option<Arc<Heap>>,
    anchor: Option<Arc<Heap>>,
    // what is laid over both
    cover: Cover,
    // what was told of the operations that they touch, move or copy, and neither they nor their outcomes name, if that is known: in any
    // order, and perhaps more than once
    keys: Option<Arc<Vec<Key>>>,
    body: Arc<Replayed>,
    // all keys that the operations touch, move or copy, as bits: where the segment was replayed as a run was loaded
    filter: Option<Arc<Filter>>,
    bounds: Bounds,
    last: Option<u32>,
}

impl Model for Segment {
    ghost use Rattle.std.specs.Prelude.{◌≡◌};
    ghost use Rattle.std.specs.Arc.{arc_value};
    ghost use Rattle.std.specs.Option.{option_map};
    ghost use Rattle.run_engine.specs.SegmentView.{SegmentView, segment_code};

    ghost Value = { SegmentView };

    ghost coded = { segment_code };

    ghost use Rattle.run_engine.specs.inner.Parts.{AreBetween};
    ghost use Rattle.run_engine.specs.inner.Cleared.{last_name};
    ghost use Rattle.run_engine.specs.inner.Touching.{shared_keys, IsFiltered};
    ghost use Rattle.run_engine.specs.inner.Layered.{with_all, AreLaidBelow};

    ghost view = { λ s. record {
      mark = option_map (with_all s.cover) (option_map arc_value s.mark);
      anchor = option_map (with_all s.cover) (option_map arc_value s.anchor);
      keys = shared_keys s.keys;
      ops = (arc_value (arc_value s.body).ops).items;
      outcomes = (arc_value s.body).outcomes;
    } };

    ghost invariant = { λ s.
        AreBetween s.bounds.least s.bounds.greatest (arc_value (arc_value s.body).ops).items
        × (s.last ≡ last_name (arc_value (arc_value s.body).ops).items)
        × AreLaidBelow s.cover (option_map arc_value s.mark)
        × AreLaidBelow s.cover (option_map arc_value s.anchor)
        × IsFiltered (option_map arc_value s.filter) (shared_keys s.keys)
        (arc_value (arc_value s.body).ops).items (arc_value s.body).outcomes };
}

impl Segment {
    /// The segment of a chunk that was replayed, with a checkpoint where it begins, which is an anchor as well if that is wanted. It shares
    /// the operations and outcomes.
    pub fn of(alloc: Global, chunk: &ChunkRun, is_anchored: bool) -> Result<Self, AllocError>
        ensures value { IfOk result
            (λ s. s ≡ record {
              mark = Some chunk.now.start;
              anchor = if is_anchored then Some chunk.now.start else None;
              keys = s.keys;
              ops = chunk.now.ops;
              outcomes = outcomes_from chunk.now.start chunk.now.ops;
            }) }
        ensures keys { IfOk result (λ s. AreKeysFrom chunk.now.start s.keys chunk.now.ops
            (outcomes_from chunk.now.start chunk.now.ops)) }
        ensures known { IfOk result (λ s. IsTrue (is_some s.keys)) }
    {
        let mark = Arc::new(alloc, chunk.start().share()?)?;
        let anchor = anchor_of(&mark, is_anchored)?;
        Ok(Segment {
            mark: Some(mark),
            anchor,
            cover: Cover::nothing(),
            keys: Some(Arc::try_clone(chunk.keys())?),
            body: Arc::try_clone(chunk.replayed())?,
            filter: None,
            bounds: bounds_of(chunk.ops()),
            last: last_id(chunk.ops()),
        })
    }

    /// The segment of operations with these outcomes, and with the keys that were told of them, with no checkpoint, but with an anchor if one is
    /// given.
    pub fn bare(
        alloc: Global,
        anchor: Option<Heap>,
        ops: Arc<Vec<Op>>,
        outcomes: Sequence<Outcome>,
        told: Vec<Key>,
    ) -> Result<Self, AllocError>
        ensures { IfOk result
            (λ s. s ≡ record {
              mark = None;
              anchor = anchor;
              keys = Some told.items;
              ops = (arc_value ops).items;
              outcomes = outcomes;
            }) }
    {
        let anchor = match anchor {
            None => None,
            Some(heap) => Some(Arc::new(alloc, heap)?),
        };
        let bounds = bounds_of(&ops);
        let last = last_id(&ops);
        Ok(Segment {
            mark: None,
            anchor,
            cover: Cover::nothing(),
            keys: Some(Arc::new(alloc, told)?),
            body: Arc::new(alloc, Replayed { ops, outcomes })?,
            filter: None,
            bounds,
            last,
        })
    }

    /// The same segment, with a filter of what its operations touch if that is wanted, and if it is known what that is.
    pub fn filtered(self, alloc: Global, is_wanted: bool) -> Result<Self, AllocError>
        ensures { IfOk result (λ s. s ≡ self) }
    {
        if !is_wanted {
            return Ok(self);
        }
        let filter = filter_of(alloc, &self.keys, &self.body)?;
        let mut filtered = self;
        filtered.filter = filter;
        Ok(filtered)
    }

    /// The same segment again, all of which is shared.
    pub fn share(&self) -> Result<Self, AllocError>
        ensures { IfOk result (λ s. s ≡ self.now) }
    {
        Ok(Segment {
            mark: share_of(&self.mark)?,
            anchor: share_of(&self.anchor)?,
            cover: self.cover.share()?,
            keys: keys_of(&self.keys)?,
            body: Arc::try_clone(&self.body)?,
            filter: shared_filter(&self.filter)?,
            bounds: self.bounds,
            last: self.last,
        })
    }

    /// The same segment again, all of which is shared, with no checkpoint: an anchor stays, and so does what is told of its operations.
    pub fn without_mark(&self) -> Result<Self, AllocError>
        ensures { IfOk result (λ s. s ≡ record self.now { mark = None }) }
    {
        Ok(Segment {
            mark: None,
            anchor: share_of(&self.anchor)?,
            cover: self.cover.share()?,
            keys: keys_of(&self.keys)?,
            body: Arc::try_clone(&self.body)?,
            filter: shared_filter(&self.filter)?,
            bounds: self.bounds,
            last: self.last,
        })
    }

    /// The same operations and outcomes where they begin with the heap that a layer makes of their own one, in which something is exchanged first, if
    /// anything is: all is shared, and no heap is made. Where no heap is kept it is the same segment. None if too much is laid over it already.
    pub fn under(
        &self,
        alloc: Global,
        exchange: &Option<Arc<Exchange>>,
        layer: &Arc<Layer>,
    ) -> Result<Option<Self>, AllocError>
        requires sound { AreSoundBelow (option_map arc_value exchange.now) (self.now ∷ []) }
        requires may { MayStand (arc_value layer.now)
            (laid_over (option_map arc_value exchange.now) self.now) }
        ensures { IfOk result (λ o. IfSome o (λ s. (new : State) →
            CanStand (arc_value layer.now) (laid_over (option_map arc_value exchange.now) self.now) new →
            s ≡ standing_at new (laid_over (option_map arc_value exchange.now) self.now))) }
    {
        if !self.has_heap() {
            return Ok(Some(self.share()?));
        }
        let Some(cover) = self.cover.under(alloc, exchange, layer)? else {
            return Ok(None);
        };
        Ok(Some(Segment {
            mark: share_of(&self.mark)?,
            anchor: share_of(&self.anchor)?,
            cover,
            keys: keys_of(&self.keys)?,
            body: Arc::try_clone(&self.body)?,
            filter: shared_filter(&self.filter)?,
            bounds: self.bounds,
            last: self.last,
        }))
    }

    /// The same operations and outcomes where they begin with another heap, which is kept as their checkpoint, and as their anchor if they have
    /// one: nothing is laid over it.
    pub fn started(&self, alloc: Global, heap: Heap) -> Result<Self, AllocError>
        ensures { IfOk result (λ s. s ≡ started_at heap self.now) }
    {
        let mark = Arc::new(alloc, heap)?;
        let anchor = anchor_of(&mark, self.anchor.is_some())?;
        Ok(Segment {
            mark: Some(mark),
            anchor,
            cover: Cover::nothing(),
            keys: keys_of(&self.keys)?,
            body: Arc::try_clone(&self.body)?,
            filter: shared_filter(&self.filter)?,
            bounds: self.bounds,
            last: self.last,
        })
    }

    /// The same segment with other outcomes, which name the same: the operations are shared.
    pub fn with_outcomes(
        self,
        alloc: Global,
        outcomes: Sequence<Outcome>,
    ) -> Result<Self, AllocError>
        requires { flat_map outcome_keys outcomes ≡ flat_map outcome_keys self.outcomes }
        ensures { IfOk result (λ s. s ≡ record self { outcomes = outcomes }) }
    {
        let ops = Arc::try_clone(&self.body.ops)?;
        let body = Arc::new(alloc, Replayed { ops, outcomes })?;
        let mut segment = self;
        segment.body = body;
        Ok(segment)
    }

    /// Its operations with their outcomes as a chunk, from the heap where they begin to the one behind them: all is shared. None if it isn't known what
    /// they touch.
    pub fn chunk(&self, start: Heap, end: Heap) -> Result<Option<ChunkRun>, AllocError>
        requires replay { IsReplayOf (record { start = start; ops = self.now.ops }) self.now.outcomes end }
        requires keys { AreKeysFrom start self.now.keys self.now.ops self.now.outcomes }
        ensures { IfOk result
            (λ o. IfSome o (λ c. c ≡ record { start = start; ops = self.now.ops })) }
    {
        let Some(keys) = &self.keys else {
            return Ok(None);
        };
        let keys = Arc::try_clone(keys)?;
        let body = Arc::try_clone(&self.body)?;
        Ok(Some(ChunkRun::of(start, body, end, keys)))
    }

    // Whether a heap is kept where it begins.
    fn has_heap(&self) -> bool
        ensures { result ≡ false → (self.now.mark ≡ None) × (self.now.anchor ≡ None) }
    {
        self.mark.is_some() || self.anchor.is_some()
    }

    /// What is laid over its checkpoint and its anchor. It is a hint.
    pub fn cover(&self) -> &Cover {
        &self.cover
    }

    /// The heap that is kept for its checkpoint, before anything is laid over it. It is a hint.
    pub fn base(&self) -> Option<&Heap> {
        match &self.mark {
            None => None,
            Some(heap) => Some(heap),
        }
    }

    /// The operations, where they stand.
    pub fn ops(&self) -> &[Op]
        ensures { result.now ≡ self.now.ops }
    {
        self.body.ops.as_slice()
    }

    /// The operations, which a share has without a copy.
    pub fn shared_ops(&self) -> &Arc<Vec<Op>>
        ensures { (arc_value result.now).items ≡ self.now.ops }
    {
        &self.body.ops
    }

    /// Bounds of the operations' numbers.
    pub fn bounds(&self) -> Bounds
        ensures { AreBetween result.least result.greatest self.now.ops }
    {
        self.bounds
    }

    /// Where the operation with this number stands in it, from 0.
    pub fn place(&self, id: u32) -> Option<usize>
        ensures { result ≡ place_of id self.now.ops }
    {
        if self.bounds.exclude(id) {
            return None;
        }
        place_in(self.ops(), id)
    }

    /// The number of the last operation, which is kept beside them: they aren't looked at.
    pub fn last_id(&self) -> Option<u32>
        ensures { result ≡ last_name self.now.ops }
    {
        self.last
    }

    /// The outcomes, where they stand.
    pub fn outcomes(&self) -> &[Outcome]
        ensures { result.now ≡ self.now.outcomes }
    {
        self.body.outcomes.as_slice()
    }

    /// The keys that were told of the operations, if they are known. With what these and their outcomes name they are all that the operations
    /// touch, move or copy in the run that the segment is of. They come in any order, and perhaps more than once.
    pub fn keys(&self) -> Option<&[Key]>
        ensures { option_copied result ≡ self.now.keys }
    {
        match &self.keys {
            None => None,
            Some(keys) => Some(keys.as_slice()),
        }
    }

    /// What the operations touch, move or copy, as bits, if that is kept. Where its keys aren't known it says nothing.
    pub fn filter(&self) -> Option<&Filter>
        ensures { IsFiltered (option_copied result) self.now.keys self.now.ops
            self.now.outcomes }
    {
        match &self.filter {
            None => None,
            Some(filter) => Some(filter),
        }
    }

    /// Whether there is an anchor where it begins.
    pub fn is_anchored(&self) -> bool
        ensures { result ≡ is_some self.now.anchor }
    {
        self.anchor.is_some()
    }

    /// The anchor where it begins, if there is one.
    pub fn anchor(&self) -> Option<Kept<'_>>
        ensures { result ≡ self.now.anchor }
    {
        match &self.anchor {
            None => None,
            Some(heap) => Some(Kept::new(heap, &self.cover)),
        }
    }

    /// Whether there is a checkpoint where it begins.
    pub fn is_marked(&self) -> bool
        ensures { result ≡ is_some self.now.mark }
    {
        self.mark.is_some()
    }

    /// The checkpoint where it begins, if that is kept.
    pub fn mark(&self) -> Option<Kept<'_>>
        ensures { result ≡ self.now.mark }
    {
        match &self.mark {
            None => None,
            Some(heap) => Some(Kept::new(heap, &self.cover)),
        }
    }
}

// A checkpoint once more, as an anchor, if that is wanted.
fn anchor_of(mark: &Arc<Heap>, is_wanted: bool) -> Result<Option<Arc<Heap>>, AllocError>
    ensures { IfOk result (λ o. option_map arc_value o
        ≡ (if is_wanted then Some (arc_value mark.now) else None)) }
{
    if is_wanted {
        return Ok(Some(Arc::try_clone(mark)?));
    }
    Ok(None)
}

// A heap once more, if there is one.
fn share_of(heap: &Option<Arc<Heap>>) -> Result<Option<Arc<Heap>>, AllocError>
    ensures { IfOk result (λ o. option_map arc_value o ≡ option_map arc_value heap.now) }
{
    match heap {
        None => Ok(None),
        Some(heap) => Ok(Some(Arc::try_clone(heap)?)),
    }
}

// A filter of what was told of operations and of what these and their outcomes name, if that is known.
fn filter_of(
    alloc: Global,
    keys: &Option<Arc<Vec<Key>>>,
    body: &Replayed,
) -> Result<Option<Arc<Filter>>, AllocError>
    ensures { IfOk result (λ o. IsFiltered (option_map arc_value o) (shared_keys keys.now)
        (arc_value body.now.ops).items body.now.outcomes) }
{
    let Some(told) = keys else {
        return Ok(None);
    };
    let filter = Filter::of(told, &body.ops, body.outcomes.as_slice());
    Ok(Some(Arc::new(alloc, filter)?))
}

// The filter once more, if there is one.
fn shared_filter(filter: &Option<Arc<Filter>>) -> Result<Option<Arc<Filter>>, AllocError>
    ensures { IfOk result (λ o. option_map arc_value o ≡ option_map arc_value filter.now) }
{
    match filter {
        None => Ok(None),
        Some(filter) => Ok(Some(Arc::try_clone(filter)?)),
    }
}

// The keys once more, if they are known.
fn keys_of(keys: &Option<Arc<Vec<Key>>>) -> Result<Option<Arc<Vec<Key>>>, AllocError>
    ensures { IfOk result (λ o. shared_keys o ≡ shared_keys keys.now) }
{
    match keys {
        None => Ok(None),
        Some(keys) => Ok(Some(Arc::try_clone(keys)?)),
    }
}

// The number of the last operation.
fn last_id(ops: &[Op]) -> Option<u32>
    ensures { result ≡ last_name ops.now }
{
    let op = ops.last()?;
    Some(op.id())
}

// Where the operation with this number stands among others, from 0.
fn place_in(ops: &[Op], id: u32) -> Option<usize>
    ensures { result ≡ place_of id ops.now }
{
    for (place, op) in ops.iter().enumerate() {
        if op.id() == id {
            return Some(place);
        }
    }
    None
}
