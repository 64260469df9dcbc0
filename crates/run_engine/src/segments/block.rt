//! A block of segments.
ghost use Rattle.std.specs.Prelude.{◌≡◌, ◌+◌, ◌++◌, ◌∷◌, [], ◌<◌, ◌≤◌, length, map, IfOk, OnErr, IfSome, IfNone, slice_index_or, slice_range};
ghost use Rattle.trace_types.specs.Trace.{place_of};
ghost use Rattle.run_engine.specs.inner.Cleared.{cleared_if};
ghost use Rattle.run_engine.specs.inner.Blocks.{standing};
ghost use Rattle.run_engine.specs.Segments.{ops_of, trace_of, without_mark, has_mark, IsLastFrom};
ghost use Rattle.run_engine.specs.inner.Exchanged.{exchanged, AreExchangeable};

use crate::segments::bounds::Bounds;
use crate::segments::given_up::{GivenUp, MOST_SEGMENTS};
use crate::segments::laid::{both, shared};
use crate::segments::segment::Segment;
use crate::segments::standing::Standing;
use crate::segments::walk::{last_in, len_of, place_in};
use agreement::{Exchange, Remains};
use std::alloc::{AllocError, Global};
use std::marker::Model;
use std::sync::Arc;
use trace_types::limits::MAX_OPS;

/// Segments that runs share: a stretch of those that stand in one place, without the checkpoints that are given up here, and under what
/// is laid over all of them. Contracts see the list of the segments that are meant.
///
/// They have at most `MAX_OPS` operations, as a trace has: where there would be more, that is told as want of memory.
#[derive(Drop)]
pub struct Block {
    segments: Arc<Vec<Segment>>,
    from: usize,
    len: usize,
    // how many operations the stretch has
    ops: usize,
    // bounds of their numbers, and perhaps of more
    bounds: Bounds,
    given_up: GivenUp,
    laid: Option<Arc<Exchange>>,
    // a hint: whether a checkpoint was given up
    is_worn: bool,
}

impl Model for Block {
    ghost use Rattle.std.specs.Prelude.{◌≤◌, ◌+◌, List, length, map};
    ghost use Rattle.std.specs.Arc.{arc_value};
    ghost use Rattle.std.specs.Option.{option_map};
    ghost use Rattle.std.specs.Coded.{coded_list};
    ghost use Rattle.run_engine.specs.SegmentView.{SegmentView, segment_code};
    ghost use Rattle.run_engine.specs.inner.Blocks.{standing, laid_over, AreSoundBelow, AreMeasured};

    ghost Value = { List SegmentView };

    ghost coded = { coded_list segment_code };

    ghost view = { λ b. map (laid_over (option_map arc_value b.laid))
        (standing b.given_up b.from b.len (arc_value b.segments).items) };

    ghost invariant = { λ b.
        (b.from + b.len ≤ length (arc_value b.segments).items)
        × (length (arc_value b.segments).items ≤ 64)
        × AreSoundBelow (option_map arc_value b.laid)
        (standing b.given_up b.from b.len (arc_value b.segments).items)
        × AreMeasured (map (laid_over (option_map arc_value b.laid))
        (standing b.given_up b.from b.len (arc_value b.segments).items))
        b.ops b.bounds.least b.bounds.greatest };
}

impl Block {
    /// A segment in a block of its own.
    pub fn of(alloc: Global, segment: Segment) -> Result<Self, AllocError>
        ensures { IfOk result (λ b. b ≡ segment ∷ []) }
    {
        let ops = segment.ops().len();
        if ops > MAX_OPS {
            return Err(AllocError);
        }
        let bounds = segment.bounds();
        let mut one = Vec::new(alloc);
        one.push(segment)?;
        let segments = Arc::new(alloc, one)?;
        let given_up = GivenUp::none();
        Ok(Block {
            segments,
            from: 0,
            len: 1,
            ops,
            bounds,
            given_up,
            laid: None,
            is_worn: false,
        })
    }

    /// How many segments there are.
    pub fn len(&self) -> usize
        ensures { result ≡ length self.now }
    {
        self.len
    }

    /// How many operations they have.
    pub fn ops_len(&self) -> usize
        ensures value { result ≡ length (trace_of self.now) }
        ensures few { result ≤ MAX_OPS }
    {
        self.ops
    }

    /// How many of them have an anchor.
    pub fn anchors(&self) -> usize {
        let mut count = 0usize;
        for segment in self.stored() {
            if segment.is_anchored() {
                count = count.saturating_add(1);
            }
        }
        count
    }

    // The segments, as they are shared: what is given up here stands there, and nothing is laid over them.
    fn stored(&self) -> &[Segment]
        ensures { map ops_of result.now ≡ map ops_of self.now }
    {
        &self.segments[self.from..self.from + self.len]
    }

    /// How many operations the segments from one index on and before another have.
    pub fn ops_between(&self, from: usize, to: usize) -> usize
        requires order { from ≤ to }
        requires within { to ≤ length self.now }
        ensures { result ≡ length (trace_of (slice_range self.now from to)) }
    {
        if to - from == self.len {
            return self.ops;
        }
        len_of(&self.stored()[from..to])
    }

    /// The segment that has a position, and where it begins: behind all, how many segments and operations there are.
    pub fn last_from(&self, position: usize) -> (usize, usize)
        ensures { IsLastFrom self.now position result.0 result.1 }
    {
        last_in(self.stored(), position)
    }

    /// Where the operation with this number stands, from 0. No segment is looked at where the number is outside the bounds.
    pub fn place(&self, id: u32) -> Option<usize>
        ensures { result ≡ place_of id (trace_of self.now) }
    {
        if self.bounds.exclude(id) {
            return None;
        }
        place_in(self.stored(), id)
    }

    /// The segment at an index, as it stands here.
    pub fn at(&self, index: usize) -> Standing<'_>
        requires { index < length self.now }
        ensures { result ≡ slice_index_or self.now index result }
    {
        let place = self.from + index;
        let is_given_up = self.given_up.has(place);
        Standing::new(&self.segments[place], is_given_up, &self.laid)
    }

    /// The segments from one index on and before another, which are shared.
    pub fn part(&self, from: usize, to: usize) -> Result<Self, AllocError>
        requires order { from ≤ to }
        requires within { to ≤ length self.now }
        ensures { IfOk result (λ b. b ≡ slice_range self.now from to) }
    {
        let segments = Arc::try_clone(&self.segments)?;
        let given_up = self.given_up.share();
        let laid = shared(&self.laid)?;
        Ok(Block {
            segments,
            from: self.from + from,
            len: to - from,
            ops: self.ops_between(from, to),
            bounds: self.bounds,
            given_up,
            laid,
            is_worn: self.is_worn,
        })
    }

    /// The same segments, which are shared, with the remains exchanged in each kept checkpoint. The work is that of what differs in the
    /// remains, however many segments there are.
    pub fn exchanged(&self, alloc: Global, remains: &Remains) -> Result<Self, AllocError>
        requires { AreExchangeable remains.now self.now }
        ensures { IfOk result (λ b. b ≡ map (exchanged remains.now) self.now) }
    {
        let segments = Arc::try_clone(&self.segments)?;
        let given_up = self.given_up.share();
        let laid = both(alloc, &self.laid, remains)?;
        Ok(Block {
            segments,
            from: self.from,
            len: self.len,
            ops: self.ops,
            bounds: self.bounds,
            given_up,
            laid: Some(laid),
            is_worn: self.is_worn,
        })
    }

    /// Puts a segment behind the others, where there is room and no other block shares them: else gives it back.
    pub fn push(&mut self, segment: Segment) -> Result<Option<Segment>, AllocError>
        ensures taken { IfOk result (λ o. IfNone o (self.new ≡ self.old ++ segment ∷ [])) }
        ensures back { IfOk result (λ o. IfSome o (λ s. (s ≡ segment) × (self.new ≡ self.old))) }
        ensures err { OnErr result (self.new ≡ self.old) }
    {
        let place = self.from + self.len;
        let more = segment.ops().len();
        if self.laid.is_some() || place >= MOST_SEGMENTS || place < self.segments.len() {
            return Ok(Some(segment));
        }
        if more > MAX_OPS - self.ops {
            return Ok(Some(segment));
        }
        let bounds = self.bounds.with(&segment.bounds());
        match Arc::get_mut(&mut self.segments) {
            None => Ok(Some(segment)),
            Some(own) => {
                own.push(segment)?;
                self.given_up.set(place, false);
                self.len += 1;
                self.ops += more;
                self.bounds = bounds;
                Ok(None)
            }
        }
    }

    /// The segment, where there is but one and it stands as it is.
    pub fn alone(&self) -> Option<&Segment>
        ensures { IfSome result (λ s. s.now ∷ [] ≡ self.now) }
    {
        if self.len != 1 || self.laid.is_some() || self.given_up.has(self.from) {
            return None;
        }
        Some(&self.segments[self.from])
    }

    /// Gives up the checkpoint of the segment at an index, and tells whether there was one. Takes no memory: the heap itself is let
    /// go with the segments, or as they are renewed.
    pub fn clear_mark(&mut self, index: usize) -> bool
        requires { index < length self.old }
        ensures kept { self.new ≡ without_mark self.old index }
        ensures answer { result ≡ has_mark self.old index }
    {
        let was = self.at(index).is_marked();
        self.given_up.set(self.from + index, true);
        self.is_worn = true;
        was
    }

    /// The same segments in a block that has no heap of a checkpoint that is given up: itself, if none is.
    pub fn renewed(self, alloc: Global) -> Result<Self, AllocError>
        ensures { IfOk result (λ b. b ≡ self) }
    {
        if !self.is_worn {
            return Ok(self);
        }
        let len = self.len;
        let left = left_of(alloc, &self.segments, &self.given_up, self.from, len)?;
        let segments = Arc::new(alloc, left)?;
        let given_up = GivenUp::none();
        Ok(Block {
            segments,
            from: 0,
            len,
            ops: self.ops,
            bounds: self.bounds,
            given_up,
            laid: self.laid,
            is_worn: false,
        })
    }
}

// Shares of some of the segments from a place on, without the checkpoints that are given up.
fn left_of(
    alloc: Global,
    segments: &[Segment],
    given_up: &GivenUp,
    from: usize,
    len: usize,
) -> Result<Vec<Segment>, AllocError>
    requires within { from + len ≤ length segments.now }
    requires few { length segments.now ≤ 64 }
    ensures { IfOk result (λ v. v.items ≡ standing given_up.now from len segments.now) }
{
    let mut all = Vec::with_capacity(alloc, len)?;
    for i in 0..len {
        let place = from + i;
        all.push(left_at(&segments[place], given_up.has(place))?)?;
    }
    Ok(all)
}

// A share of a segment, without its checkpoint if that is given up.
fn left_at(segment: &Segment, is_given_up: bool) -> Result<Segment, AllocError>
    ensures { IfOk result (λ s. s ≡ cleared_if is_given_up segment.now) }
{
    if is_given_up {
        return segment.without_mark();
    }
    segment.share()
}
