//! The segments of a run, in blocks.
ghost use Rattle.std.specs.Prelude.{◌≡◌, ◌++◌, ◌∷◌, [], ◌<◌, ◌≤◌, length, map, take, IfOk, slice_index_or, slice_range};
ghost use Rattle.trace_types.specs.Trace.{place_of};
ghost use Rattle.run_engine.specs.Segments.{trace_of, without_mark, has_mark, IsLastFrom};
ghost use Rattle.run_engine.specs.inner.Exchanged.{exchanged, AreExchangeable};

use crate::segments::block::Block;
use crate::segments::block_list::{clear_at, find, push_last};
use crate::segments::segment::Segment;
use crate::segments::standing::Standing;
use crate::segments::starts::part_at;
use agreement::Remains;
use std::alloc::{AllocError, Global};
use std::marker::Model;
use trace_types::limits::MAX_OPS;

/// Segments one behind the other, in blocks, which runs share. Contracts see the list of the segments.
///
/// There are at most `MAX_OPS`, and they have at most as many operations, as a trace has: where there would be more, that is told as want
/// of memory.
#[derive(Drop)]
pub struct Segments {
    blocks: Vec<Block>,
    // the index of each block's first segment
    starts: Vec<usize>,
    // where the operations of each block begin
    positions: Vec<usize>,
    len: usize,
    // how many operations there are
    ops: usize,
}

impl Model for Segments {
    ghost use Rattle.std.specs.Prelude.{◌≡◌, ◌≤◌, List, length, map};
    ghost use Rattle.std.specs.Coded.{coded_list};
    ghost use Rattle.trace_types.specs.declared.limits.TheConstants.{MAX_OPS};
    ghost use Rattle.run_engine.specs.inner.Parts.{joined, starts_from};
    ghost use Rattle.run_engine.specs.SegmentView.{SegmentView, segment_code};
    ghost use Rattle.run_engine.specs.Segments.{trace_of};

    ghost Value = { List SegmentView };

    ghost coded = { coded_list segment_code };

    ghost view = { λ s. joined s.blocks.items };

    ghost invariant = { λ s.
        (s.starts.items ≡ starts_from 0 s.blocks.items)
        × (s.len ≡ length (joined s.blocks.items))
        × (s.len ≤ MAX_OPS)
        × (s.positions.items ≡ starts_from 0 (map trace_of s.blocks.items))
        × (s.ops ≡ length (trace_of (joined s.blocks.items)))
        × (s.ops ≤ MAX_OPS) };
}

impl Segments {
    /// No segments.
    pub fn empty(alloc: Global) -> Self
        ensures { result ≡ [] }
    {
        Segments {
            blocks: Vec::new(alloc),
            starts: Vec::new(alloc),
            positions: Vec::new(alloc),
            len: 0,
            ops: 0,
        }
    }

    /// How many segments there are.
    pub fn len(&self) -> usize
        ensures { result ≡ length self.now }
    {
        self.len
    }

    /// How many operations they have.
    pub fn ops_len(&self) -> usize
        ensures value { result ≡ length (trace_of self.now) }
        ensures few { result ≤ MAX_OPS }
    {
        self.ops
    }

    /// How many of them have an anchor. All are gone over.
    pub fn anchors(&self) -> usize {
        let mut count = 0usize;
        for block in &self.blocks {
            count = count.saturating_add(block.anchors());
        }
        count
    }

    /// The segment at an index, as it stands here. Its block is found by halves.
    pub fn at(&self, index: usize) -> Standing<'_>
        requires { index < length self.now }
        ensures { result ≡ slice_index_or self.now index result }
    {
        let (i, rest) = find(&self.blocks, &self.starts, index);
        self.blocks[i].at(rest)
    }

    /// Where the operations of the segment at an index begin. Its block is found by halves.
    pub fn position(&self, index: usize) -> usize
        requires { index < length self.now }
        ensures { length (trace_of (take index self.now)) ≡ result }
    {
        let (i, rest) = find(&self.blocks, &self.starts, index);
        self.positions[i] + self.blocks[i].ops_between(0, rest)
    }

    /// The segment that has a position, and where it begins: behind all, how many segments and operations there are. Its block is found
    /// by halves.
    pub fn last_from(&self, position: usize) -> (usize, usize)
        ensures last { IsLastFrom self.now position result.0 result.1 }
        ensures few { result.0 ≤ MAX_OPS }
    {
        match part_at(&self.positions, position) {
            None => (0, 0),
            Some(i) => {
                let at = self.positions[i];
                let (more, begun) = self.blocks[i].last_from(position - at);
                (self.starts[i] + more, at + begun)
            }
        }
    }

    /// Where the operation with this number stands, from 0. Of a block that the number is outside the bounds of, no segment is looked at.
    pub fn place(&self, id: u32) -> Option<usize>
        ensures { result ≡ place_of id (trace_of self.now) }
    {
        let mut at = 0;
        for block in &self.blocks {
            if let Some(place) = block.place(id) {
                return Some(at + place);
            }
            at += block.ops_len();
        }
        None
    }

    /// The segments, and another one behind them.
    pub fn push(self, alloc: Global, segment: Segment) -> Result<Self, AllocError>
        ensures { IfOk result (λ s. s ≡ self ++ segment ∷ []) }
    {
        let more = segment.ops().len();
        if self.len >= MAX_OPS || more > MAX_OPS - self.ops {
            return Err(AllocError);
        }
        let Segments {
            mut blocks,
            starts,
            positions,
            len,
            ops,
        } = self;
        match push_last(&mut blocks, segment)? {
            None => Ok(Segments {
                blocks,
                starts,
                positions,
                len: len + 1,
                ops: ops + more,
            }),
            Some(back) => Segments {
                blocks,
                starts,
                positions,
                len,
                ops,
            }
            .with_block(Block::of(alloc, back)?),
        }
    }

    // The segments, and a block behind them.
    fn with_block(self, block: Block) -> Result<Self, AllocError>
        ensures { IfOk result (λ s. s ≡ self ++ block) }
    {
        let more = block.len();
        let more_ops = block.ops_len();
        if more > MAX_OPS - self.len || more_ops > MAX_OPS - self.ops {
            return Err(AllocError);
        }
        let Segments {
            mut blocks,
            mut starts,
            mut positions,
            len,
            ops,
        } = self;
        starts.push(len)?;
        positions.push(ops)?;
        blocks.push(block)?;
        Ok(Segments {
            blocks,
            starts,
            positions,
            len: len + more,
            ops: ops + more_ops,
        })
    }

    // The segments, and those of a block behind them: one alone goes into the last block, where that has room.
    fn with_all(self, alloc: Global, block: Block) -> Result<Self, AllocError>
        ensures { IfOk result (λ s. s ≡ self ++ block) }
    {
        if let Some(segment) = block.alone() {
            let share = segment.share()?;
            return self.push(alloc, share);
        }
        self.with_block(block)
    }

    // The segments, and those of a part of a block behind them: none, where the part is empty.
    fn with_part(self, block: &Block, from: usize, to: usize) -> Result<Self, AllocError>
        requires order { from ≤ to }
        requires within { to ≤ length block.now }
        ensures { IfOk result (λ s. s ≡ self ++ slice_range block.now from to) }
    {
        if from == to {
            return Ok(self);
        }
        self.with_block(block.part(from, to)?)
    }

    /// The segments, and others behind them.
    pub fn append(self, alloc: Global, more: Segments) -> Result<Self, AllocError>
        ensures { IfOk result (λ s. s ≡ self ++ more) }
    {
        let mut all = self;
        for block in more.blocks {
            all = all.with_all(alloc, block)?;
        }
        Ok(all)
    }

    /// The segments from one index on and before another, which are shared.
    pub fn stretch(&self, alloc: Global, from: usize, to: usize) -> Result<Self, AllocError>
        requires order { from ≤ to }
        requires within { to ≤ length self.now }
        ensures { IfOk result (λ s. s ≡ slice_range self.now from to) }
    {
        let mut all = Segments::empty(alloc);
        let mut at = 0usize;
        for block in &self.blocks {
            let len = block.len();
            let low = from.saturating_sub(at).min(len);
            let high = to.saturating_sub(at).min(len);
            all = all.with_part(block, low, high)?;
            at += len;
        }
        Ok(all)
    }

    /// The same segments, with the remains exchanged in each kept checkpoint. The work is that of what differs in the remains, for
    /// each block.
    pub fn exchanged(&self, alloc: Global, remains: &Remains) -> Result<Self, AllocError>
        requires { AreExchangeable remains.now self.now }
        ensures { IfOk result (λ s. s ≡ map (exchanged remains.now) self.now) }
    {
        let mut all = Segments::empty(alloc);
        for block in &self.blocks {
            all = all.with_block(block.exchanged(alloc, remains)?)?;
        }
        Ok(all)
    }

    /// Gives up the checkpoint of the segment at an index, and tells whether there was one. Takes no memory.
    pub fn clear_mark(&mut self, index: usize) -> bool
        requires { index < length self.old }
        ensures kept { self.new ≡ without_mark self.old index }
        ensures answer { result ≡ has_mark self.old index }
    {
        let was = self.at(index).is_marked();
        clear_at(&mut self.blocks, &self.starts, index);
        was
    }

    /// The same segments, none of which keeps a heap of a checkpoint that is given up.
    pub fn renewed(self, alloc: Global) -> Result<Self, AllocError>
        ensures { IfOk result (λ s. s ≡ self) }
    {
        let mut all = Segments::empty(alloc);
        for block in self.blocks {
            all = all.with_block(block.renewed(alloc)?)?;
        }
        Ok(all)
    }
}
