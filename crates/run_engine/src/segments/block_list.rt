//! Blocks one behind the other.
ghost use Rattle.std.specs.Prelude.{◌≡◌, ◌+◌, ◌++◌, ◌∷◌, [], ◌<◌, length, map, take, IfOk, OnOk, IfSome, IfNone};
ghost use Rattle.run_engine.specs.inner.Parts.{joined, starts_from};
ghost use Rattle.run_engine.specs.Segments.{trace_of, without_mark};

use crate::segments::block::Block;
use crate::segments::segment::Segment;
use crate::segments::starts::part_at;
use std::alloc::AllocError;

/// The block that has the segment at an index, and how many segments stand before that in it. It is found by halves.
pub fn find(blocks: &[Block], starts: &[usize], index: usize) -> (usize, usize)
    requires starts { starts.now ≡ starts_from 0 blocks.now }
    requires index { index < length (joined blocks.now) }
    ensures within { result.0 < length blocks.now }
    ensures place { length (joined (take result.0 blocks.now)) + result.1 ≡ index }
    ensures inside { index < length (joined (take (result.0 + 1) blocks.now)) }
{
    match part_at(starts, index) {
        None => (0, index),
        Some(i) => (i, index - starts[i]),
    }
}

/// Puts a segment behind those of the last block, where there is one and it has room: else gives it back.
pub fn push_last(blocks: &mut Vec<Block>, segment: Segment) -> Result<Option<Segment>, AllocError>
    ensures taken { IfOk result (λ o. IfNone o
        (joined blocks.new.items ≡ joined blocks.old.items ++ segment ∷ [])) }
    ensures back { IfOk result (λ o. IfSome o
        (λ s. (s ≡ segment) × (joined blocks.new.items ≡ joined blocks.old.items))) }
    ensures starts { OnOk result (starts_from 0 blocks.new.items ≡ starts_from 0 blocks.old.items) }
    ensures positions { OnOk result
        (starts_from 0 (map trace_of blocks.new.items)
        ≡ starts_from 0 (map trace_of blocks.old.items)) }
{
    let len = blocks.len();
    if len == 0 {
        return Ok(Some(segment));
    }
    let back = blocks[len - 1].push(segment)?;
    Ok(back)
}

/// Gives up the checkpoint of the segment at an index.
pub fn clear_at(blocks: &mut Vec<Block>, starts: &[usize], index: usize)
    requires starts { starts.now ≡ starts_from 0 blocks.old.items }
    requires index { index < length (joined blocks.old.items) }
    ensures segments { joined blocks.new.items ≡ without_mark (joined blocks.old.items) index }
    ensures starts { starts_from 0 blocks.new.items ≡ starts_from 0 blocks.old.items }
    ensures traces { map trace_of blocks.new.items ≡ map trace_of blocks.old.items }
{
    let (i, rest) = find(blocks, starts, index);
    let _ = blocks[i].clear_mark(rest);
}
