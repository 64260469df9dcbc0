//! Where the replay of an edited trace begins again.
ghost use Rattle.std.specs.Prelude.{◌≡◌, ◌≤◌, ℕ, List, [], IfOk, length, take};
ghost use Rattle.std.specs.Ordering.{nat_cmp};
ghost use Rattle.std.specs.BTreeSet.{contains};
ghost use Rattle.trace_types.specs.Trace.{IsTrace};
ghost use Rattle.run_engine.specs.Segments.{trace_of, all_marks, IsRun, IsRestart, IsKept};
ghost use Rattle.run_engine.specs.Bounds.{StepsAtMostFrom};
ghost use Rattle.run_engine.specs.inner.Onward.{AreNames, AreMarksDue};
ghost use Rattle.op_step.specs.Chunk.{Chunk};
ghost use Rattle.run_engine.specs.Guesses.{with_guesses};
ghost use Rattle.run_engine.specs.Steps.{AreSteppedFrom};
ghost use Rattle.run_engine.specs.inner.Placed.{IsPlaced};
ghost use Rattle.run_engine.specs.inner.Replaced.{AreReplaced};
ghost use Rattle.run_engine.specs.declared.replay.revision.Revision.{Revision};

use crate::editing::head_and_tail::{head, tail};
use crate::editing::listing::Listing;
use crate::replay::anchors::Anchoring;
use crate::replay::converge::{Seam, converge};
use crate::replay::fresh::Fresh;
use crate::replay::origin::Behind;
use crate::replay::prefix::Prefix;
use crate::replay::replaced::Replaced;
use crate::replay::revision::Revision;
use crate::segments::blocks::Segments;
use mark_shelf::MarkShelf;
use object_heap::Heap;
use op_step::{ChunkRun, Meter};
use std::alloc::{AllocError, Global};
use std::collections::BTreeSet;

// Where a replay begins again: a segment's index, its position, and the heap there.
#[derive(Drop)]
struct Restart {
    index: usize,
    at: usize,
    heap: Heap,
    // whether there is an anchor as well
    is_anchored: bool,
}

// The greatest kept checkpoint at or before the head. The end of the old run is one.
fn greatest_mark(alloc: Global, revision: &Revision, head: usize) -> Result<Restart, AllocError>
    ensures { IfOk result (λ r. IsRestart revision.now.segments.now head r.index r.at r.heap) }
{
    let old = revision.segments;
    let len = revision.ops.base_len();
    if len <= head {
        return Ok(Restart {
            index: old.len(),
            at: len,
            heap: revision.end.share()?,
            is_anchored: false,
        });
    }
    let (last, _) = old.last_from(head);
    let mut i = last + 1;
    while i > 0 {
        i -= 1;
        let segment = old.at(i);
        if let Some(mark) = segment.mark() {
            return Ok(Restart {
                index: i,
                at: old.position(i),
                heap: mark.heap(alloc)?,
                is_anchored: segment.is_anchored(),
            });
        }
    }
    // the first segment has a checkpoint, so that none comes here
    Ok(Restart {
        index: 0,
        at: 0,
        heap: Heap::empty(),
        is_anchored: false,
    })
}

// The prefix of an edited trace that need not be replayed again.
fn prefix(alloc: Global, revision: &Revision, head: usize) -> Result<Prefix, AllocError>
    ensures restart { IfOk result
        (λ f. IsRestart revision.now.segments.now head (length f.segments) f.len f.end) }
    ensures segments { IfOk result
        (λ f. f.segments ≡ take (length f.segments) revision.now.segments.now) }
    ensures answered { IfOk result (λ f. AreNames (contains nat_cmp f.answered) []) }
    ensures placed { (chunks : List (ℕ × Chunk)) → IfOk result (IsPlaced chunks) }
{
    let restart = greatest_mark(alloc, revision, head)?;
    let segments = revision.segments.stretch(alloc, 0, restart.index)?;
    Ok(Prefix {
        segments,
        end: restart.heap,
        len: restart.at,
        fresh: Fresh::none(alloc),
        behind: Behind::Nothing,
        answered: BTreeSet::new(alloc),
        anchoring: Anchoring::edited(
            revision.segments,
            revision.ops.len(),
            restart.at,
            restart.is_anchored,
        ),
    })
}

/// The replay of an edited trace beside that of the old one, the base, with guesses of its stretches. The old stretches that it goes over anew behind the seam are noted.
pub fn resumed(
    alloc: Global,
    segments: &Segments,
    end: &Heap,
    ops: &Listing,
    guesses: &[ChunkRun],
    replaced: &mut Replaced,
    shelf: &mut MarkShelf,
    meter: &mut Meter,
) -> Result<Prefix, AllocError>
    requires none { (r : Revision) → AreReplaced r replaced.old }
    requires kept { IsKept segments.now end.now }
    requires base { ops.now.base ≡ trace_of segments.now }
    requires trace { IsTrace ops.now.ops }
    ensures run { IfOk result (λ r. IsRun r.segments r.end) }
    ensures trace { IfOk result (λ r. trace_of r.segments ≡ ops.now.ops) }
    ensures marks { IfOk result (λ r.
        AreMarksDue guesses.now (record { trace = ops.now.base; marks = all_marks segments.now })
        (record { trace = ops.now.ops; marks = all_marks r.segments })
        shelf.old shelf.new (contains nat_cmp r.answered)) }
    ensures bound { StepsAtMostFrom ops.now.base ops.now.ops (all_marks segments.now)
        meter.old meter.new }
    ensures stepped { IfOk result (λ _.
        AreSteppedFrom ops.now.base ops.now.ops (all_marks segments.now)
        (with_guesses guesses.now shelf.old.chunks) meter.old meter.new) }
    ensures never_less { meter.old ≤ meter.new }
{
    let first = head(ops);
    let last = tail(ops, first);
    let revision = Revision::of(segments, end, ops, guesses);
    let prefix = prefix(alloc, &revision, first)?;
    let seam = Seam {
        base: ops.base_len() - last,
        edited: ops.len() - last,
    };
    let replay = converge(alloc, &revision, prefix, seam, replaced, shelf, meter)?;
    Ok(replay)
}
