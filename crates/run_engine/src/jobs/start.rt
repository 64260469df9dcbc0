//! The heap where a stretch begins, and whether operations can be replayed from it.
ghost use Rattle.std.specs.Prelude.{◌≡◌, ◌↔◌, IfOk, IsTrue, Contains, take};
ghost use Rattle.ownership_model.specs.State.{nothing_held};
ghost use Rattle.ownership_model.specs.Step.{end_from, AreUnused};
ghost use Rattle.run_engine.specs.Segments.{trace_of, all_marks, IsRun};

use crate::segments::blocks::Segments;
use crate::segments::seek::segment_at;
use object_heap::Heap;
use std::alloc::{AllocError, Global};
use trace_types::ops::Op;

/// The heap at a checkpoint of a run.
pub fn heap_of(
    alloc: Global,
    segments: &Segments,
    end: &Heap,
    mark: usize,
) -> Result<Heap, AllocError>
    requires run { IsRun segments.now end.now }
    requires mark { Contains (all_marks segments.now) mark }
    ensures { IfOk result (λ h. h ≡ end_from nothing_held (take mark (trace_of segments.now))) }
{
    let Some(i) = segment_at(segments, mark) else {
        return Ok(end.share()?);
    };
    match segments.at(i).mark() {
        Some(checkpoint) => Ok(checkpoint.heap(alloc)?),
        // a segment that begins at a checkpoint has it, so that none comes here
        None => Ok(Heap::empty()),
    }
}

/// Whether no object of a heap has the number of one of the operations.
pub fn are_unused(heap: &Heap, ops: &[Op]) -> bool
    ensures { IsTrue result ↔ AreUnused heap.now ops.now }
{
    for op in ops {
        if heap.object(op.id()).is_some() {
            return false;
        }
    }
    true
}
