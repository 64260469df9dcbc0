//! An old run beside an edited trace.
ghost use Rattle.std.specs.Prelude.{◌≡◌};
ghost use Rattle.trace_types.specs.Trace.{IsTrace};
ghost use Rattle.run_engine.specs.Segments.{trace_of, IsKept};
ghost use Rattle.run_engine.specs.inner.Revision.{IsRevision};
ghost use Rattle.run_engine.specs.inner.RevisionProps.{IsRevision-prop};

use crate::editing::listing::Listing;
use crate::segments::blocks::Segments;
use object_heap::Heap;
use op_step::ChunkRun;

/// An old run, the operations that replace its own, and guesses: chunks of them, maybe.
#[derive(Drop)]
pub struct Revision<'a> {
    pub segments: &'a Segments,
    pub end: &'a Heap,
    pub ops: &'a Listing<'a>,
    pub guesses: &'a [ChunkRun],
    ghost holds: { IsRevision segments.now end.now ops.now } by { IsRevision-prop
        segments.now end.now ops.now },
}

impl<'a> Revision<'a> {
    /// A run's segments and end, beside the operations that replace its own.
    pub fn of(
        segments: &'a Segments,
        end: &'a Heap,
        ops: &'a Listing<'a>,
        guesses: &'a [ChunkRun],
    ) -> Self
        requires kept { IsKept segments.now end.now }
        requires base { ops.now.base ≡ trace_of segments.now }
        requires trace { IsTrace ops.now.ops }
        ensures segments { result.segments.now ≡ segments.now }
        ensures end { result.end.now ≡ end.now }
        ensures ops { result.ops.now ≡ ops.now }
        ensures guesses { result.guesses.now ≡ guesses.now }
    {
        Revision {
            segments,
            end,
            ops,
            guesses,
        }
    }
}
