//! A stretch of operations that is still to be replayed from a heap.
ghost use Rattle.std.specs.Prelude.{◌≡◌, IfOk, IsTrue};
ghost use Rattle.trace_types.specs.Trace.{has_distinct_numbers};
ghost use Rattle.ownership_model.specs.Step.{AreUnused};

use crate::chunk_run::{ChunkRun, run};
use crate::meter::Meter;
use object_heap::Heap;
use std::alloc::{AllocError, Global};
use std::marker::Model;
use trace_types::ops::Op;

/// Operations with distinct numbers, of which no object of the start has one, to be replayed from the start. Contracts see it
/// as the chunk that its replay is.
#[derive(Drop)]
pub struct Job {
    start: Heap,
    ops: Vec<Op>,
}

impl Model for Job {
    ghost use Rattle.std.specs.Prelude.{IsTrue};
    ghost use Rattle.trace_types.specs.Trace.{has_distinct_numbers};
    ghost use Rattle.ownership_model.specs.Step.{AreUnused};
    ghost use Rattle.op_step.specs.Chunk.{Chunk, chunk_code};

    ghost Value = { Chunk };

    ghost coded = { chunk_code };

    ghost view = { λ j. record { start = j.start; ops = j.ops.items } };

    ghost invariant = { λ j. IsTrue (has_distinct_numbers j.ops.items) × AreUnused j.start j.ops.items };
}

impl Job {
    /// A job of these operations. Their numbers are distinct, and no object of the heap has one of them.
    pub fn new(start: Heap, ops: Vec<Op>) -> Job
        requires distinct { IsTrue (has_distinct_numbers ops.items) }
        requires unused { AreUnused start ops.items }
        ensures { result ≡ record { start = start; ops = ops.items } }
    {
        Job { start, ops }
    }

    /// The heap before the first operation.
    pub fn start(&self) -> &Heap
        ensures { result.now ≡ self.now.start }
    {
        &self.start
    }

    /// The operations, in order. By its clauses a caller knows that their numbers are distinct and that no object of
    /// the start has one.
    pub fn ops(&self) -> &[Op]
        ensures value { result.now ≡ self.now.ops }
        ensures distinct { IsTrue (has_distinct_numbers self.now.ops) }
        ensures unused { AreUnused self.now.start self.now.ops }
    {
        self.ops.as_slice()
    }

    /// Replays the operations from the start, with a meter of its own.
    pub fn run(&self, alloc: Global) -> Result<ChunkRun, AllocError>
        ensures { IfOk result (λ c. c ≡ self.now) }
    {
        run(alloc, &self.start, self.ops.as_slice(), &mut Meter::new())
    }
}
