//! A stretch of operations that was replayed from a heap.
ghost use Rattle.std.specs.Prelude.{◌≡◌, ◌≤◌, ◌+◌, IfOk, OnOk, IsTrue, length};
ghost use Rattle.std.specs.Arc.{arc_value};
ghost use Rattle.trace_types.specs.Trace.{has_distinct_numbers};
ghost use Rattle.ownership_model.specs.Step.{outcomes_from, end_from, AreUnused};
ghost use Rattle.heap_difference.specs.KeySets.{set_of};
ghost use Rattle.heap_difference.specs.Laws.{HasTouched};
ghost use Rattle.heap_difference.specs.Naming.{with_names};
ghost use Rattle.op_step.specs.Chunk.{IsReplayOf};
ghost use Rattle.op_step.specs.Meter.{raised};

use crate::meter::Meter;
use crate::replay::replay_told;
use object_heap::Heap;
use ownership_model::Key;
use std::alloc::{AllocError, Global};
use std::marker::Model;
use std::sync::Arc;
use trace_types::ops::Op;
use trace_types::outcomes::Outcome;
use trace_types::sequence::Sequence;

/// Operations that were replayed, with their outcomes. Who replays the same operations again from elsewhere may share them.
#[derive(Drop)]
pub struct Replayed {
    pub ops: Arc<Vec<Op>>,
    pub outcomes: Sequence<Outcome>,
}

/// Operations with distinct numbers, of which no object of the start has one, with what their replay from the start
/// gives: their outcomes, and the heap in the end. Contracts see the start and the operations, which tell the rest.
#[derive(Drop)]
pub struct ChunkRun {
    start: Heap,
    replayed: Arc<Replayed>,
    end: Heap,
    // what the operations touch, move or copy, and neither they nor their outcomes name, as their replay told it
    keys: Arc<Vec<Key>>,
}

impl Model for ChunkRun {
    ghost use Rattle.std.specs.Arc.{arc_value};
    ghost use Rattle.heap_difference.specs.KeySets.{set_of};
    ghost use Rattle.heap_difference.specs.Laws.{HasTouched};
    ghost use Rattle.heap_difference.specs.Naming.{with_names};
    ghost use Rattle.op_step.specs.Chunk.{Chunk, chunk_code, IsReplayOf};

    ghost Value = { Chunk };

    ghost coded = { chunk_code };

    ghost view = { λ c. record { start = c.start; ops = (arc_value (arc_value c.replayed).ops).items } };

    ghost invariant = { λ c. IsReplayOf (record {
      start = c.start;
      ops = (arc_value (arc_value c.replayed).ops).items;
    }) (arc_value c.replayed).outcomes c.end
        × HasTouched (set_of (with_names (arc_value c.keys).items (arc_value (arc_value c.replayed).ops).items
        (arc_value c.replayed).outcomes)) c.start (arc_value (arc_value c.replayed).ops).items };
}

/// Replays operations from a heap. Their numbers are distinct, and no object of the heap has one of them.
///
/// The meter is raised by the number of operations, and where memory runs out by at most that.
pub fn run(
    alloc: Global,
    start: &Heap,
    ops: &[Op],
    meter: &mut Meter,
) -> Result<ChunkRun, AllocError>
    requires distinct { IsTrue (has_distinct_numbers ops.now) }
    requires unused { AreUnused start.now ops.now }
    ensures chunk { IfOk result (λ c. c ≡ record { start = start.now; ops = ops.now }) }
    ensures counted { OnOk result (meter.new ≡ raised meter.old (length ops.now)) }
    ensures never_less { meter.old ≤ meter.new }
    ensures never_more { meter.new ≤ meter.old + length ops.now }
{
    let copies = Arc::new(alloc, copy_ops(alloc, ops)?)?;
    run_of(alloc, start, copies, meter)
}

/// As `run`, of operations that it shares: none is copied.
pub fn run_of(
    alloc: Global,
    start: &Heap,
    ops: Arc<Vec<Op>>,
    meter: &mut Meter,
) -> Result<ChunkRun, AllocError>
    requires distinct { IsTrue (has_distinct_numbers (arc_value ops).items) }
    requires unused { AreUnused start.now (arc_value ops).items }
    ensures chunk { IfOk result (λ c. c ≡ record { start = start.now; ops = (arc_value ops).items }) }
    ensures counted { OnOk result (meter.new ≡ raised meter.old (length (arc_value ops).items)) }
    ensures never_less { meter.old ≤ meter.new }
    ensures never_more { meter.new ≤ meter.old + length (arc_value ops).items }
{
    start.show_sound();
    // Room for two keys of each operation: the list grows where they are more.
    let mut told = Vec::with_capacity(alloc, ops.len().saturating_mul(2))?;
    let (outcomes, end) = replay_told(alloc, start.share()?, ops.as_slice(), meter, &mut told)?;
    let replayed = Replayed { ops, outcomes };
    Ok(ChunkRun {
        start: start.share()?,
        replayed: Arc::new(alloc, replayed)?,
        end,
        keys: Arc::new(alloc, told)?,
    })
}

/// The same operations again.
pub fn copy_ops(alloc: Global, ops: &[Op]) -> Result<Vec<Op>, AllocError>
    ensures { IfOk result (λ v. v.items ≡ ops.now) }
{
    let mut copies = Vec::with_capacity(alloc, ops.len())?;
    for op in ops {
        copies.push(op.clone()?)?;
    }
    Ok(copies)
}

impl ChunkRun {
    /// The chunk of operations that were replayed already: the heap where they begin, the operations with their outcomes, the heap behind them,
    /// and the keys that their replay told. Nothing is copied.
    pub fn of(start: Heap, replayed: Arc<Replayed>, end: Heap, keys: Arc<Vec<Key>>) -> ChunkRun
        requires replay { IsReplayOf (record { start = start; ops = (arc_value (arc_value replayed).ops).items })
            (arc_value replayed).outcomes end }
        requires touched { HasTouched (set_of (with_names (arc_value keys).items
            (arc_value (arc_value replayed).ops).items (arc_value replayed).outcomes)) start
            (arc_value (arc_value replayed).ops).items }
        ensures { result ≡ record { start = start; ops = (arc_value (arc_value replayed).ops).items } }
    {
        ChunkRun {
            start,
            replayed,
            end,
            keys,
        }
    }

    /// The heap before the first operation.
    pub fn start(&self) -> &Heap
        ensures { result.now ≡ self.now.start }
    {
        &self.start
    }

    /// The operations, in order. By its clauses a caller knows that their numbers are distinct and that no object of
    /// the start has one.
    pub fn ops(&self) -> &[Op]
        ensures value { result.now ≡ self.now.ops }
        ensures distinct { IsTrue (has_distinct_numbers self.now.ops) }
        ensures unused { AreUnused self.now.start self.now.ops }
    {
        self.replayed.ops.as_slice()
    }

    /// What the operations did, one outcome for each.
    pub fn outcomes(&self) -> &[Outcome]
        ensures { result.now ≡ outcomes_from self.now.start self.now.ops }
    {
        self.replayed.outcomes.as_slice()
    }

    /// The operations and their outcomes, which a share has without a copy.
    pub fn replayed(&self) -> &Arc<Replayed>
        ensures ops { (arc_value (arc_value result.now).ops).items ≡ self.now.ops }
        ensures outcomes { (arc_value result.now).outcomes
            ≡ outcomes_from self.now.start self.now.ops }
    {
        &self.replayed
    }

    /// The heap after the last operation.
    pub fn end(&self) -> &Heap
        ensures { result.now ≡ end_from self.now.start self.now.ops }
    {
        &self.end
    }

    /// With what the operations and their outcomes name these are all keys that the operations touch, move or copy, and perhaps more: as their
    /// replay told them, some more than once. A share has them without a copy.
    pub fn keys(&self) -> &Arc<Vec<Key>>
        ensures { HasTouched (set_of (with_names (arc_value result.now).items self.now.ops
            (outcomes_from self.now.start self.now.ops))) self.now.start self.now.ops }
    {
        &self.keys
    }

    /// The same chunk again. Copies no operation and no outcome.
    pub fn share(&self) -> Result<ChunkRun, AllocError>
        ensures { IfOk result (λ c. c ≡ self.now) }
    {
        Ok(ChunkRun {
            start: self.start.share()?,
            replayed: Arc::try_clone(&self.replayed)?,
            end: self.end.share()?,
            keys: Arc::try_clone(&self.keys)?,
        })
    }
}
