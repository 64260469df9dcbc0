//! What was replayed so far, and what comes after it.
ghost use Rattle.std.specs.Prelude.{◌≡◌, ◌++◌, ◌+◌, ◌^◌, ◌<◌, ◌≤◌, ℕ, List, ◌∷◌, [], IfOk, OnOk, IfSome, IsTrue, length};
ghost use Rattle.std.specs.Arc.{arc_value};
ghost use Rattle.std.specs.Map.{lookup};
ghost use Rattle.trace_types.specs.Trace.{has_distinct_numbers};
ghost use Rattle.ownership_model.specs.Step.{end_from, AreUnused};
ghost use Rattle.op_step.specs.Meter.{raised};
ghost use Rattle.op_step.specs.Chunk.{Chunk};
ghost use Rattle.mark_shelf.specs.Joints.{EndsWith};
ghost use Rattle.mark_shelf.specs.Shelf.{name_of, name_eq};
ghost use Rattle.run_engine.specs.Segments.{HasBare, IsPiece};
ghost use Rattle.run_engine.specs.Memo.{IsAmong, IsSearched};
ghost use Rattle.run_engine.specs.inner.Origins.{stepped_chunk, behind_of, shelf_number};
ghost use Rattle.run_engine.specs.inner.Placed.{IsPlaced, IsNext};
ghost use Rattle.run_engine.specs.declared.replay.origin.Behind.TheVariants.{Stepped};
ghost use Rattle.run_engine.specs.inner.Metered.{IsMetered};

use crate::replay::anchors::Anchoring;
use crate::replay::fresh::Fresh;
use crate::replay::origin::{Behind, Origin};
use crate::segments::blocks::Segments;
use crate::segments::segment::Segment;
use mark_shelf::{MarkShelf, finds_what_was_there};
use object_heap::Heap;
use op_step::{ChunkRun, Meter, replay_told, run_of};
use std::alloc::{AllocError, Global};
use std::collections::BTreeSet;
use std::sync::Arc;
use trace_types::ops::Op;

/// How many operations stand between neighbouring checkpoints where they are stepped.
pub const STRIDE: usize = 64;

/// The prefix of a trace that was replayed so far: its segments, the heap after them, and how many operations they have. Beside them the
/// chunks that were stepped for it, what is known to end with that heap, the names that the shelf has answered, and where the next anchor is due.
#[derive(Drop)]
pub struct Prefix {
    pub segments: Segments,
    pub end: Heap,
    pub len: usize,
    pub fresh: Fresh,
    pub behind: Behind,
    pub answered: BTreeSet<u32>,
    pub anchoring: Anchoring,
}

/// What a replay goes on with: its segments, the heap after them, how many operations they have, where they come from, and whether the old run
/// has an anchor where they end.
#[derive(Drop)]
pub struct NextStretch {
    pub segments: Segments,
    pub end: Heap,
    pub len: usize,
    pub origin: Origin,
    pub to_anchor: bool,
}

impl NextStretch {
    /// A chunk to go on with, with an anchor where it begins and with a filter of what it touches if these are wanted.
    /// Whether it was stepped, or which of the shelf's it is, is for
    /// the caller to say.
    pub fn of(
        alloc: Global,
        chunk: &ChunkRun,
        is_anchored: bool,
        is_filtered: bool,
    ) -> Result<Self, AllocError>
        requires { 0 < length chunk.now.ops }
        ensures piece { IfOk result
            (λ p. IsPiece chunk.now.start chunk.now.ops p.segments p.end p.len) }
        ensures whole { IfOk result (λ p. p.len ≡ length chunk.now.ops) }
        ensures end { IfOk result (λ p. p.end ≡ end_from chunk.now.start chunk.now.ops) }
    {
        let segment = Segment::of(alloc, chunk, is_anchored)?;
        let filtered = segment.filtered(alloc, is_filtered)?;
        let segments = Segments::empty(alloc).push(alloc, filtered)?;
        Ok(NextStretch {
            segments,
            end: chunk.end().share()?,
            len: chunk.ops().len(),
            origin: Origin::Old,
            to_anchor: false,
        })
    }
}

/// A prefix and what follows it, with the answered names of the prefix.
pub fn joined(alloc: Global, prefix: Prefix, next: NextStretch) -> Result<Prefix, AllocError>
    requires fits { prefix.len + next.len < 2 ^ 64 }
    requires behind { prefix.behind ≡ Stepped →
        IfSome (stepped_chunk next.origin) (λ c. IfSome prefix.fresh (λ s. s ≡ c.start)) }
    ensures segments { IfOk result
        (λ p. p.segments ≡ prefix.segments ++ next.segments) }
    ensures end { IfOk result (λ p. p.end ≡ next.end) }
    ensures len { IfOk result (λ p. p.len ≡ prefix.len + next.len) }
    ensures behind { IfOk result (λ p. p.behind ≡ behind_of next.origin) }
    ensures answered { IfOk result (λ p. p.answered ≡ prefix.answered) }
    ensures placed { (chunks : List (ℕ × Chunk)) → IsNext chunks prefix.end next →
        IfOk result (IsPlaced chunks) }
{
    let segments = prefix.segments.append(alloc, next.segments)?;
    let mut fresh = prefix.fresh;
    let behind = fresh.go_on(prefix.behind, next.origin)?;
    let len = prefix.len + next.len;
    let anchoring = prefix
        .anchoring
        .behind(prefix.len)
        .anew(len, next.to_anchor);
    Ok(Prefix {
        segments,
        end: next.end,
        len,
        fresh,
        behind,
        answered: prefix.answered,
        anchoring,
    })
}

/// Steps all the operations, to go on with their chunk, with an anchor where they begin and with a filter of what they touch if these are wanted.
pub fn stepped(
    alloc: Global,
    heap: &Heap,
    ops: Arc<Vec<Op>>,
    is_anchored: bool,
    is_filtered: bool,
    meter: &mut Meter,
) -> Result<NextStretch, AllocError>
    requires some { 0 < length (arc_value ops).items }
    requires distinct { IsTrue (has_distinct_numbers (arc_value ops).items) }
    requires unused { AreUnused heap.now (arc_value ops).items }
    ensures piece { IfOk result (λ p. IsPiece heap.now (arc_value ops).items p.segments p.end p.len) }
    ensures whole { IfOk result (λ p. p.len ≡ length (arc_value ops).items) }
    ensures count { IfOk result (λ p. meter.new ≡ raised meter.old p.len) }
    ensures metered { IsMetered meter.old meter.new 0 (length (arc_value ops).items) }
    ensures next { (chunks : List (ℕ × Chunk)) → IfOk result (IsNext chunks heap.now) }
{
    let chunk = run_of(alloc, heap, ops, meter)?;
    let mut piece = NextStretch::of(alloc, &chunk, is_anchored, is_filtered)?;
    piece.origin = Origin::Stepped(chunk);
    Ok(piece)
}

/// A chunk that the shelf has, which begins with this heap and has these operations, to go on with. The heap may be known to be that at
/// which the shelf's chunk with a number ends. It gets an anchor where it begins if that is wanted.
pub fn found(
    alloc: Global,
    heap: &Heap,
    ops: &[Op],
    before: Option<u64>,
    is_anchored: bool,
    shelf: &mut MarkShelf,
) -> Result<Option<NextStretch>, AllocError>
    requires some { 0 < length ops.now }
    requires before { IfSome before (λ k. EndsWith shelf.old.chunks k heap.now) }
    ensures piece { IfOk result
        (λ o. IfSome o (λ p. IsPiece heap.now ops.now p.segments p.end p.len)) }
    ensures whole { IfOk result (λ o. IfSome o (λ p. p.len ≡ length ops.now)) }
    ensures there { IfOk result (λ o. IfSome o (λ _. IsAmong shelf.old.chunks heap.now ops.now)) }
    ensures number { IfOk result (λ o. IfSome o (λ p.
        lookup (name_eq (name_of ops.now)) shelf.old.names ≡ shelf_number (behind_of p.origin))) }
    ensures next { IfOk result (λ o. IfSome o (IsNext shelf.new.chunks heap.now)) }
    ensures searched { IsSearched shelf.old shelf.new }
{
    finds_what_was_there();
    let Some(found) = shelf.find_behind(heap, ops, before) else {
        return Ok(None);
    };
    let mut piece = NextStretch::of(alloc, &found.chunk, is_anchored, false)?;
    piece.origin = Origin::Shelf(found.number);
    Ok(Some(piece))
}

/// Goes on behind a prefix by operations, all of which are stepped on the prefix's own heap: they have no checkpoint where they begin, and
/// no chunk, but an anchor if one is given, and a filter of what they touch if that is wanted.
pub fn replayed_on(
    alloc: Global,
    prefix: Prefix,
    ops: Arc<Vec<Op>>,
    anchor: Option<Heap>,
    is_filtered: bool,
    meter: &mut Meter,
) -> Result<Prefix, AllocError>
    requires fits { prefix.len + length (arc_value ops).items < 2 ^ 64 }
    requires distinct { IsTrue (has_distinct_numbers (arc_value ops).items) }
    requires unused { AreUnused prefix.end (arc_value ops).items }
    ensures segments { IfOk result
        (λ p. HasBare prefix.segments anchor prefix.end (arc_value ops).items p.segments) }
    ensures end { IfOk result (λ p. p.end ≡ end_from prefix.end (arc_value ops).items) }
    ensures len { IfOk result (λ p. p.len ≡ prefix.len + length (arc_value ops).items) }
    ensures answered { IfOk result (λ p. p.answered ≡ prefix.answered) }
    ensures placed { (chunks : List (ℕ × Chunk)) → IfOk result (IsPlaced chunks) }
    ensures count { OnOk result (meter.new ≡ raised meter.old (length (arc_value ops).items)) }
    ensures metered { IsMetered meter.old meter.new 0 (length (arc_value ops).items) }
{
    let len = prefix.len + ops.len();
    let anchoring = prefix.anchoring.behind(prefix.len);
    prefix.end.show_sound();
    let mut told = Vec::new(alloc);
    let (outcomes, end) = replay_told(alloc, prefix.end, ops.as_slice(), meter, &mut told)?;
    let bare = Segment::bare(alloc, anchor, ops, outcomes, told)?;
    let filtered = bare.filtered(alloc, is_filtered)?;
    let segments = prefix.segments.push(alloc, filtered)?;
    Ok(Prefix {
        segments,
        end,
        len,
        fresh: prefix.fresh,
        behind: Behind::Nothing,
        answered: prefix.answered,
        anchoring,
    })
}
