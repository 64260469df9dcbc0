//! A run of a trace.
ghost use Rattle.std.specs.Prelude.{◌≡◌, ℕ, ◌+◌, ◌<◌, ◌≤◌, OnOk, List, Contains, length, slice_get, fold, IfOk, IfErr, IsTrue, IsErr, ◌↔◌, if◌then◌else◌, Ok, Err};
ghost use Rattle.std.specs.Option.{option_copied};
ghost use Rattle.std.specs.Ordering.{nat_cmp};
ghost use Rattle.std.specs.BTreeSet.{contains};
ghost use Rattle.trace_types.specs.Operation.{Operation};
ghost use Rattle.trace_types.specs.Stretches.{ops_of, outcomes_of};
ghost use Rattle.ownership_model.specs.State.{nothing_held};
ghost use Rattle.ownership_model.specs.Step.{end_from, outcomes_from};
ghost use Rattle.op_step.specs.Meter.{raised};
ghost use Rattle.run_engine.specs.declared.editing.faults.RunFault.TheVariants.{EmptyBatch, TooManyEdits};
ghost use Rattle.run_engine.specs.Edited.{edited_by, IsFaultOf};
ghost use Rattle.run_engine.specs.Segments.{without, IsInner};
ghost use Rattle.run_engine.specs.Marks.{load_marks};
ghost use Rattle.run_engine.specs.Bounds.{StepsAtMostFrom};
ghost use Rattle.run_engine.specs.inner.Onward.{AreNames};
ghost use Rattle.run_engine.specs.GivenUp.{given_up, names_at, IsTouched, AreMarksKept};
ghost use Rattle.run_engine.specs.Guesses.{with_guesses};
ghost use Rattle.run_engine.specs.Jobs.{AreJobsOf};
ghost use Rattle.run_engine.specs.RunView.{load_view};
ghost use Rattle.run_engine.specs.Steps.{AreRising, AreSteppedFrom};

use crate::editing::edits::{copied, edited, try_size};
use crate::editing::faults::RunFault;
use crate::editing::listing::Listing;
use crate::editing::original::Original;
use crate::jobs::begins::edited_shifting;
use crate::jobs::changed::changed;
use crate::replay::fresh::remember_all;
use crate::replay::loading::{given_up_in, loaded};
use crate::replay::replaced::Replaced;
use crate::replay::restart::resumed;
use crate::segments::blocks::Segments;
use crate::segments::contents::{marks_in, outcomes_in, stretches_in};
use crate::segments::names::clear_named;
use crate::segments::seek::{op_at, outcome_at, segment_at};
use mark_shelf::MarkShelf;
use object_heap::Heap;
use op_step::{ChunkRun, Job, Meter};
use std::alloc::{AllocError, Global};
use std::collections::BTreeSet;
use std::marker::Model;
use trace_types::edits::Batch;
use trace_types::limits::{MAX_EDITS, MAX_OPS};
use trace_types::ops::Op;
use trace_types::outcomes::Outcome;
use trace_types::sequence::Sequence;
use trace_types::stretches::Stretch;
use trace_types::trace::Trace;

/// The replay of a trace, with its outcomes and heaps at some positions, its checkpoints. Contracts see the trace and
/// the rising positions of the checkpoints, 0 and the end among them.
///
/// The outcomes, the end and each checkpoint are those of the trace's replay. A long run has anchors as well: some heaps spread over it, of which no
/// call tells, from which an edit's replay goes on. The versions of a run share what they have
/// in common: an edit copies no operation of a stretch that stays.
#[derive(Drop)]
pub struct Run {
    segments: Segments,
    end: Heap,
}

impl Model for Run {
    ghost use Rattle.run_engine.specs.RunView.{RunView, run_code};
    ghost use Rattle.run_engine.specs.Segments.{trace_of, all_marks, IsKept};

    ghost Value = { RunView };

    ghost coded = { run_code };

    ghost view = { λ r. record {
      trace = trace_of r.segments;
      marks = all_marks r.segments;
    } };

    ghost invariant = { λ r. IsKept r.segments r.end };
}

impl Run {
    /// The replay of a trace, with checkpoints at all multiples of 64 and at the end. The meter rises by the
    /// operations, and where memory runs out by at most that.
    pub fn load(alloc: Global, trace: &Trace, meter: &mut Meter) -> Result<Run, AllocError>
        ensures trace { IfOk result (λ r. r.trace ≡ trace.now) }
        ensures marks { IfOk result (λ r. r.marks ≡ load_marks (length trace.now)) }
        ensures count { IfOk result (λ r. meter.new ≡ raised meter.old (length trace.now)) }
        ensures never_less { meter.old ≤ meter.new }
        ensures rise { meter.new ≤ meter.old + length trace.now }
    {
        let replay = loaded(alloc, trace.as_slice(), &[], meter)?;
        Ok(Run {
            segments: replay.segments,
            end: replay.end,
        })
    }

    /// As `load`, where the shelf is touched with the names of the inner checkpoints, in rising position, and each checkpoint is
    /// given up whose name it answers: none of these is kept on the way either. Where memory runs out, the shelf may have been touched.
    pub fn load_kept(
        alloc: Global,
        trace: &Trace,
        shelf: &mut MarkShelf,
        meter: &mut Meter,
    ) -> Result<Run, AllocError>
        ensures touched { IfOk result (λ r.
            IsTouched (load_view trace.now) r shelf.old shelf.new
            (names_at trace.now (load_marks (length trace.now)))) }
        ensures count { OnOk result (meter.new ≡ raised meter.old (length trace.now)) }
        ensures never_less { meter.old ≤ meter.new }
        ensures rise { meter.new ≤ meter.old + length trace.now }
    {
        let given_up = given_up_in(alloc, trace, shelf)?;
        let replay = loaded(alloc, trace.as_slice(), &given_up, meter)?;
        Ok(Run {
            segments: replay.segments,
            end: replay.end,
        })
    }

    /// The run of the trace after the edits. This run stays as it is.
    ///
    /// The size of the batch is tried first, which takes no memory. Then the edits are tried in order, each on the result
    /// of those before it. The replay begins again at the greatest checkpoint at or before the first operation that
    /// differs. It takes guesses, chunks of the shelf and old stretches that begin with the same heap and have the same
    /// operations. Behind the last operation that differs it also takes old stretches that touch nothing at which the heaps
    /// differ. It stops at the first old checkpoint there at which the heaps agree on all that can be reached. From there on
    /// the old outcomes stay, and what can't be reached is exchanged in the checkpoints and the end. The meter rises by the
    /// operations stepped, and where memory runs out by at most those up to the stop.
    ///
    /// The shelf is touched with the names of the inner checkpoints from the restart to the stop, ahead of the steps where they
    /// are known, and each checkpoint is given up whose name it answers. In the end it remembers the old stretches that were gone
    /// over anew and the chunks that were stepped behind a checkpoint, the last ones, as many as it has room for. A refusal of the edits leaves the shelf as it was. Where memory runs out, it may have been touched.
    pub fn edited(
        &self,
        alloc: Global,
        batch: &Batch,
        guesses: Vec<ChunkRun>,
        shelf: &mut MarkShelf,
        meter: &mut Meter,
    ) -> Result<Run, RunFault>
        ensures trace { IfOk result (λ r. edited_by self.now.trace batch.now ≡ Ok r.trace) }
        ensures marks { IfOk result
            (λ r. AreMarksKept guesses.items self.now r shelf.old shelf.new) }
        ensures fault { IfErr result (IsFaultOf (edited_by self.now.trace batch.now)) }
        ensures empty { length batch.now ≡ 0 → result ≡ Err EmptyBatch }
        ensures too_many { MAX_EDITS < length batch.now → result ≡ Err TooManyEdits }
        ensures bound { (ops : List Operation) → edited_by self.now.trace batch.now ≡ Ok ops →
            StepsAtMostFrom self.now.trace ops self.now.marks meter.old meter.new }
        ensures stepped { IfOk result (λ r.
            AreSteppedFrom self.now.trace r.trace self.now.marks
            (with_guesses guesses.items shelf.old.chunks) meter.old meter.new) }
        ensures refused { IsErr (edited_by self.now.trace batch.now) → meter.new ≡ meter.old }
        ensures refused_shelf { IsErr (edited_by self.now.trace batch.now) → shelf.new ≡ shelf.old }
        ensures never_less { meter.old ≤ meter.new }
    {
        try_size(batch.len())?;
        let original = Original::of_segments(&self.segments);
        let listed = Listing::of(alloc, original)?;
        let ops = edited(listed, batch.as_slice())?;
        let mut replaced = Replaced::none(alloc);
        let replay = resumed(
            alloc,
            &self.segments,
            &self.end,
            &ops,
            &guesses,
            &mut replaced,
            shelf,
            meter,
        )?;
        let mut run = Run {
            segments: replay.segments,
            end: replay.end,
        };
        run.give_up_named(&replay.answered);
        let run = run.renewed(alloc)?;
        remember_all(shelf, replay.fresh, replaced.into_chunks());
        Ok(run)
    }

    /// The stretches between neighbouring checkpoints that the edits change, as jobs: each with its checkpoint and its operations after the
    /// edits, in order. What begins at the end is a stretch, too.
    ///
    /// An operation that is inserted where stretches meet belongs to the last that begins there. A stretch gives no job if an object of its
    /// checkpoint has the number of one of its new operations. The size of the batch is tried first, which takes no memory, and then
    /// the edits, as with `edited`.
    pub fn jobs(&self, alloc: Global, batch: &Batch) -> Result<Vec<Job>, RunFault>
        ensures jobs { IfOk result (λ v. AreJobsOf self.now batch.now v.items) }
        ensures fault { IfErr result (IsFaultOf (edited_by self.now.trace batch.now)) }
        ensures empty { length batch.now ≡ 0 → result ≡ Err EmptyBatch }
        ensures too_many { MAX_EDITS < length batch.now → result ≡ Err TooManyEdits }
    {
        try_size(batch.len())?;
        let original = Original::of_segments(&self.segments);
        let listed = Listing::of(alloc, original)?;
        let (ops, shifts) = edited_shifting(alloc, listed, batch.as_slice())?;
        let jobs = changed(alloc, &self.segments, &self.end, &ops, &shifts)?;
        Ok(jobs)
    }

    /// Gives up the checkpoint at a position, if it is an inner one, and tells whether it was. Takes no memory.
    pub fn give_up(&mut self, position: usize) -> bool
        ensures trace { self.new.trace ≡ self.old.trace }
        ensures answer { IsTrue result ↔ IsInner self.old.marks (length self.old.trace) position }
        ensures marks { self.new.marks
            ≡ (if result then without position self.old.marks else self.old.marks) }
    {
        match segment_at(&self.segments, position) {
            None => false,
            Some(i) => {
                if i == 0 {
                    return false;
                }
                self.segments.clear_mark(i)
            }
        }
    }

    // Gives up the inner checkpoints with these names, in one pass.
    fn give_up_named(&mut self, answered: &BTreeSet<u32>)
        ensures trace { self.new.trace ≡ self.old.trace }
        ensures marks { (names : List ℕ) → AreNames (contains nat_cmp answered.now) names →
            self.new.marks ≡ fold (given_up self.old.trace) self.old.marks names }
    {
        clear_named(&mut self.segments, answered);
    }

    // The same run, without the heaps of checkpoints that are given up.
    fn renewed(self, alloc: Global) -> Result<Run, AllocError>
        ensures { IfOk result (λ r. r ≡ self) }
    {
        Ok(Run {
            segments: self.segments.renewed(alloc)?,
            end: self.end,
        })
    }

    /// How many operations the trace has.
    pub fn len(&self) -> usize
        ensures { result ≡ length self.now.trace }
    {
        self.segments.ops_len()
    }

    /// The operation at a place, from 0.
    pub fn op(&self, place: usize) -> Option<&Op>
        ensures { option_copied result ≡ slice_get self.now.trace place }
    {
        op_at(&self.segments, place)
    }

    /// The outcome of the operation at a place, from 0.
    pub fn outcome(&self, place: usize) -> Option<&Outcome>
        ensures { option_copied result
            ≡ slice_get (outcomes_from nothing_held self.now.trace) place }
    {
        outcome_at(&self.segments, place)
    }

    /// The heap after all operations.
    pub fn end(&self) -> &Heap
        ensures { result.now ≡ end_from nothing_held self.now.trace }
    {
        &self.end
    }

    /// A copy of the trace.
    pub fn trace(&self, alloc: Global) -> Result<Trace, AllocError>
        ensures { IfOk result (λ t. t ≡ self.now.trace) }
    {
        let original = Original::of_segments(&self.segments);
        let ops = Listing::of(alloc, original)?;
        copied(alloc, &ops)
    }

    /// The operations with their outcomes, where they stand, in stretches one behind the other. By its clauses a caller
    /// knows that there are at most `MAX_OPS`.
    pub fn stretches(&self, alloc: Global) -> Result<Vec<Stretch<'_>>, AllocError>
        ensures ops { IfOk result (λ v. ops_of v.items ≡ self.now.trace) }
        ensures outcomes { IfOk result
            (λ v. outcomes_of v.items ≡ outcomes_from nothing_held self.now.trace) }
        ensures few { length self.now.trace ≤ MAX_OPS }
    {
        let stretches = stretches_in(alloc, &self.segments)?;
        Ok(stretches)
    }

    /// Copies of the outcomes, in order.
    pub fn outcomes(&self, alloc: Global) -> Result<Sequence<Outcome>, AllocError>
        ensures { IfOk result (λ v. v ≡ outcomes_from nothing_held self.now.trace) }
    {
        let outcomes = outcomes_in(alloc, &self.segments)?;
        Ok(outcomes)
    }

    /// The positions of the kept checkpoints. By its clauses a caller knows that they rise, and that 0 and the end are
    /// among them.
    pub fn marks(&self, alloc: Global) -> Result<Sequence<usize>, AllocError>
        ensures marks { IfOk result (λ v. v ≡ self.now.marks) }
        ensures rising { AreRising 0 (length self.now.trace + 1) self.now.marks }
        ensures first { Contains self.now.marks 0 }
        ensures last { Contains self.now.marks (length self.now.trace) }
    {
        marks_in(alloc, &self.segments)
    }
}
