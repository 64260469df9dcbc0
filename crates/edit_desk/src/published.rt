//! A version of the trace, with its run.
ghost use Rattle.std.specs.Prelude.{◌≡◌, ◌<◌, ◌≤◌, [], length, IfOk, IfErr, IsErr, Ok, Err};
ghost use Rattle.run_engine.specs.Edited.{edited_by, IsFaultOf};
ghost use Rattle.mark_shelf.specs.Shelf.{Shelf, empty_shelf};
ghost use Rattle.run_engine.specs.GivenUp.{AreMarksKept};
ghost use Rattle.run_engine.specs.Guesses.{with_guesses};
ghost use Rattle.run_engine.specs.Steps.{AreSteppedFrom};
ghost use Rattle.edit_desk.specs.Versions.{ReplaysWithin};
ghost use Rattle.run_engine.specs.declared.editing.faults.RunFault.TheVariants.{EmptyBatch, TooManyEdits};
ghost use Rattle.trace_reader.specs.Writing.{lines_text};

use crate::kept::KEPT_MARKS;
use mark_shelf::MarkShelf;
use op_step::{ChunkRun, Meter};
use run_engine::{Run, RunFault, try_size};
use std::alloc::{AllocError, Global};
use std::marker::Model;
use std::sync::Arc;
use trace_reader::write_trace;
use trace_types::edits::Batch;
use trace_types::limits::MAX_EDITS;

/// A version of the trace, with its run. A share of it has the same run, which is not copied.
#[derive(Drop)]
pub struct Published {
    version: u32,
    run: Arc<Run>,
}

impl Model for Published {
    ghost use Rattle.std.specs.Arc.{arc_value};
    ghost use Rattle.edit_desk.specs.Versions.{Version};

    ghost Value = { Version };

    ghost view = { λ p. record { version = p.version; run = arc_value p.run } };
}

impl Published {
    pub(crate) fn new(alloc: Global, version: u32, run: Run) -> Result<Published, AllocError>
        ensures { IfOk result (λ p. p ≡ record { version = version; run = run }) }
    {
        Ok(Published {
            version,
            run: Arc::new(alloc, run)?,
        })
    }

    /// The version: how many requests were accepted before.
    pub fn version(&self) -> u32
        ensures { result ≡ self.now.version }
    {
        self.version
    }

    /// The run of the trace.
    pub fn run(&self) -> &Run
        ensures { result.now ≡ self.now.run }
    {
        &self.run
    }

    /// The same version again. Copies nothing of the run.
    pub fn share(&self) -> Result<Published, AllocError>
        ensures { IfOk result (λ p. p ≡ self.now) }
    {
        Ok(Published {
            version: self.version,
            run: Arc::try_clone(&self.run)?,
        })
    }
}

/// The run of the version's trace after edits, which guesses may serve. The meter rises and the shelf is touched as with `Run::edited`.
pub(crate) fn revised(
    alloc: Global,
    published: &Published,
    batch: &Batch,
    guesses: Vec<ChunkRun>,
    shelf: &mut MarkShelf,
    meter: &mut Meter,
) -> Result<Run, RunFault>
    ensures trace { IfOk result (λ r. edited_by published.now.run.trace batch.now ≡ Ok r.trace) }
    ensures marks { IfOk result
        (λ r. AreMarksKept guesses.items published.now.run r shelf.old shelf.new) }
    ensures fault { IfErr result (IsFaultOf (edited_by published.now.run.trace batch.now)) }
    ensures empty { length batch.now ≡ 0 → result ≡ Err EmptyBatch }
    ensures too_many { MAX_EDITS < length batch.now → result ≡ Err TooManyEdits }
    ensures bound { ReplaysWithin published.now.run.trace published.now.run.marks batch.now
        meter.old meter.new }
    ensures stepped { IfOk result
        (λ r. AreSteppedFrom published.now.run.trace r.trace published.now.run.marks
        (with_guesses guesses.items shelf.old.chunks) meter.old meter.new) }
    ensures refused { IsErr (edited_by published.now.run.trace batch.now) → meter.new ≡ meter.old }
    ensures refused_shelf { IsErr (edited_by published.now.run.trace batch.now) →
        shelf.new ≡ shelf.old }
    ensures never_less { meter.old ≤ meter.new }
{
    published.run.edited(alloc, batch, guesses, shelf, meter)
}

/// The run of the version's trace after edits, which nobody else sees, over a shelf of its own, which has room for as many
/// checkpoints as a desk's. The meter rises as with `Run::edited`.
pub fn what_if(
    alloc: Global,
    published: &Published,
    batch: &Batch,
    meter: &mut Meter,
) -> Result<Run, RunFault>
    ensures trace { IfOk result (λ r. edited_by published.now.run.trace batch.now ≡ Ok r.trace) }
    ensures marks { IfOk result
        (λ r. (after : Shelf) × AreMarksKept [] published.now.run r
        (empty_shelf KEPT_MARKS 1 1) after) }
    ensures fault { IfErr result (IsFaultOf (edited_by published.now.run.trace batch.now)) }
    ensures empty { length batch.now ≡ 0 → result ≡ Err EmptyBatch }
    ensures too_many { MAX_EDITS < length batch.now → result ≡ Err TooManyEdits }
    ensures bound { ReplaysWithin published.now.run.trace published.now.run.marks batch.now
        meter.old meter.new }
    ensures stepped { IfOk result
        (λ r. AreSteppedFrom published.now.run.trace r.trace published.now.run.marks []
        meter.old meter.new) }
    ensures refused { IsErr (edited_by published.now.run.trace batch.now) → meter.new ≡ meter.old }
    ensures never_less { meter.old ≤ meter.new }
{
    try_size(batch.len())?;
    let mut shelf = MarkShelf::new(alloc, KEPT_MARKS, 1, 1)?;
    revised(alloc, published, batch, Vec::new(alloc), &mut shelf, meter)
}

/// The canonical lines of a run's trace.
pub fn export(alloc: Global, run: &Run) -> Result<Vec<u8>, AllocError>
    ensures { IfOk result (λ text. text.items ≡ lines_text run.now.trace) }
{
    write_trace(alloc, &run.trace(alloc)?)
}
