//! Runs of small traces, their edits, and what is asked of them.
ghost use Rattle.std.specs.Prelude.{◌<◌};

use crate::small_traces::{batch, two};
use edit_desk::{Desk, KEPT_CHUNKS, KEPT_MARKS, KEPT_NAMES};
use leak_report::find_leaks;
use mark_shelf::MarkShelf;
use object_heap::Heap;
use op_step::Meter;
use op_step::replay::replay;
use run_engine::{Run, RunFault};
use std::alloc::Global;
use std::process::Abort;
use std::test::Fail;
use trace_types::edits::{Batch, Edit};
use trace_types::outcomes::{Answer, Counts, Event, Outcome, Reason, Verdict};
use trace_types::trace::Trace;

pub fn run_of(alloc: Global, trace: Trace) -> Result<Run, Fail> {
    Ok(Run::load(alloc, &trace, &mut Meter::new())?)
}

/// Lends a shelf with room for so much.
pub fn with_shelf<F: FnOnce(&mut MarkShelf) -> Result<(), Fail>>(
    alloc: Global,
    marks: usize,
    chunks: usize,
    names: usize,
    judge: F,
) -> Result<(), Fail>
    requires some_marks { 0 < marks }
    requires some_chunks { 0 < chunks }
    requires some_names { 0 < names }
    requires judge { F.IsAlwaysCallable judge }
{
    let mut shelf = MarkShelf::new(alloc, marks, chunks, names)?;
    judge(&mut shelf)
}

/// Lends a desk that opens with a trace.
pub fn with_desk<F: FnOnce(&mut Desk) -> Result<(), Fail>>(
    alloc: Global,
    trace: Trace,
    judge: F,
) -> Result<(), Fail>
    requires { F.IsAlwaysCallable judge }
{
    let mut desk = Desk::open(alloc, trace)?;
    judge(&mut desk)
}

/// The run of the trace after edits, over a shelf of its own as large as a desk's.
pub fn edited_alone(
    run: &Run,
    alloc: Global,
    batch: &Batch,
    meter: &mut Meter,
) -> Result<Run, RunFault> {
    let mut shelf = MarkShelf::new(alloc, KEPT_MARKS, KEPT_CHUNKS, KEPT_NAMES)?;
    run.edited(alloc, batch, Vec::new(alloc), &mut shelf, meter)
}

// Such a run, and how many operations were stepped for it.
fn after_edits(alloc: Global, run: &Run, edits: Batch) -> Result<(Run, u64), Fail> {
    let mut meter = Meter::new();
    let edited = edited_alone(run, alloc, &edits, &mut meter)?;
    Ok((edited, meter.count()))
}

/// The run after one edit, and how many operations were stepped for it.
pub fn after(alloc: Global, run: &Run, edit: Edit) -> Result<(Run, u64), Fail> {
    after_edits(alloc, run, batch(alloc, edit)?)
}

/// The run after two edits, and how many operations were stepped for it.
pub fn after_two(alloc: Global, run: &Run, first: Edit, second: Edit) -> Result<(Run, u64), Fail> {
    after_edits(alloc, run, two(alloc, first, second)?)
}

/// Lends the run of a trace.
pub fn with_run<F: FnOnce(&Run) -> Result<(), Fail>>(
    alloc: Global,
    trace: Trace,
    judge: F,
) -> Result<(), Fail>
    requires { F.IsAlwaysCallable judge }
{
    let run = run_of(alloc, trace)?;
    judge(&run)
}

/// Lends the run after edits, and tells how many operations were stepped for it.
pub fn with_edited<F: FnOnce(&Run, u64) -> Result<(), Fail>>(
    alloc: Global,
    run: &Run,
    edits: Batch,
    judge: F,
) -> Result<(), Fail>
    requires { F.IsAlwaysCallable judge }
{
    let (edited, steps) = after_edits(alloc, run, edits)?;
    judge(&edited, steps)
}

/// Lends the run of a trace and the run after edits, and tells how many operations were stepped for these.
///
/// A run is dear to a proof wherever a function that owns one can end: so it is owned here alone, and judged where it is lent.
pub fn with_both<F: FnOnce(&Run, &Run, u64) -> Result<(), Fail>>(
    alloc: Global,
    trace: Trace,
    edits: Batch,
    judge: F,
) -> Result<(), Fail>
    requires { F.IsAlwaysCallable judge }
{
    let run = run_of(alloc, trace)?;
    let (edited, steps) = after_edits(alloc, &run, edits)?;
    judge(&run, &edited, steps)
}

/// The edits are refused for this cause, and no operation is stepped.
pub fn assert_refused(rt: &impl Abort, alloc: Global, run: &Run, edits: Batch, due: RunFault) {
    let mut meter = Meter::new();
    let fault = edited_alone(run, alloc, &edits, &mut meter).err();
    assert_eq!(rt; fault, Some(due));
    assert_eq!(rt; meter.count(), 0);
}

// What is wanted of the outcome of one operation.
#[derive(Clone, Copy)]
pub struct Told<'a> {
    id: u32,
    verdict: Verdict,
    counts: Option<Counts>,
    events: &'a [Event],
}

pub fn did<'a>(id: u32, answer: Answer, counts: Option<Counts>, events: &'a [Event]) -> Told<'a> {
    Told {
        id,
        verdict: Verdict::Did(answer),
        counts,
        events,
    }
}

pub fn skipped(id: u32, reason: Reason) -> Told<'static> {
    Told {
        id,
        verdict: Verdict::Skipped(reason),
        counts: None,
        events: &[],
    }
}

pub fn counts(object: u32, strong: u64, weak: u64) -> Option<Counts> {
    Some(Counts {
        object,
        strong,
        weak,
    })
}

/// Whether the run tells this of the operation at a place.
pub fn tells(run: &Run, place: usize, told: Told) -> bool {
    match run.outcome(place) {
        Some(outcome) => {
            outcome.id == told.id
                && outcome.verdict == told.verdict
                && outcome.counts == told.counts
                && outcome.events.as_slice() == told.events
        }
        None => false,
    }
}

pub fn has_outcome(run: &Run, place: usize, outcome: &Outcome) -> bool {
    match run.outcome(place) {
        Some(known) => known.same(outcome),
        None => false,
    }
}

// Whether the run tells all of these outcomes, and ends with this heap.
fn has_all(run: &Run, outcomes: &[Outcome], end: &Heap) -> bool {
    for (place, outcome) in outcomes.iter().enumerate() {
        if !has_outcome(run, place, outcome) {
            return false;
        }
    }
    let same = run.end().same(end) && run.end().sum() == end.sum();
    same && outcomes.len() == run.len()
}

/// Whether the run tells what the replay of this trace from nothing does, and ends with its heap.
pub fn is_replay_of(alloc: Global, run: &Run, trace: &Trace) -> Result<bool, Fail> {
    let (outcomes, end) = replay(alloc, trace, &mut Meter::new())?;
    Ok(has_all(run, outcomes.as_slice(), &end))
}

/// Whether the run tells what the replay of its trace from nothing does, and ends with its heap.
pub fn is_replay(alloc: Global, run: &Run) -> Result<bool, Fail> {
    let trace = run.trace(alloc)?;
    is_replay_of(alloc, run, &trace)
}

/// How many objects leak in the end.
pub fn leaks(alloc: Global, run: &Run) -> Result<usize, Fail> {
    Ok(find_leaks(alloc, run.end())?.leaked.len())
}

// The first places, then a place every 64, up to the last.
fn every_64(alloc: Global, first: &[usize], from: usize, last: usize) -> Result<Vec<usize>, Fail> {
    let mut wanted = Vec::from_slice(alloc, first)?;
    for at in from..last {
        if (at - from) % 64 == 0 {
            wanted.push(at)?;
        }
    }
    wanted.push(last)?;
    Ok(wanted)
}

/// Whether the checkpoints of the run are at these places.
pub fn has_marks(alloc: Global, run: &Run, places: &[usize]) -> Result<bool, Fail> {
    let marks = run.marks(alloc)?;
    Ok(marks.as_slice() == places)
}

/// Whether they are at the first places, then every 64, and at the last.
pub fn are_marks(
    alloc: Global,
    run: &Run,
    first: &[usize],
    from: usize,
    last: usize,
) -> Result<bool, Fail> {
    let wanted = every_64(alloc, first, from, last)?;
    has_marks(alloc, run, wanted.as_slice())
}
