//! Jobs of a run, and guesses that are handed to a desk with a request.
use crate::runs::labelled_and_more;
use crate::small_runs::{with_desk, with_run};
use crate::small_traces::{batch, broken_cycle, change, insertion, op_of, whole_cycle};
use edit_desk::{Desk, Reply, Request};
use op_step::{ChunkRun, Job};
use run_engine::{Run, RunFault};
use std::alloc::Global;
use std::process::Abort;
use std::test::Fail;
use trace_types::edits::{Batch, Edit};
use trace_types::kinds::Kind;
use trace_types::sequence::Sequence;

// The chunks of the jobs that the edits give, in order.
fn chunks_of(alloc: Global, run: &Run, edits: &Batch) -> Result<Vec<ChunkRun>, Fail> {
    let jobs = run.jobs(alloc, edits)?;
    let mut chunks = Vec::new(alloc);
    for job in &jobs {
        chunks.push(job.run(alloc)?)?;
    }
    Ok(chunks)
}

// How many operations a desk steps for edits with these guesses.
fn rise(alloc: Global, desk: &mut Desk, edits: Batch, guesses: Vec<ChunkRun>) -> Result<u64, Fail> {
    let before = desk.meter().count();
    let base = desk.version();
    let request = Request { base, batch: edits };
    let Reply::Accepted(_) = desk.answer(alloc, 0, request, guesses)? else {
        return Err(Fail::from("refused"));
    };
    Ok(desk.meter().count() - before)
}

// A fresh desk on the trace of a broken cycle steps so many operations for these edits.
fn assert_steps(
    rt: &impl Abort,
    alloc: Global,
    edits: Batch,
    guesses: Vec<ChunkRun>,
    due: u64,
) -> Result<(), Fail> {
    with_desk(alloc, broken_cycle(alloc)?, |desk| {
        assert_eq!(rt; rise(alloc, desk, edits, guesses)?, due);
        Ok(())
    })
}

// So many for the edits of two stretches.
fn assert_rise(
    rt: &impl Abort,
    alloc: Global,
    guesses: Vec<ChunkRun>,
    due: u64,
) -> Result<(), Fail> {
    assert_steps(rt, alloc, labelled_and_more(alloc)?, guesses, due)
}

// The chunks of the two jobs that these edits give for a run.
fn guesses_of(alloc: Global, run: &Run) -> Result<Vec<ChunkRun>, Fail> {
    let edits = labelled_and_more(alloc)?;
    chunks_of(alloc, run, &edits)
}

// How many operations each chunk has.
fn assert_lengths(rt: &impl Abort, chunks: &[ChunkRun]) {
    let wanted = [64usize, 52];
    assert_eq!(rt; chunks.len(), 2);
    for (i, chunk) in chunks.iter().enumerate() {
        assert_eq!(rt; Some(chunk.ops().len()), wanted.get(i).copied());
    }
}

// Without guesses 64 and 52 operations are stepped: the chunks of both jobs save all of them.
#[test]
fn guesses_save_all_steps(rt: HostRuntime) -> Result<(), Fail> {
    let alloc = rt.alloc();
    with_run(alloc, broken_cycle(alloc)?, |run| {
        let guesses = guesses_of(alloc, run)?;
        assert_lengths(&rt, &guesses);
        assert_rise(&rt, alloc, guesses, 0)
    })
}

// Each chunk twice, and the last first.
fn reversed_twice(alloc: Global, chunks: &[ChunkRun]) -> Result<Vec<ChunkRun>, Fail> {
    let mut all = Vec::new(alloc);
    for chunk in chunks.iter().rev() {
        all.push(chunk.share()?)?;
        all.push(chunk.share()?)?;
    }
    Ok(all)
}

#[test]
fn guesses_twice_in_reverse_order(rt: HostRuntime) -> Result<(), Fail> {
    let alloc = rt.alloc();
    with_run(alloc, broken_cycle(alloc)?, |run| {
        let guesses = guesses_of(alloc, run)?;
        let guesses = reversed_twice(alloc, &guesses)?;
        assert_rise(&rt, alloc, guesses, 0)
    })
}

// A guess of another trace has other operations, or the same behind another heap: none is taken.
#[test]
fn guesses_of_another_trace(rt: HostRuntime) -> Result<(), Fail> {
    let alloc = rt.alloc();
    with_run(alloc, whole_cycle(alloc)?, |run| {
        let guesses = guesses_of(alloc, run)?;
        assert_lengths(&rt, &guesses);
        assert_rise(&rt, alloc, guesses, 116)
    })
}

// The first operation behind a checkpoint, with another label.
fn first_labelled(alloc: Global) -> Result<Batch, Fail> {
    let op = op_of(65, 1, Kind::Drop { h: 9 })?;
    batch(alloc, Edit::Change { id: 65, op })
}

fn first_removed(alloc: Global) -> Result<Batch, Fail> {
    batch(alloc, Edit::Remove { id: 65 })
}

// No old stretch begins with an operation that is new. A guess does.
#[test]
fn guess_begins_with_a_new_operation(rt: HostRuntime) -> Result<(), Fail> {
    let alloc = rt.alloc();
    assert_steps(&rt, alloc, first_labelled(alloc)?, Vec::new(alloc), 64)?;
    with_run(alloc, broken_cycle(alloc)?, |run| {
        let guesses = chunks_of(alloc, run, &first_labelled(alloc)?)?;
        assert_steps(&rt, alloc, first_labelled(alloc)?, guesses, 0)
    })
}

// All that differs stands before the checkpoint's next operation: from there on no old stretch serves. A guess does.
#[test]
fn guess_begins_behind_the_last_edit(rt: HostRuntime) -> Result<(), Fail> {
    let alloc = rt.alloc();
    assert_steps(&rt, alloc, first_removed(alloc)?, Vec::new(alloc), 63)?;
    with_run(alloc, broken_cycle(alloc)?, |run| {
        let guesses = chunks_of(alloc, run, &first_removed(alloc)?)?;
        assert_steps(&rt, alloc, first_removed(alloc)?, guesses, 0)
    })
}

// The last 51 operations go, and one comes where they began.
fn emptied(alloc: Global) -> Result<Batch, Fail> {
    let mut batch = Sequence::empty(alloc);
    for id in 961..=1011u32 {
        batch.push(Edit::Remove { id })?;
    }
    batch.push(insertion(960, 2000, Kind::Null { to: 30 })?)?;
    Ok(batch)
}

// The numbers of a job's operations are those.
fn assert_job(rt: &impl Abort, job: &Job, first: Option<u32>, len: usize) {
    assert_eq!(rt; job.ops().len(), len);
    assert_eq!(rt; job.ops().first().map(|op| op.id()), first);
}

// An operation that comes where stretches meet belongs to the last of them: an emptied stretch before it is a job without operations.
#[test]
fn jobs_where_stretches_meet(rt: HostRuntime) -> Result<(), Fail> {
    let alloc = rt.alloc();
    with_run(alloc, broken_cycle(alloc)?, |run| {
        let jobs = run.jobs(alloc, &emptied(alloc)?)?;
        assert_eq!(rt; jobs.len(), 2);
        let (Some(first), Some(last)) = (jobs.get(0), jobs.get(1)) else {
            return Err(Fail::from("two jobs"));
        };
        assert_job(&rt, first, None, 0);
        assert_job(&rt, last, Some(2000), 1);
        Ok(())
    })
}

// A change of an operation to itself changes no stretch, and one that comes and goes neither.
#[test]
fn jobs_of_edits_that_change_nothing(rt: HostRuntime) -> Result<(), Fail> {
    let alloc = rt.alloc();
    with_run(alloc, broken_cycle(alloc)?, |run| {
        let mut edits = Sequence::empty(alloc);
        edits.push(change(7, Kind::Null { to: 4 })?)?;
        edits.push(insertion(0, 4000, Kind::Null { to: 31 })?)?;
        edits.push(Edit::Remove { id: 4000 })?;
        assert_eq!(rt; run.jobs(alloc, &edits)?.len(), 0);
        Ok(())
    })
}

// A stretch with the number of an object that stands where it begins is no job.
#[test]
fn jobs_without_a_number_in_use(rt: HostRuntime) -> Result<(), Fail> {
    let alloc = rt.alloc();
    with_run(alloc, whole_cycle(alloc)?, |run| {
        let mut edits = Sequence::empty(alloc);
        edits.push(Edit::Remove { id: 1 })?;
        edits.push(insertion(100, 1, Kind::Null { to: 30 })?)?;
        let jobs = run.jobs(alloc, &edits)?;
        assert_eq!(rt; jobs.len(), 1);
        Ok(())
    })
}

// The edits are refused as by an edit of the run.
#[test]
fn jobs_of_refused_edits(rt: HostRuntime) -> Result<(), Fail> {
    let alloc = rt.alloc();
    with_run(alloc, broken_cycle(alloc)?, |run| {
        let mut edits = Sequence::empty(alloc);
        assert_eq!(rt; run.jobs(alloc, &edits).err(), Some(RunFault::EmptyBatch));
        edits.push(Edit::Remove { id: 5000 })?;
        assert_eq!(rt; run.jobs(alloc, &edits).err(), Some(RunFault::NoSuchOp(0)));
        Ok(())
    })
}
