//! Workers that replay the jobs of a run ahead. `tools/refused_memory` refuses each allocation in turn.
use chunk_workers::{Gate, OpenGate, speculate};
use op_step::{ChunkRun, Job, Meter};
use run_engine::Run;
use std::alloc::Global;
use std::sync::atomic::{AtomicU64, Ordering};
use std::test::Fail;
use std::thread;
use std::thread::Threads;
use trace_types::edits::{Batch, Edit};
use trace_types::kinds::Kind;
use trace_types::ops::Op;
use trace_types::sequence::Sequence;
use trace_types::trace::Trace;

// How often a job looks whether the other has begun.
const TURNS: u32 = 100_000_000;

// The last operation of the trace, which has a checkpoint at 64.
const LAST: u32 = 66;

// Each of two jobs waits until the other has begun.
#[derive(Drop)]
struct Meeting {
    first: AtomicU64,
    second: AtomicU64,
    ended: AtomicU64,
    // Whether a job has given up.
    late: AtomicU64,
}

impl Gate for Meeting {
    fn before(&self, job: usize) {
        let (own, other) = if job == 0 {
            (&self.first, &self.second)
        } else {
            (&self.second, &self.first)
        };
        own.store(1, Ordering::SeqCst);
        for _ in 0..TURNS {
            if other.load(Ordering::SeqCst) == 1 {
                return;
            }
            thread::yield_now();
        }
        self.late.store(1, Ordering::SeqCst);
    }

    fn after(&self, _job: usize) {
        self.ended.fetch_add(1, Ordering::SeqCst);
    }
}

// An operation that makes a null pointer, with this label.
fn null(id: u32, label: u32) -> Option<Op> {
    Op::make(id, label, Kind::Null { to: id }).ok()
}

fn nulls(alloc: Global) -> Option<Trace> {
    let mut trace = Trace::new(alloc);
    for id in 1..=LAST {
        trace.push(null(id, 0)?).ok()?;
    }
    Some(trace)
}

// The first operation and the last with another label.
fn labelled(alloc: Global) -> Option<Batch> {
    let mut batch = Sequence::empty(alloc);
    for id in [1, LAST] {
        let op = null(id, 1)?;
        batch.push(Edit::Change { id, op }).ok()?;
    }
    Some(batch)
}

fn run(alloc: Global) -> Option<Run> {
    let trace = nulls(alloc)?;
    Run::load(alloc, &trace, &mut Meter::new()).ok()
}

// Two jobs, of 64 operations and of two.
fn jobs(alloc: Global) -> Option<Vec<Job>> {
    let run = run(alloc)?;
    let batch = labelled(alloc)?;
    run.jobs(alloc, &batch).ok()
}

// Their chunks, by two workers.
fn chunks<S: Threads + Sync, G: Gate + Sync>(
    rt: &S,
    alloc: Global,
    gate: &G,
) -> Option<Vec<ChunkRun>> {
    speculate(rt, alloc, jobs(alloc)?, 2, gate).ok()
}

fn are_both(chunks: &[ChunkRun]) -> bool {
    let [first, second] = chunks else {
        return false;
    };
    first.outcomes().len() == 64 && second.outcomes().len() == 2
}

#[test]
fn workers_side_by_side(rt: HostRuntime) -> Result<(), Fail> {
    let meeting = Meeting {
        first: AtomicU64::new(0),
        second: AtomicU64::new(0),
        ended: AtomicU64::new(0),
        late: AtomicU64::new(0),
    };
    let chunks = chunks(&rt, rt.alloc(), &meeting).ok_or("memory")?;
    assert!(rt; are_both(chunks.as_slice()));
    assert_eq!(rt; meeting.late.load(Ordering::SeqCst), 0);
    assert_eq!(rt; meeting.ended.load(Ordering::SeqCst), 2);
    Ok(())
}

fn chunks_in_two_tries<S: Threads + Sync>(rt: &S, alloc: Global) -> Option<Vec<ChunkRun>> {
    match chunks(rt, alloc, &OpenGate) {
        Some(chunks) => Some(chunks),
        None => chunks(rt, alloc, &OpenGate),
    }
}

// Where an allocation of the jobs or of the workers is refused, both chunks are given or none: the same call goes well afterwards.
#[test]
fn worker_without_memory(rt: HostRuntime) -> Result<(), Fail> {
    let chunks = chunks_in_two_tries(&rt, rt.alloc()).ok_or("nothing is refused twice")?;
    assert!(rt; are_both(chunks.as_slice()));
    Ok(())
}
