//! What one worker does.
ghost use Rattle.std.specs.Prelude.{◌<◌, length, IfSome, All};
ghost use Rattle.chunk_workers.specs.Chunks.{AllOfJobs, IsOfJob};

use crate::claims::Claims;
use crate::gate::Gate;
use op_step::{ChunkRun, Job};
use std::alloc::Global;
use std::sync::atomic::{AtomicIn, Ordering};

/// A chunk, with the number of the job that it is of.
#[derive(Drop)]
pub struct Done {
    pub job: usize,
    pub chunk: ChunkRun,
}

/// Claims jobs and replays them until all are claimed. Where memory runs out chunks are lost.
pub fn work<G: Gate>(alloc: Global, claims: &AtomicIn<Claims>, jobs: &[Job], gate: &G) -> Vec<Done>
    ensures { AllOfJobs jobs.now result.items }
{
    let mut done = Vec::new(alloc);
    for _ in 0..jobs.len() {
        let claimed = claims.fetch_add(1, Ordering::SeqCst);
        if claimed >= jobs.len() as u64 {
            break;
        }
        let job = claimed as usize;
        keep(&mut done, jobs, run_one(alloc, jobs, job, gate));
    }
    done
}

// The chunk of one job, if there is memory for it.
fn run_one<G: Gate>(alloc: Global, jobs: &[Job], job: usize, gate: &G) -> Option<Done>
    requires { job < length jobs.now }
    ensures { IfSome result (IsOfJob jobs.now) }
{
    gate.before(job);
    let ran = jobs[job].run(alloc);
    gate.after(job);
    let chunk = ran.ok()?;
    Some(Done { job, chunk })
}

// Adds a chunk, if there is one, and memory to keep it.
fn keep(done: &mut Vec<Done>, jobs: &[Job], one: Option<Done>)
    requires one { IfSome one (IsOfJob jobs.now) }
    requires done { All (IsOfJob jobs.now) done.old.items }
    ensures { All (IsOfJob jobs.now) done.new.items }
{
    let Some(one) = one else {
        return;
    };
    if done.reserve(1).is_err() {
        return;
    }
    done.push_reserved(one);
}
