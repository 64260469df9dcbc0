//! Workers that share jobs among them.
ghost use Rattle.std.specs.Prelude.{◌≡◌, ◌≤◌, IfOk, min};

use crate::claims::Claims;
use crate::gate::Gate;
use crate::places::gathered;
use crate::worker::work;
use op_step::{ChunkRun, Job};
use std::alloc::{AllocError, Global};
use std::sync::atomic::AtomicIn;
use std::thread;
use std::thread::Threads;
use trace_types::limits::MAX_WORKERS;

/// The chunk of each job, in the jobs' order.
///
/// Up to so many workers, 1 to 16, claim one job after another and replay it; with one worker no thread is made. They pass the gate before and
/// after each job; a gate that never lets one pass holds the call. A job whose worker found no memory is run once more by the
/// caller, who passes no gate. The error comes if that finds none either, or if there is none to start the workers or to put
/// their chunks in order.
pub fn speculate<R: Threads + Sync, G: Gate + Sync>(
    rt: &R,
    alloc: Global,
    jobs: Vec<Job>,
    workers: u32,
    gate: &G,
) -> Result<Vec<ChunkRun>, AllocError>
    requires { (1 ≤ workers) × (workers ≤ MAX_WORKERS) }
    ensures { IfOk result (λ v. v.items ≡ jobs.items) }
{
    shared(rt, alloc, jobs.as_slice(), workers, gate)
}

// As `speculate`, of jobs that are lent.
fn shared<R: Threads + Sync, G: Gate + Sync>(
    rt: &R,
    alloc: Global,
    jobs: &[Job],
    workers: u32,
    gate: &G,
) -> Result<Vec<ChunkRun>, AllocError>
    requires { (1 ≤ workers) × (workers ≤ MAX_WORKERS) }
    ensures { IfOk result (λ v. v.items ≡ jobs.now) }
{
    let claims: AtomicIn<Claims> = AtomicIn::new(0);
    let next = &claims;
    let parts = thread::map_indices(
        rt,
        alloc,
        threads_for(jobs.len(), workers),
        &|_worker| { work(alloc, next, jobs, gate) },
    )?;
    gathered(alloc, jobs, parts)
}

// How many workers have something to do.
fn threads_for(jobs: usize, workers: u32) -> usize
    ensures { result ≡ min jobs workers }
{
    jobs.min(workers as usize)
}
