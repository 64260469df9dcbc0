//! The chunks of workers, each in the place of its job.
ghost use Rattle.std.specs.Prelude.{◌≡◌, ◌<◌, length, slice_get, Some, IfOk, IfSome, All};
ghost use Rattle.chunk_workers.specs.Chunks.{AllOfJobs, IsOfJob, AreFound};

use crate::worker::Done;
use op_step::{ChunkRun, Job};
use std::alloc::{AllocError, Global};

/// The chunks of jobs that workers have, or else of another run of the job, in the jobs' order.
pub fn gathered(
    alloc: Global,
    jobs: &[Job],
    parts: Vec<Vec<Done>>,
) -> Result<Vec<ChunkRun>, AllocError>
    requires { All (λ part. AllOfJobs jobs.now part.items) parts.items }
    ensures { IfOk result (λ v. v.items ≡ jobs.now) }
{
    match empty_places(alloc, jobs) {
        Ok(found) => filled(alloc, jobs, parts, found),
        Err(_) => Err(AllocError),
    }
}

// A place for each job, which has no chunk yet.
fn empty_places(alloc: Global, jobs: &[Job]) -> Result<Vec<Option<ChunkRun>>, AllocError>
    ensures { IfOk result (λ v. AreFound jobs.now v.items) }
{
    let mut places = Vec::new(alloc);
    for _ in 0..jobs.len() {
        places.push(None)?;
    }
    Ok(places)
}

// As `gathered`, with a place for each job.
fn filled(
    alloc: Global,
    jobs: &[Job],
    parts: Vec<Vec<Done>>,
    found: Vec<Option<ChunkRun>>,
) -> Result<Vec<ChunkRun>, AllocError>
    requires parts { All (λ part. AllOfJobs jobs.now part.items) parts.items }
    requires found { AreFound jobs.now found.items }
    ensures { IfOk result (λ v. v.items ≡ jobs.now) }
{
    let mut found = found;
    for part in parts {
        place_part(&mut found, jobs, part);
    }
    in_order(alloc, jobs, &mut found)
}

// Puts one worker's chunks into the places of their jobs.
fn place_part(found: &mut Vec<Option<ChunkRun>>, jobs: &[Job], part: Vec<Done>)
    requires part { AllOfJobs jobs.now part.items }
    requires found { AreFound jobs.now found.old.items }
    ensures { AreFound jobs.now found.new.items }
{
    for done in part {
        place(found, jobs, done);
    }
}

fn place(found: &mut Vec<Option<ChunkRun>>, jobs: &[Job], done: Done)
    requires done { IsOfJob jobs.now done }
    requires found { AreFound jobs.now found.old.items }
    ensures { AreFound jobs.now found.new.items }
{
    let Done { job, chunk } = done;
    found[job] = Some(chunk);
}

// The chunk of each job. It is taken out of its place, or the job is run.
fn in_order(
    alloc: Global,
    jobs: &[Job],
    found: &mut Vec<Option<ChunkRun>>,
) -> Result<Vec<ChunkRun>, AllocError>
    requires { AreFound jobs.now found.old.items }
    ensures { IfOk result (λ v. v.items ≡ jobs.now) }
{
    let mut chunks = Vec::new(alloc);
    for i in 0..jobs.len() {
        chunks.push(chunk_of(alloc, jobs, i, taken(found, jobs, i))?)?;
    }
    Ok(chunks)
}

// Takes the chunk out of a place, if it has one.
fn taken(found: &mut Vec<Option<ChunkRun>>, jobs: &[Job], i: usize) -> Option<ChunkRun>
    requires i { i < length jobs.now }
    requires found { AreFound jobs.now found.old.items }
    ensures found { AreFound jobs.now found.new.items }
    ensures chunk { IfSome result (λ c. slice_get jobs.now i ≡ Some c) }
{
    found[i].take()
}

// The chunk that was found for a job, or else of another run of it.
fn chunk_of(
    alloc: Global,
    jobs: &[Job],
    i: usize,
    found: Option<ChunkRun>,
) -> Result<ChunkRun, AllocError>
    requires i { i < length jobs.now }
    requires found { IfSome found (λ c. slice_get jobs.now i ≡ Some c) }
    ensures { IfOk result (λ c. slice_get jobs.now i ≡ Some c) }
{
    match found {
        Some(chunk) => Ok(chunk),
        None => jobs[i].run(alloc),
    }
}
