//! The jobs of the stretches that edits change.
ghost use Rattle.std.specs.Prelude.{◌≡◌, ℕ, List, ◌∷◌, ◌++◌, ◌<◌, ◌≤◌, IfOk, OnOk, IsTrue, Contains, length, fold, drop, option_to_list, slice_range};
ghost use Rattle.trace_types.specs.Operation.{Operation};
ghost use Rattle.trace_types.specs.Trace.{IsTrace};
ghost use Rattle.run_engine.specs.Segments.{trace_of, all_marks, IsKept};
ghost use Rattle.run_engine.specs.Jobs.{stretch_end, AreJobsAt};
ghost use Rattle.run_engine.specs.inner.Shifts.{shifted, IsPlace, GivesJob};

use crate::editing::listing::Listing;
use crate::editing::original::Original;
use crate::jobs::begins::{Shift, begin_by};
use crate::jobs::start::{are_unused, heap_of};
use crate::segments::blocks::Segments;
use crate::segments::contents::marks_in;
use mark_shelf::same_ops;
use object_heap::Heap;
use op_step::Job;
use std::alloc::{AllocError, Global};
use trace_types::limits::{MAX_EDITS, MAX_OPS};

/// Where a stretch stands: behind so many operations of the old trace up to so many, and in the edited one.
#[derive(Clone, Copy)]
pub struct Place {
    pub base: usize,
    pub base_end: usize,
    pub at: usize,
    pub end: usize,
}

/// The jobs of the stretches of a run that edits change, in order: the operations after the edits are listed, and it is known what each edit
/// did to the stretches.
pub fn changed(
    alloc: Global,
    segments: &Segments,
    end: &Heap,
    ops: &Listing,
    shifts: &[Shift],
) -> Result<Vec<Job>, AllocError>
    requires kept { IsKept segments.now end.now }
    requires base { ops.now.base ≡ trace_of segments.now }
    requires trace { IsTrace ops.now.ops }
    requires few { length shifts.now ≤ MAX_EDITS }
    ensures { IfOk result (λ v.
        AreJobsAt (λ begin. fold shifted begin shifts.now) (trace_of segments.now) ops.now.ops
        (all_marks segments.now) v.items) }
{
    let marks = marks_in(alloc, segments)?;
    let old = Listing::of(alloc, Original::of_segments(segments))?;
    let mut jobs = Vec::new(alloc);
    for i in 0..marks.len() {
        let mark = marks.as_slice()[i];
        let place = place_of(ops, shifts, marks.as_slice(), i);
        let job = job_at(alloc, segments, end, &old, ops, mark, place)?;
        push_job(&mut jobs, job)?;
    }
    Ok(jobs)
}

// Adds a job, if there is one.
fn push_job(jobs: &mut Vec<Job>, job: Option<Job>) -> Result<(), AllocError>
    ensures { OnOk result (jobs.new.items ≡ jobs.old.items ++ option_to_list job) }
{
    if let Some(job) = job {
        jobs.push(job)?;
    }
    Ok(())
}

// Where the stretch stands that begins at the checkpoint with an index.
fn place_of(ops: &Listing, shifts: &[Shift], marks: &[usize], i: usize) -> Place
    requires within { i < length marks.now }
    requires small { (mark : ℕ) → Contains marks.now mark → mark ≤ MAX_OPS }
    requires few { length shifts.now ≤ MAX_EDITS }
    ensures { (mark : ℕ) (rest : List ℕ) → drop i marks.now ≡ mark ∷ rest →
        IsPlace ops.now.base ops.now.ops (λ begin. fold shifted begin shifts.now) mark rest result }
{
    let mark = marks[i];
    let at = begin_by(shifts, mark);
    if i + 1 == marks.len() {
        let (base, base_end) = between(mark, ops.base_len(), ops.base_len());
        let (at, end) = between(at, ops.len(), ops.len());
        return Place {
            base,
            base_end,
            at,
            end,
        };
    }
    let next = marks[i + 1];
    let (base, base_end) = between(mark, next, ops.base_len());
    let (at, end) = between(at, begin_by(shifts, next), ops.len());
    Place {
        base,
        base_end,
        at,
        end,
    }
}

// Two places in order within so many: what stands between these stands between `from` and `to`.
fn between(from: usize, to: usize, len: usize) -> (usize, usize)
    ensures order { result.0 ≤ result.1 }
    ensures within { result.1 ≤ len }
    ensures same { (ops : List Operation) → length ops ≡ len →
        slice_range ops result.0 result.1 ≡ slice_range ops from to }
{
    let from = from.min(len);
    (from, to.min(len).max(from))
}

// The job of the stretch that begins at a checkpoint, if it is one.
fn job_at(
    alloc: Global,
    segments: &Segments,
    end: &Heap,
    old: &Listing,
    ops: &Listing,
    mark: usize,
    place: Place,
) -> Result<Option<Job>, AllocError>
    requires kept { IsKept segments.now end.now }
    requires old { old.now.ops ≡ trace_of segments.now }
    requires base { ops.now.base ≡ trace_of segments.now }
    requires trace { IsTrace ops.now.ops }
    requires mark { Contains (all_marks segments.now) mark }
    requires base_order { place.base ≤ place.base_end }
    requires base_within { place.base_end ≤ length (trace_of segments.now) }
    requires order { place.at ≤ place.end }
    requires within { place.end ≤ length ops.now.ops }
    ensures { IfOk result (λ o. GivesJob (trace_of segments.now) ops.now.ops mark place o) }
{
    if stays(ops, place) {
        return Ok(None);
    }
    let before = old.copies(alloc, place.base, place.base_end)?;
    let next = ops.copies(alloc, place.at, place.end)?;
    if same_ops(&next, &before) {
        return Ok(None);
    }
    let start = heap_of(alloc, segments, end, mark)?;
    if !are_unused(&start, &next) {
        return Ok(None);
    }
    Ok(Some(Job::new(start, next)))
}

// Whether the operations of a stretch are known to be those that it had, as they come from there side by side. Where they do, none is looked at.
fn stays(ops: &Listing, place: Place) -> bool
    requires few { length ops.now.base ≤ MAX_OPS }
    requires order { place.at ≤ place.end }
    requires within { place.end ≤ length ops.now.ops }
    requires base_order { place.base ≤ place.base_end }
    ensures { IsTrue result →
        slice_range ops.now.ops place.at place.end
        ≡ slice_range ops.now.base place.base place.base_end }
{
    let len = place.end - place.at;
    if place.base_end - place.base != len {
        return false;
    }
    if len == 0 {
        return true;
    }
    let Some(alike) = ops.alike(place.at) else {
        return false;
    };
    let before = place.at - alike.at;
    alike.from + before == place.base && len <= alike.len - before
}
