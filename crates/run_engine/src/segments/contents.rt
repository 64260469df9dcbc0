//! What all segments of a run have.
ghost use Rattle.std.specs.Prelude.{◌≡◌, ◌≤◌, ◌++◌, IfOk, OnOk, length};
ghost use Rattle.trace_types.specs.Stretches.{outcomes_of};
ghost use Rattle.trace_types.specs.Stretches as lent;
ghost use Rattle.ownership_model.specs.State.{nothing_held};
ghost use Rattle.run_engine.specs.Segments.{trace_of, outcomes_in, mark_here, all_marks, AreReplayFrom};

use crate::segments::blocks::Segments;
use crate::segments::standing::Standing;
use std::alloc::{AllocError, Global};
use trace_types::limits::MAX_OPS;
use trace_types::outcomes::Outcome;
use trace_types::sequence::Sequence;
use trace_types::stretches::Stretch;

/// The operations and outcomes of each segment, where they stand.
pub fn stretches_in<'a>(
    alloc: Global,
    segments: &'a Segments,
) -> Result<Vec<Stretch<'a>>, AllocError>
    requires { AreReplayFrom nothing_held segments.now }
    ensures ops { IfOk result (λ v. lent.ops_of v.items ≡ trace_of segments.now) }
    ensures outcomes { IfOk result (λ v. outcomes_of v.items ≡ outcomes_in segments.now) }
{
    let mut stretches = Vec::with_capacity(alloc, segments.len())?;
    for i in 0..segments.len() {
        let segment = segments.at(i);
        stretches.push(segment.stretch())?;
    }
    Ok(stretches)
}

/// Copies of the outcomes.
pub fn outcomes_in(alloc: Global, segments: &Segments) -> Result<Sequence<Outcome>, AllocError>
    ensures { IfOk result (λ v. v ≡ outcomes_in segments.now) }
{
    let mut all = Sequence::empty(alloc);
    for i in 0..segments.len() {
        let segment = segments.at(i);
        extend(&mut all, segment.outcomes())?;
    }
    Ok(all)
}

// Puts copies of outcomes behind others.
fn extend(all: &mut Sequence<Outcome>, more: &[Outcome]) -> Result<(), AllocError>
    ensures { OnOk result (all.new ≡ all.old ++ more.now) }
{
    for outcome in more {
        all.push(outcome.clone()?)?;
    }
    Ok(())
}

/// The positions of the checkpoints, rising.
pub fn marks_in(alloc: Global, segments: &Segments) -> Result<Sequence<usize>, AllocError>
    requires { length (trace_of segments.now) ≤ MAX_OPS }
    ensures { IfOk result (λ v. v ≡ all_marks segments.now) }
{
    let mut marks = Sequence::empty(alloc);
    let mut at = 0;
    for i in 0..segments.len() {
        let segment = segments.at(i);
        push_mark(&mut marks, at, &segment)?;
        at += segment.ops().len();
    }
    marks.push(at)?;
    Ok(marks)
}

// Adds the position of a segment's checkpoint, if it has one.
fn push_mark(marks: &mut Sequence<usize>, at: usize, segment: &Standing) -> Result<(), AllocError>
    ensures { OnOk result (marks.new ≡ marks.old ++ mark_here at segment.now.mark) }
{
    if segment.is_marked() {
        marks.push(at)?;
    }
    Ok(())
}
