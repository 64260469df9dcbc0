//! Outcomes with the counts that they tell where a replay begins with another heap.
ghost use Rattle.std.specs.Prelude.{◌≡◌, ◌≢◌, IfOk, IsTrue, false, map, flat_map};
ghost use Rattle.heap_difference.specs.Alikes.{shifted_in, shifted_outcome};
ghost use Rattle.heap_difference.specs.Naming.{outcome_keys};
ghost use Rattle.heap_difference.specs.Recounted.{told_or};

use crate::shifts::{Shift, shifted};
use std::alloc::{AllocError, Global};
use trace_types::outcomes::{Counts, Outcome};
use trace_types::sequence::Sequence;

/// The outcomes with the counts of the new heap. None where all are the same.
pub fn recounted(
    alloc: Global,
    shifts: &[Shift],
    outcomes: &[Outcome],
) -> Result<Option<Sequence<Outcome>>, AllocError>
    ensures told { IfOk result (λ o. told_or outcomes.now o
        ≡ map (shifted_outcome shifts.now) outcomes.now) }
    ensures names { IfOk result (λ o. flat_map outcome_keys (told_or outcomes.now o)
        ≡ flat_map outcome_keys outcomes.now) }
{
    if !are_others(shifts, outcomes) {
        return Ok(None);
    }
    let mut items = Vec::with_capacity(alloc, outcomes.len())?;
    for outcome in outcomes {
        items.push(Outcome {
            id: outcome.id,
            verdict: outcome.verdict,
            events: outcome.events.clone()?,
            counts: shifted_in(shifts, outcome.counts),
        })?;
    }
    Ok(Some(Sequence::from_vec(items)))
}

// Whether the counts of one are others.
fn are_others(shifts: &[Shift], outcomes: &[Outcome]) -> bool
    ensures others { IsTrue result → map (shifted_outcome shifts.now) outcomes.now ≢ outcomes.now }
    ensures same { result ≡ false → map (shifted_outcome shifts.now) outcomes.now ≡ outcomes.now }
{
    for outcome in outcomes {
        if shifted_in(shifts, outcome.counts) != outcome.counts {
            return true;
        }
    }
    false
}

#[inline(always)]
fn shifted_in(shifts: &[Shift], counts: Option<Counts>) -> Option<Counts>
    ensures { result ≡ shifted_in shifts.now counts }
{
    let told = counts?;
    Some(shifted(shifts, told))
}
