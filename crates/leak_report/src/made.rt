//! The objects that operations made.
ghost use Rattle.std.specs.Prelude.{◌≡◌, [], if◌then◌else◌, IfOk, OnOk};
ghost use Rattle.std.specs.Ordering.{nat_cmp};
ghost use Rattle.std.specs.BTreeSet.{insert_key};
ghost use Rattle.std.specs.List.Sorted.{IsStrictlySortedBy};
ghost use Rattle.trace_types.specs.Stretches.{outcomes_of};
ghost use Rattle.leak_report.specs.Lives.{made_after};
ghost use Rattle.leak_report.specs.Lives as definition;

use crate::rising::Rising;
use std::alloc::{AllocError, Global};
use trace_types::outcomes::{Answer, Outcome, Verdict};
use trace_types::stretches::Stretch;

/// The objects that the operations of all stretches made, rising.
pub fn made_by(alloc: Global, stretches: &[Stretch]) -> Result<Vec<u32>, AllocError>
    ensures made { IfOk result (λ made. made.items ≡ made_after [] (outcomes_of stretches.now)) }
    ensures rising { IfOk result (λ made. IsStrictlySortedBy nat_cmp made.items) }
{
    let mut made = Rising::new(alloc);
    for stretch in stretches {
        note_outcomes(&mut made, stretch.outcomes)?;
    }
    made.into_vec()
}

// Adds those that the operations of these outcomes made.
fn note_outcomes(made: &mut Rising, outcomes: &[Outcome]) -> Result<(), AllocError>
    ensures { OnOk result (made.new ≡ made_after made.old outcomes.now) }
{
    for outcome in outcomes {
        note_made(made, outcome.verdict, outcome.id)?;
    }
    Ok(())
}

// Adds an operation's object, if it made one.
fn note_made(made: &mut Rising, verdict: Verdict, id: u32) -> Result<(), AllocError>
    ensures { OnOk result (made.new
        ≡ (if definition.is_making verdict then insert_key nat_cmp made.old id else made.old)) }
{
    if is_making(verdict) {
        made.insert(id)?;
    }
    Ok(())
}

/// Whether an operation that ended so made an object.
pub fn is_making(verdict: Verdict) -> bool
    ensures { result ≡ definition.is_making verdict }
{
    match verdict {
        Verdict::Did(Answer::Made | Answer::Cloned | Answer::Moved) => true,
        Verdict::Did(Answer::Done | Answer::Yes | Answer::No | Answer::Unique) => false,
        Verdict::Skipped(_) => false,
    }
}
