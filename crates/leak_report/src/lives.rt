//! What became of each object that was made.
ghost use Rattle.std.specs.Prelude.{◌≡◌, IfOk, map};
ghost use Rattle.std.specs.Ordering.{nat_cmp};
ghost use Rattle.std.specs.List.Sorted.{IsStrictlySortedBy};
ghost use Rattle.trace_types.specs.Stretches.{outcomes_of};
ghost use Rattle.leak_report.specs.Lives as definition;
ghost use Rattle.leak_report.specs.Lives.{events_of, lives_of};
ghost use Rattle.leak_report.specs.Told.{HasRisingObjects, begins, told_by_all};

use crate::endings::{note_all, note_events};
use crate::made::made_by;
use crate::rising::in_order;
use std::alloc::{AllocError, Global};
use trace_types::outcomes::{Event, Outcome};
use trace_types::sequence::Sequence;
use trace_types::stretches::Stretch;

/// How a value ended, with the number of the operation.
#[derive(Clone, Copy, Debug, PartialEq, Eq)]
pub enum Ending {
    /// It was dropped.
    Destroyed(u32),
    /// It was moved out by `try_unwrap` or `into_inner`.
    Unwrapped(u32),
    /// It was moved to a new allocation by `make_mut`.
    Moved(u32),
}

/// What became of an object.
#[derive(Clone, Copy, Debug, PartialEq, Eq)]
pub struct Life {
    /// The number of the operation that made it.
    pub object: u32,
    /// How its value ended first, if it did.
    pub ending: Option<Ending>,
    /// The first operation that gave up its allocation, if one did.
    pub freed: Option<u32>,
}

/// The lives of all objects that were made, rising.
pub fn lives(alloc: Global, stretches: &[Stretch]) -> Result<Sequence<Life>, AllocError>
    ensures { IfOk result (λ ls. ls ≡ lives_of (outcomes_of stretches.now)) }
{
    let made = made_by(alloc, stretches)?;
    let mut lives = begun(alloc, &made)?;
    for stretch in stretches {
        note_outcomes(&mut lives, stretch.outcomes);
    }
    Ok(Sequence::from_vec(lives))
}

/// The lives of these objects, rising, by the events of all operations in order, each with the number of its operation.
pub fn lives_by(
    alloc: Global,
    made: &[u32],
    events: &[(u32, Event)],
) -> Result<Sequence<Life>, AllocError>
    ensures { IfOk result (λ ls. ls ≡ definition.lives_by events.now made.now) }
{
    let made = in_order(alloc, made)?;
    let mut lives = begun(alloc, &made)?;
    note_all(&mut lives, events);
    Ok(Sequence::from_vec(lives))
}

// The lives of these objects, before any event.
fn begun(alloc: Global, made: &[u32]) -> Result<Vec<Life>, AllocError>
    requires { IsStrictlySortedBy nat_cmp made.now }
    ensures begun { IfOk result (λ v. v.items ≡ map begins made.now) }
    ensures rising { IfOk result (λ v. HasRisingObjects v.items) }
{
    let mut lives = Vec::new(alloc);
    for object in made {
        lives.push(Life {
            object: *object,
            ending: None,
            freed: None,
        })?;
    }
    Ok(lives)
}

// Notes the events of operations.
fn note_outcomes(lives: &mut [Life], outcomes: &[Outcome])
    requires { HasRisingObjects lives.old }
    ensures { lives.new ≡ map (told_by_all (events_of outcomes.now)) lives.old }
{
    for outcome in outcomes {
        note_events(lives, outcome.id, outcome.events.as_slice());
    }
}
