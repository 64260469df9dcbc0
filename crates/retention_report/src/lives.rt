//! What became of the objects that a trace made.
ghost use Rattle.std.specs.Prelude.{◌≡◌, ◌<◌, List, false, length, slice_index_or, IfOk, MatchOption};
ghost use Rattle.ownership_model.specs.Reach.{has};
ghost use Rattle.trace_types.specs.Operation.{Operation};
ghost use Rattle.leak_report.specs.Lives as told;
ghost use Rattle.leak_report.specs.Lives.{lives_of};
ghost use Rattle.leak_report.specs.Told.{HasRisingObjects};
ghost use Rattle.trace_types.specs.declared.outcomes.Outcome.{Outcome as OutcomeOf};
ghost use Rattle.retention_report.specs.Explained as definition;
ghost use Rattle.retention_report.specs.Sources.{objects_of, HasMade, AreLivesIn};

use leak_report::{Life, lives_by};
use retention::Story;
use std::alloc::{AllocError, Global};
use trace_types::sequence::Sequence;

/// Of each object that was made, rising.
pub fn lives_in(alloc: Global, story: &Story) -> Result<Sequence<Life>, AllocError>
    ensures { IfOk result (λ ls. (ops : List Operation) → HasMade ops story.now →
        AreLivesIn ops ls) }
{
    let lives = lives_by(alloc, &story.made, &story.events)?;
    Ok(lives)
}

/// The first of these numbers that is none of an object that was made.
pub fn first_unmade(lives: &[Life], objects: &[u32]) -> Option<u32>
    requires { HasRisingObjects lives.now }
    ensures { result ≡ definition.first_unmade (objects_of lives.now) objects.now }
{
    for object in objects {
        if !is_made(lives, *object) {
            return Some(*object);
        }
    }
    None
}

// Whether an object was made.
fn is_made(lives: &[Life], object: u32) -> bool
    requires { HasRisingObjects lives.now }
    ensures { result ≡ has object (objects_of lives.now) }
{
    match place_of(lives, object) {
        Some(_) => true,
        None => false,
    }
}

/// The life of an object.
pub fn life_of(lives: &[Life], object: u32) -> Option<Life>
    requires { HasRisingObjects lives.now }
    ensures { MatchOption result (has object (objects_of lives.now) ≡ false)
        (λ l. (outs : List OutcomeOf) → lives.now ≡ lives_of outs → l ≡ told.life_of outs object) }
{
    let Some(place) = place_of(lives, object) else {
        return None;
    };
    Some(lives[place])
}

// Where the life of an object stands, if it has one.
fn place_of(lives: &[Life], object: u32) -> Option<usize>
    requires { HasRisingObjects lives.now }
    ensures { MatchOption result (has object (objects_of lives.now) ≡ false)
        (λ place. (place < length lives.now)
        × ((d : Life) → (slice_index_or lives.now place d).object ≡ object)) }
{
    lives.binary_search_by_key(&object, |life| life.object).ok()
}
