//! What events tell of lives of which less was told.
ghost use Rattle.std.specs.Prelude.{◌≡◌, ◌<◌, length, map, slice_index_or, MatchOption};
ghost use Rattle.leak_report.specs.Lives.{numbered};
ghost use Rattle.leak_report.specs.Told.{HasRisingObjects, HasNone, ends, gives_up, told_by, told_by_all};

use crate::lives::{Ending, Life};
use trace_types::outcomes::Event;

/// Notes the events of one operation.
pub fn note_events(lives: &mut [Life], id: u32, events: &[Event])
    requires { HasRisingObjects lives.old }
    ensures { lives.new ≡ map (told_by_all (numbered id events.now)) lives.old }
{
    for event in events {
        note_event(lives, id, *event);
    }
}

/// Notes events, each with the number of its operation.
pub fn note_all(lives: &mut [Life], events: &[(u32, Event)])
    requires { HasRisingObjects lives.old }
    ensures { lives.new ≡ map (told_by_all events.now) lives.old }
{
    for event in events {
        note_event(lives, event.0, event.1);
    }
}

fn note_event(lives: &mut [Life], id: u32, event: Event)
    requires { HasRisingObjects lives.old }
    ensures { lives.new ≡ map (told_by (id, event)) lives.old }
{
    match event {
        Event::Destroyed(object) => note_ending(lives, object, Ending::Destroyed(id)),
        Event::Unwrapped(object) => note_ending(lives, object, Ending::Unwrapped(id)),
        Event::Moved(object) => note_ending(lives, object, Ending::Moved(id)),
        Event::Freed(object) => note_freed(lives, object, id),
    }
}

fn note_ending(lives: &mut [Life], object: u32, ending: Ending)
    requires { HasRisingObjects lives.old }
    ensures { lives.new ≡ map (ends object ending) lives.old }
{
    let Some(place) = place_of(lives, object) else {
        return;
    };
    let life = lives[place];
    lives[place] = Life {
        ending: life.ending.or(Some(ending)),
        ..life
    };
}

fn note_freed(lives: &mut [Life], object: u32, id: u32)
    requires { HasRisingObjects lives.old }
    ensures { lives.new ≡ map (gives_up object id) lives.old }
{
    let Some(place) = place_of(lives, object) else {
        return;
    };
    let life = lives[place];
    lives[place] = Life {
        freed: life.freed.or(Some(id)),
        ..life
    };
}

// Where the life of an object stands, if it has one.
fn place_of(lives: &[Life], object: u32) -> Option<usize>
    requires { HasRisingObjects lives.now }
    ensures { MatchOption result (HasNone object lives.now) (λ place. (place < length lives.now)
        × ((d : Life) → (slice_index_or lives.now place d).object ≡ object)) }
{
    lives.binary_search_by_key(&object, |life| life.object).ok()
}
