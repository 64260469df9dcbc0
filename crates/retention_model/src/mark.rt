//! What operations move, and what they do to the objects that the slots name.
use crate::place::Place;
use trace_types::outcomes::Event;
use trace_types::slots::Slot;

/// A place that holds another slot after an operation than before it. A place that isn't there holds nothing.
#[derive(Clone, Copy, Debug)]
pub struct Moved {
    pub place: Place,
    pub before: Slot,
    pub after: Slot,
}

/// One thing that an operation did to an object.
#[derive(Clone, Copy, Debug)]
pub enum Mark {
    /// A place no longer holds the slot that named the object; whether that was a weak one.
    Lost(Place, bool),
    /// A place holds a slot that names it from now on; whether that is a weak one.
    Gained(Place, bool),
    /// Its value or its allocation came to an end.
    Ended(Event),
}

/// A mark of an object, by the operation that stands here in the trace, from 0, and the object's counts after it.
#[derive(Clone, Copy, Debug)]
pub struct Marked {
    pub object: u32,
    pub position: usize,
    pub strong: u64,
    pub weak: u64,
    pub mark: Mark,
}
