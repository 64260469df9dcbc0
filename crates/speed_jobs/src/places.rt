//! What the handles or cells of a trace that is being made hold.

use crate::random::Random;
use std::alloc::{AllocError, Global};

/// What stands at a place.
#[derive(Clone, Copy, PartialEq, Eq)]
pub enum Held {
    /// No handle or cell is there.
    Free,
    /// An empty pointer.
    Nothing,
    /// A Weak to no object.
    Dangling,
    /// A strong pointer to an object.
    Strong(u32),
    /// A Weak to an object.
    Weak(u32),
    /// The value that was moved out of an object.
    Value(u32),
}

/// What an operation wants of a place.
#[derive(Clone, Copy)]
pub enum Wanted {
    Free,
    Held,
    Slot,
    /// Nothing or a strong pointer.
    Pointer,
    Strong,
    Weak,
    Value,
    /// A strong pointer or a value.
    Fielded,
}

impl Held {
    pub fn fits(self, wanted: Wanted) -> bool {
        match wanted {
            Wanted::Free => self == Held::Free,
            Wanted::Held => self != Held::Free,
            Wanted::Slot => !matches!(self, Held::Free | Held::Value(_)),
            Wanted::Pointer => matches!(self, Held::Nothing | Held::Strong(_)),
            Wanted::Strong => matches!(self, Held::Strong(_)),
            Wanted::Weak => matches!(self, Held::Weak(_) | Held::Dangling),
            Wanted::Value => matches!(self, Held::Value(_)),
            Wanted::Fielded => matches!(self, Held::Strong(_) | Held::Value(_)),
        }
    }
}

// How often a place is drawn in vain.
const TRIES: u32 = 64;

const PLACES: u32 = 65_536;

/// The places, numbered from 0.
#[derive(Drop)]
pub struct Places {
    held: Vec<Held>,
    mask: u32,
    taken: u32,
}

impl Places {
    /// Free places. How many is a power of two, of at most 65,536.
    pub fn new(alloc: Global, count: u32) -> Result<Self, AllocError> {
        let mut held = Vec::new(alloc);
        for _ in 0..count {
            held.push(Held::Free)?;
        }
        Ok(Places {
            held,
            mask: count.wrapping_sub(1),
            taken: 0,
        })
    }

    /// How many are not free.
    pub fn taken(&self) -> u32 {
        self.taken
    }

    pub fn at(&self, place: u32) -> Held {
        self.held.get(place as usize).copied().unwrap_or(Held::Free)
    }

    pub fn fits(&self, place: u32, wanted: Wanted) -> bool {
        self.at(place).fits(wanted)
    }

    /// Puts something there, and answers what was there.
    pub fn put(&mut self, place: u32, held: Held) -> Held {
        let Some(there) = self.held.get_mut(place as usize) else {
            return Held::Free;
        };
        let before = *there;
        *there = held;
        if before != Held::Free {
            self.taken = self.taken.wrapping_sub(1);
        }
        if held != Held::Free {
            self.taken = self.taken.wrapping_add(1);
        }
        before
    }

    /// Draws places until one is as wanted, but not for ever.
    pub fn find(&self, random: &mut Random, wanted: Wanted) -> Option<u32> {
        for _ in 0..TRIES {
            let place = random.below(PLACES) & self.mask;
            if self.fits(place, wanted) {
                return Some(place);
            }
        }
        None
    }
}
