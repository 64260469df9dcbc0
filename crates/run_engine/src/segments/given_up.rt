//! Which checkpoints of a block are given up.
ghost use Rattle.std.specs.Prelude.{◌≡◌, ◌<◌, false, length, replicate, slice_index_or, slice_set};

use std::marker::Model;

/// How many segments a block has at most.
pub const MOST_SEGMENTS: usize = 64;

/// Tells of each place in a block whether the checkpoint there is given up. Contracts see the list of these answers.
#[derive(Drop)]
pub struct GivenUp {
    flags: [bool; 64],
}

impl Model for GivenUp {
    ghost use Rattle.std.specs.Prelude.{Bool, List};

    ghost Value = { List Bool };

    ghost view = { λ g. g.flags };
}

impl GivenUp {
    /// None is given up.
    pub fn none() -> Self
        ensures { result ≡ replicate 64 false }
    {
        GivenUp { flags: [false; 64] }
    }

    /// The same answers again.
    pub fn share(&self) -> Self
        ensures { result ≡ self.now }
    {
        GivenUp { flags: self.flags }
    }

    /// Whether the checkpoint at a place is given up.
    pub fn has(&self, place: usize) -> bool
        requires { place < 64 }
        ensures { result ≡ slice_index_or self.now place false }
    {
        self.flags[place]
    }

    /// Sets the answer at a place.
    pub fn set(&mut self, place: usize, is_given_up: bool)
        requires { place < 64 }
        ensures set { self.new ≡ slice_set self.old place is_given_up }
        ensures long { length self.old ≡ 64 }
    {
        self.flags[place] = is_given_up;
    }
}
