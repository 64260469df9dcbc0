//! Handles that were met lately.
ghost use Rattle.std.specs.Prelude.{◌≡◌, ◌⊎◌, ℕ, true, false};
ghost use Rattle.heap_difference.specs.Recents.{is_recent};

use std::marker::Model;

/// Handles that were met lately: of those with the same last eight bits the last one. Contracts see the numbers at its 256 places.
#[derive(Drop)]
pub struct Recent {
    // at the place of its last eight bits a handle's number and one, or else 0
    places: [u64; 256],
}

impl Model for Recent {
    ghost use Rattle.std.specs.Prelude.{List, ℕ};

    ghost Value = { List ℕ };

    ghost view = { λ r. r.places };
}

impl Recent {
    /// No handle.
    pub fn none() -> Recent
        ensures { (h : ℕ) → is_recent result h ≡ false }
    {
        Recent { places: [0; 256] }
    }

    /// Whether it has a handle.
    #[inline(always)]
    pub fn has(&self, handle: u32) -> bool
        ensures { result ≡ is_recent self.now handle }
    {
        self.places[(handle % 256) as usize] == handle as u64 + 1
    }

    /// A handle takes the place of one with the same last eight bits.
    #[inline(always)]
    pub fn put(&mut self, handle: u32)
        ensures has { is_recent self.new handle ≡ true }
        ensures only { (h : ℕ) → is_recent self.new h ≡ true →
            (is_recent self.old h ≡ true) ⊎ (h ≡ handle) }
    {
        self.places[(handle % 256) as usize] = handle as u64 + 1;
    }
}
