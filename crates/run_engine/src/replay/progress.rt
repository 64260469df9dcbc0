//! How far the replay of an edited trace has come beside an old run.
ghost use Rattle.std.specs.Prelude.{◌≡◌, ◌↔◌, IsTrue};

use crate::replay::prefix::Prefix;

/// Where the replay of an edited trace had the old run's heap: behind so many operations of the edited trace, and of the old one.
#[derive(Clone, Copy, Debug, PartialEq, Eq)]
pub struct Fork {
    pub edited: usize,
    pub base: usize,
}

impl Fork {
    /// Whether it stands behind so many operations of the edited trace, and so many of the old one.
    pub fn is_at(self, edited: usize, base: usize) -> bool
        ensures { IsTrue result ↔ ((self.edited ≡ edited) × (self.base ≡ base)) }
    {
        self.edited == edited && self.base == base
    }
}

/// The replayed prefix, and the last place where it is known to have had the old run's heap.
#[derive(Drop)]
pub struct Progress {
    pub prefix: Prefix,
    pub fork: Fork,
}
