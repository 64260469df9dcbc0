//! How much was replayed.
ghost use Rattle.std.specs.Prelude.{◌≡◌};
ghost use Rattle.op_step.specs.Meter.{raised};

use std::marker::Model;

/// Counts the operations that are carried out. Contracts see the count.
#[derive(Debug, Drop)]
pub struct Meter {
    count: u64,
}

impl Model for Meter {
    ghost use Rattle.std.specs.Prelude.{ℕ};
    ghost use Rattle.std.specs.Coded.{coded_ℕ};

    ghost Value = { ℕ };

    ghost coded = { coded_ℕ };

    ghost view = { λ m. m.count };
}

impl Meter {
    /// At 0. Takes no memory.
    pub fn new() -> Meter
        ensures { result ≡ 0 }
    {
        Meter { count: 0 }
    }

    /// How many operations were carried out. At 2^64 - 1 the count stays.
    pub fn count(&self) -> u64
        ensures { result ≡ self.now }
    {
        self.count
    }

    /// One operation more.
    pub(crate) fn raise(&mut self)
        ensures { self.new ≡ raised self.old 1 }
    {
        self.count = self.count.saturating_add(1);
    }
}
