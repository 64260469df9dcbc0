//! What is kept for a handle of a heap.
ghost use Rattle.std.specs.Prelude.{◌≡◌, ◌↔◌, ⊤, true, IfOk, IsTrue};

use crate::place::Place;
use share_tree::Update;
use std::alloc::{AllocError, Global};
use trace_types::same::Same;
use trace_types::slots::Holding;

/// What a handle holds, and where it stands in its scope.
#[derive(Debug, Drop)]
pub struct Held {
    pub holding: Holding,
    pub place: Place,
}

impl Held {
    // The same holding in another place.
    fn at(&self, place: Place) -> Result<Held, AllocError>
        ensures { IfOk result (λ h. h ≡ record { holding = self.now.holding; place = place }) }
    {
        Ok(Held {
            holding: self.holding.clone()?,
            place,
        })
    }
}

impl Same for Held {
    fn same(&self, other: &Held) -> bool {
        self.place == other.place && self.holding.same(&other.holding)
    }
}

/// The handle made just after, or none, in the place of a handle.
#[derive(Clone, Copy)]
pub struct Later(pub Option<u32>);

impl Update<Held> for Later {
    ghost can = { λ _ _. ⊤ };

    ghost to = { λ later held. record held { place = record held.place { later = later.0 } } };

    ghost answer = { λ _ _. true };

    fn update(&self, _alloc: Global, held: &mut Held) -> Result<bool, AllocError> {
        held.place.later = self.0;
        Ok(true)
    }

    fn updated(&self, _alloc: Global, held: &Held) -> Result<(Held, bool), AllocError> {
        let held = held.at(Place {
            later: self.0,
            ..held.place
        })?;
        Ok((held, true))
    }
}

/// The handle made just before, or none, in the place of a handle.
#[derive(Clone, Copy)]
pub struct Earlier(pub Option<u32>);

impl Update<Held> for Earlier {
    ghost can = { λ _ _. ⊤ };

    ghost to = { λ earlier held. record held {
      place = record held.place { earlier = earlier.0 };
    } };

    ghost answer = { λ _ _. true };

    fn update(&self, _alloc: Global, held: &mut Held) -> Result<bool, AllocError> {
        held.place.earlier = self.0;
        Ok(true)
    }

    fn updated(&self, _alloc: Global, held: &Held) -> Result<(Held, bool), AllocError> {
        let held = held.at(Place {
            earlier: self.0,
            ..held.place
        })?;
        Ok((held, true))
    }
}
