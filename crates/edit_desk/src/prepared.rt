//! A request that is answered, before it counts.
ghost use Rattle.std.specs.Prelude.{◌≡◌};

use crate::entries::Entry;
use crate::published::Published;
use std::marker::Model;
use std::sync::Arc;

/// A request with the reply to it, and the version that will stand when it is committed.
#[derive(Drop)]
pub struct Prepared {
    pub(crate) entry: Arc<Entry>,
    pub(crate) next: Published,
}

impl Model for Prepared {
    ghost use Rattle.std.specs.Arc.{arc_value};
    ghost use Rattle.edit_desk.specs.Versions.{PreparedView};

    ghost Value = { PreparedView };

    ghost view = { λ p. record { entry = arc_value p.entry; next = p.next } };
}

impl Prepared {
    /// The entry that the history will have.
    pub fn entry(&self) -> &Entry
        ensures { result.now ≡ self.now.entry }
    {
        &self.entry
    }

    /// What will stand.
    pub fn published(&self) -> &Published
        ensures { result.now ≡ self.now.next }
    {
        &self.next
    }
}
