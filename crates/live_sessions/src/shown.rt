//! What `left_right` publishes.
ghost use Rattle.std.specs.Prelude.{◌≡◌, IfOk};
ghost use Rattle.live_sessions.specs.Desks.{IsAfter, IsShown};
ghost use Rattle.live_sessions.specs.Fronts.{IsFront};
ghost use Rattle.live_sessions.specs.ShownView.{shown_view};

use crate::book::{Front, Naming};
use edit_desk::{Entry, Published};
use left_right::Absorb;
use std::alloc::AllocError;
use std::collections::LinkedList;
use std::marker::Model;

/// What a published value says: the version with its run, and the history that it comes after. No value of it is made.
pub struct ShownView {
    pub published: Published,
    pub entries: LinkedList<Entry>,
}

/// A version, with the beginning of the one history that it comes after. It is the value that `left_right` publishes, and its
/// operation, which sets it whole.
#[derive(Drop)]
pub struct Shown<J: Naming> {
    published: Published,
    front: Front<J>,
}

impl<J: Naming> Model for Shown<J> {
    ghost use Rattle.live_sessions.specs.declared.shown.ShownView.{ShownView};
    ghost use Rattle.live_sessions.specs.ShownView.{shown_view};
    ghost use Rattle.live_sessions.specs.Desks.{IsAfter};
    ghost use Rattle.live_sessions.specs.Fronts.{IsFront};

    ghost Value = { ShownView };

    ghost view = { λ s. shown_view s.published s.front };

    ghost invariant = { λ s. IsAfter J.opening s.published s.front × IsFront J.opening s.front };
}

impl<J: Naming> Shown<J> {
    pub fn new(published: Published, front: Front<J>) -> Shown<J>
        requires { IsAfter J.opening published front }
        ensures { result ≡ shown_view published front }
    {
        // It makes known that the front is legal.
        let _len = front.len();
        Shown { published, front }
    }

    pub fn front(&self) -> &Front<J>
        ensures front { result.now ≡ self.now.entries }
        ensures run { IsShown J.opening self.now self.now.entries }
    {
        &self.front
    }

    /// The same version again. Copies nothing of the run.
    pub fn share(&self) -> Result<Published, AllocError>
        ensures run { IfOk result (λ p. IsAfter J.opening p self.now.entries) }
        ensures legal { IsFront J.opening self.now.entries }
    {
        self.published.share()
    }
}

impl<J: Naming> Absorb<Shown<J>> for Shown<J> {
    type State = ShownView;

    ghost state = { λ s. s };

    ghost applied = { λ _ op. op };

    fn absorb_first(&mut self, operation: &Shown<J>, _other: &Shown<J>) -> Result<(), AllocError> {
        let published = operation.published.share()?;
        *self = Shown {
            published,
            front: operation.front.again(),
        };
        Ok(())
    }

    fn absorb_second(&mut self, operation: Shown<J>, _other: &Shown<J>) -> Result<(), Shown<J>> {
        *self = operation;
        Ok(())
    }
}
