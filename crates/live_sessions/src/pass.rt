//! A session's token: its reader, and what it saw last.
ghost use Rattle.std.specs.Prelude.{⊤, ◌≡◌, ◌<◌, ◌≤◌, IfSome};
ghost use mathlib.Core.List.{IsPrefix};
ghost use Rattle.std.specs.Borrow.{sem, follows_so};
ghost use mathlib.Core.Option.{none};
ghost use Rattle.live_sessions.specs.contracts.pass.Pass.{the_row};
ghost use Rattle.live_sessions.specs.Views.{PassView, Reads};
ghost use Rattle.live_sessions.specs.Desks.{IsAfter, IsSomeVersion};
ghost use Rattle.live_sessions.specs.Fronts.{count_of, IsFront};

use crate::book::{Front, Naming};
use crate::limits::PLACES;
use crate::shown::Shown;
use edit_desk::Published;
use left_right::ReadHandle;
use std::marker::Model;

/// A session's place of a `Live`, by which it submits and reads. Contracts see the session, its front and its number of answered
/// submits.
#[derive(Drop)]
pub struct Pass<J: Naming> {
    session: u32,
    reader: ReadHandle<Shown<J>>,
    front: Front<J>,
    last: Published,
    answered: u32,
}

impl<J: Naming> Model for Pass<J> {
    ghost use Rattle.live_sessions.specs.Views.{PassView, Stands};

    ghost Value = { PassView };

    ghost view = { λ p. record { session = p.session; front = p.front; answered = p.answered } };

    ghost invariant = { λ p. Stands J.opening (record { session = p.session; front = p.front; answered = p.answered }) p.last };
}

impl<J: Naming> Pass<J> {
    /// The place of a session, which has seen so much.
    pub(crate) fn new(
        session: u32,
        reader: ReadHandle<Shown<J>>,
        front: Front<J>,
        last: Published,
    ) -> Pass<J>
        requires session { session < PLACES }
        requires run { IsAfter J.opening last front }
        ensures { (result.session ≡ session) × (result.front ≡ front) × (result.answered ≡ 0) }
    {
        // It makes known that the front is legal.
        let _len = front.len();
        Pass {
            session,
            reader,
            front,
            last,
            answered: 0,
        }
    }

    pub fn session(&self) -> u32
        ensures session { (result ≡ self.now.session) × (result < PLACES) }
        ensures own { self.now.answered ≤ count_of self.now.session self.now.front }
        ensures legal { IsFront J.opening self.now.front }
    {
        self.session
    }

    pub fn answered(&self) -> u32
        ensures { result ≡ self.now.answered }
    {
        self.answered
    }

    pub fn front(&self) -> &Front<J>
        ensures { result.now ≡ self.now.front }
    {
        &self.front
    }

    /// What was seen last, which is the run after the front.
    pub fn last(&self) -> &Published
        ensures { IsAfter J.opening result.now self.now.front × IsFront J.opening self.now.front }
    {
        &self.last
    }

    /// Sees what stands, if it can.
    pub fn look(&mut self)
        ensures front { IsPrefix self.old.front self.new.front }
        ensures same { (self.new.session ≡ self.old.session)
            × (self.new.answered ≡ self.old.answered) }
    {
        let Some(shown) = self.reader.enter() else {
            return;
        };
        if !self.front.begins(shown.front()) {
            return;
        }
        let Ok(seen) = shown.share() else {
            return;
        };
        let front = shown.front().again();
        self.front = front;
        self.last = seen;
    }

    /// The version that a read would show, if there is one and it can be shared. The pass sees no more than before.
    pub(crate) fn standing(&mut self) -> Option<Published>
        ensures same { self.new ≡ self.old }
        ensures run { IfSome result (λ p. IsSomeVersion J.opening p) }
    {
        let shown = self.reader.enter()?;
        match shown.share() {
            Ok(version) => Some(version),
            Err(_) => None,
        }
    }

    /// What stands, or what was seen last.
    pub fn read(&mut self) -> &Published
        ensures* reads { let row = the_row J.row (record { book = J.book; opening = J.opening }) in
            sem 𝓛 (follows_so row row self.entry.ghost_name none (λ _ _. ⊤)
            (λ new. Reads J.opening self.old new × IsAfter J.opening result.now new.front)) }
    {
        self.look();
        self.last()
    }

    /// Takes in a longer front, with the run after it.
    pub(crate) fn adopt(&mut self, front: Front<J>, last: Published, answered: u32)
        requires run { IsAfter J.opening last front }
        requires own { answered ≤ count_of self.old.session front }
        ensures { (self.new.front ≡ front) × (self.new.session ≡ self.old.session)
            × (self.new.answered ≡ answered) }
    {
        // It makes known that the front is legal.
        let _len = front.len();
        self.front = front;
        self.last = last;
        self.answered = answered;
    }
}
