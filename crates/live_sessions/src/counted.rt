//! A desk that counts each session's entries.
ghost use Rattle.std.specs.Prelude.{◌≡◌, ◌+◌, ◌<◌, ◌≤◌, ◌∷◌, ◌++◌, [], false, length, IfOk, OnOk, All};
ghost use Rattle.edit_desk.specs.Answers.{IsLegal};
ghost use Rattle.edit_desk.specs.Versions.{IsDue};
ghost use Rattle.live_sessions.specs.Desks.{Follows, IsAfter};
ghost use Rattle.live_sessions.specs.Fronts.{is_full, count_of, standing_of, IsFront};

use crate::limits::PLACES;
use edit_desk::{Desk, Prepared, Published, Reply, Request};
use op_step::ChunkRun;
use std::alloc::{AllocError, Global};
use std::marker::Model;
use trace_types::limits::MAX_ENTRIES;

/// A desk that counts each session's entries. Contracts see its opening trace, its history, and the room that its history
/// has for more entries.
#[derive(Drop)]
pub struct CountedDesk {
    desk: Desk,
    counts: [u32; PLACES as usize],
}

impl Model for CountedDesk {
    ghost use Rattle.std.specs.Prelude.{◌≡◌};
    ghost use Rattle.live_sessions.specs.Desks.{CountedView, IsCounted};

    ghost Value = { CountedView };

    ghost view = { λ d. record { opening = d.desk.standing.opening; history = d.desk.standing.history; room = d.desk.room } };

    ghost invariant = { λ d. IsCounted d.counts d.desk.standing.history };
}

impl CountedDesk {
    /// A desk that was asked nothing yet.
    pub fn new(desk: Desk) -> CountedDesk
        requires { desk.standing.history ≡ [] }
        ensures { (result.opening ≡ desk.standing.opening) × (result.history ≡ []) }
    {
        CountedDesk {
            desk,
            counts: [0; PLACES as usize],
        }
    }

    /// How many entries the history has. By the clauses a caller knows that it is legal, and that its sessions have places.
    pub fn len(&self) -> usize
        ensures length { result ≡ length self.now.history }
        ensures legal { IsFront self.now.opening self.now.history }
        ensures most { length self.now.history ≤ MAX_ENTRIES }
        ensures sessions { All (λ e. e.session < PLACES) self.now.history }
    {
        let _opening = self.desk.opening();
        self.desk.len()
    }

    /// How many entries a session has.
    pub fn count(&self, session: u32) -> u32
        requires { session < PLACES }
        ensures { result ≡ count_of session self.now.history }
    {
        self.counts[session as usize]
    }

    /// The version that stands, with its run.
    pub fn published(&self) -> &Published
        ensures { IsAfter self.now.opening result.now self.now.history }
    {
        let _opening = self.desk.opening();
        self.desk.published()
    }

    /// Replies to a request, and makes all that the reply wants; guesses that are right are taken. The history stays as it is,
    /// also out of memory.
    pub fn prepare(
        &mut self,
        alloc: Global,
        session: u32,
        request: Request,
        guesses: Vec<ChunkRun>,
    ) -> Result<Prepared, AllocError>
        requires room { length self.old.history < MAX_ENTRIES }
        ensures same { (self.new.history ≡ self.old.history)
            × (self.new.opening ≡ self.old.opening) }
        ensures due { IfOk result (λ p. IsDue (standing_of self.old.opening self.old.history) p) }
        ensures follows { IfOk result
            (λ p. Follows self.old.opening self.old.history p.entry p.next) }
        ensures request { IfOk result
            (λ p. (p.entry.session ≡ session) × (p.entry.request ≡ request)) }
        ensures stored { IfOk result (λ p. is_full p.entry.reply ≡ false) }
        ensures room { OnOk result (0 < self.new.room) }
    {
        let _opening = self.desk.opening();
        self.desk.prepare(alloc, session, request, guesses)
    }

    /// Makes what was prepared stand, and counts its entry. Takes no memory.
    pub fn commit(&mut self, prepared: Prepared) -> Reply
        requires due { IsDue (standing_of self.old.opening self.old.history) prepared }
        requires session { prepared.entry.session < PLACES }
        requires history { length self.old.history < MAX_ENTRIES }
        requires room { 0 < self.old.room }
        ensures reply { result ≡ prepared.entry.reply }
        ensures after { (self.new.history ≡ self.old.history ++ prepared.entry ∷ [])
            × (self.new.opening ≡ self.old.opening) }
    {
        let _opening = self.desk.opening();
        let session = prepared.entry().session as usize;
        let reply = self.desk.commit(prepared);
        self.counts[session] += 1;
        reply
    }

    /// The desk alone.
    pub fn into_desk(self) -> Desk
        ensures value { (result.standing.history ≡ self.history)
            × (result.standing.opening ≡ self.opening) }
        ensures legal { IsLegal result.standing }
    {
        let _opening = self.desk.opening();
        let CountedDesk { desk, counts: _ } = self;
        desk
    }
}
