//! What lies under the lock: the desk, the whole history as it was seen, and what publishes the version that stands.
ghost use Rattle.std.specs.Prelude.{◌≡◌, ◌<◌, ◌≤◌, ◌++◌, ◌∷◌, [], length, IfOk, OnOk, OnErr, IfSome, All};
ghost use Rattle.std.specs.Bool.{OnTrue};
ghost use Rattle.edit_desk.specs.declared.replies.Reply.TheVariants.{HistoryFull};
ghost use mathlib.Core.List.{IsPrefix};
ghost use Rattle.live_sessions.specs.Views.{Replied, Grown, HasMet, SawFull};
ghost use Rattle.live_sessions.specs.Turns.{IsTurn};
ghost use Rattle.live_sessions.specs.Desks.{Follows, IsShown};
ghost use Rattle.live_sessions.specs.ShownView.{shown_view};

use crate::book::{Book, Front, Naming};
use crate::counted::CountedDesk;
use crate::faults::{NoMeeting, SubmitFault};
use crate::pass::Pass;
use crate::publisher::Publisher;
use crate::receipt::Receipt;
use crate::shown::Shown;
use edit_desk::{Prepared, Published, Reply, Request};
use op_step::ChunkRun;
use std::alloc::{AllocError, Global};
use std::marker::Model;
use trace_types::limits::MAX_ENTRIES;

/// The desk, with what publishes its versions. Contracts see the history.
#[derive(Drop)]
pub struct LockedDesk<J: Naming, W: Publisher<Value = Shown<J>>> {
    alloc: Global,
    desk: CountedDesk,
    front: Front<J>,
    writer: W,
    // Whether the version that stands is published. An entry stands even where memory was wanting to publish it.
    current: bool,
}

impl<J: Naming, W: Publisher<Value = Shown<J>>> Model for LockedDesk<J, W> {
    ghost use Rattle.std.specs.Prelude.{◌≡◌, List, true};
    ghost use Rattle.edit_desk.specs.declared.entries.Entry.{Entry};
    ghost use Rattle.live_sessions.specs.Desks.{IsAfter, IsShown};

    ghost Value = { List Entry };

    ghost view = { λ h. h.desk.history };

    ghost invariant = { λ h. (h.desk.opening ≡ J.opening) × (h.front ≡ h.desk.history) × (h.current ≡ true → IsShown J.opening (W.shown h.writer) h.desk.history) };
}

// How a submit goes on after the meeting.
enum Turn {
    Room,
    Full,
}

// What follows when an entry has joined the log: the front with it, and its version, once to take in and once to publish.
#[derive(Drop)]
struct Joined<J: Naming> {
    front: Front<J>,
    last: Published,
    shown: Shown<J>,
}

impl<J: Naming, W: Publisher<Value = Shown<J>>> LockedDesk<J, W> {
    /// Answers a request of a pass's session, stores it and publishes what stands then. Guesses that are right are taken. After a fault the pass and the history
    /// are as before.
    pub fn submit(
        &mut self,
        book: &Book<J>,
        pass: &mut Pass<J>,
        request: Request,
        guesses: Vec<ChunkRun>,
    ) -> Result<Reply, SubmitFault>
        ensures reply { IfOk result
            (λ r. Replied J.opening pass.old pass.new request r
            × Grown self.old self.new pass.old.session request r) }
        ensures err { OnErr result ((self.new ≡ self.old) × (pass.new ≡ pass.old)) }
    {
        match self.turn(pass) {
            Ok(Turn::Room) => self.store(book, pass, request, guesses),
            Ok(Turn::Full) => self.show_all(pass),
            Err(fault) => Err(fault),
        }
    }

    // The meeting: whether the history has room for an entry of the pass's session.
    fn turn(&mut self, pass: &Pass<J>) -> Result<Turn, SubmitFault>
        ensures same { self.new ≡ self.old }
        ensures turn { IfOk result (λ t. HasMet pass.now self.old × IsTurn self.old t) }
    {
        if !self.catches_up() {
            return Err(SubmitFault::Memory);
        }
        if !self.has_met(pass) {
            return Err(SubmitFault::NoMeeting);
        }
        if self.desk.len() < MAX_ENTRIES {
            return Ok(Turn::Room);
        }
        Ok(Turn::Full)
    }

    // Whether the pass's front begins the history and has all entries of its session.
    fn has_met(&self, pass: &Pass<J>) -> bool
        ensures { OnTrue result (HasMet pass.now self.now) }
    {
        if !pass.front().begins(&self.front) {
            return false;
        }
        if pass.answered() != self.desk.count(pass.session()) {
            return false;
        }
        true
    }

    // Answers where the history is full, of which the pass sees all.
    fn show_all(&self, pass: &mut Pass<J>) -> Result<Reply, SubmitFault>
        requires met { HasMet pass.old self.now }
        requires full { MAX_ENTRIES ≤ length self.now }
        ensures reply { IfOk result (λ r. (r ≡ HistoryFull) × SawFull J.opening pass.old pass.new) }
        ensures err { OnErr result (pass.new ≡ pass.old) }
    {
        let last = self.desk.published().share()?;
        let _session = pass.session();
        let _len = self.desk.len();
        let answered = pass.answered();
        pass.adopt(self.front.again(), last, answered);
        Ok(Reply::HistoryFull)
    }

    // Answers where the history has room: first all that may want memory, then the step of the log, and after it nothing that
    // may fail.
    fn store(
        &mut self,
        book: &Book<J>,
        pass: &mut Pass<J>,
        request: Request,
        guesses: Vec<ChunkRun>,
    ) -> Result<Reply, SubmitFault>
        requires met { HasMet pass.old self.old }
        requires room { length self.old < MAX_ENTRIES }
        ensures reply { IfOk result
            (λ r. Replied J.opening pass.old pass.new request r
            × Grown self.old self.new pass.old.session request r) }
        ensures err { OnErr result ((self.new ≡ self.old) × (pass.new ≡ pass.old)) }
    {
        let session = pass.session();
        let count = pass.answered();
        let prepared = self.desk.prepare(self.alloc, session, request, guesses)?;
        match add_to_log(&self.front, book, &prepared) {
            Ok(Joined { front, last, shown }) => {
                self.writer.show(shown);
                self.current = is_current(&self.writer, &front);
                let reply = self.desk.commit(prepared);
                pass.adopt(front.again(), last, count + 1);
                self.front = front;
                Ok(reply)
            }
            Err(fault) => Err(fault),
        }
    }

    // Publishes what stands, where memory was wanting to do so before, and says whether it is published.
    fn catches_up(&mut self) -> bool
        ensures { self.new ≡ self.old }
    {
        if self.current {
            return true;
        }
        let Ok(run) = self.desk.published().share() else {
            return false;
        };
        self.writer.show(Shown::new(run, self.front.again()));
        self.current = is_current(&self.writer, &self.front);
        self.current
    }

    /// A desk with what publishes its versions.
    pub fn new(alloc: Global, desk: CountedDesk, front: Front<J>, writer: W) -> LockedDesk<J, W>
        requires opening { desk.opening ≡ J.opening }
        requires front { front ≡ desk.history }
        ensures { result ≡ desk.history }
    {
        let current = is_current(&writer, &front);
        LockedDesk {
            alloc,
            desk,
            front,
            writer,
            current,
        }
    }

    /// A receipt, where the pass's front begins the history and has all of the session's entries.
    pub fn receipt(&self, pass: &Pass<J>) -> Option<Receipt<J>>
        ensures { IfSome result (λ r. (r ≡ pass.now) × IsPrefix pass.now.front self.now) }
    {
        if !self.has_met(pass) {
            return None;
        }
        Some(Receipt::new(pass.session(), pass.answered(), pass.front().again()))
    }

    /// The desk, where each receipt's front begins its history.
    pub fn close(self, receipts: &[Receipt<J>]) -> Result<CountedDesk, NoMeeting>
        ensures begun { IfOk result (λ d. All (λ r. IsPrefix r.front d.history) receipts.now) }
        ensures desk { IfOk result (λ d. (d.history ≡ self) × (d.opening ≡ J.opening)) }
    {
        for at in 0..receipts.len() {
            if !receipts[at].front().begins(&self.front) {
                return Err(NoMeeting);
            }
        }
        let LockedDesk {
            alloc: _,
            desk,
            front: _front,
            writer: _writer,
            current: _,
        } = self;
        Ok(desk)
    }
}

// Adds the entry of what was prepared to the log, which begins with this front and has no more.
fn add_to_log<J: Naming>(
    front: &Front<J>,
    book: &Book<J>,
    prepared: &Prepared,
) -> Result<Joined<J>, SubmitFault>
    requires follows { Follows J.opening front.now prepared.now.entry prepared.now.next }
    requires room { length front.now < MAX_ENTRIES }
    ensures front { IfOk result (λ it. it.front ≡ front.now ++ prepared.now.entry ∷ []) }
    ensures last { IfOk result (λ it. it.last ≡ prepared.now.next) }
    ensures shown { IfOk result (λ it. it.shown ≡ shown_view prepared.now.next it.front) }
{
    let last = prepared.published().share()?;
    let run = prepared.published().share()?;
    let mut front = front.again();
    if !front.add(book, prepared.entry()) {
        return Err(SubmitFault::NoMeeting);
    }
    let shown = Shown::new(run, front.again());
    Ok(Joined { front, last, shown })
}

// Whether readers take the version after this front.
fn is_current<J: Naming, W: Publisher<Value = Shown<J>>>(writer: &W, front: &Front<J>) -> bool
    ensures { OnTrue result (IsShown J.opening (W.shown writer.now) front.now) }
{
    let shown = writer.stands().front();
    if !front.begins(shown) {
        return false;
    }
    shown.begins(front)
}
