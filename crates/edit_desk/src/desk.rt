//! The desk: it keeps the trace that stands, its version, its run, and the history of what it was asked.
ghost use Rattle.std.specs.Prelude.{◌≡◌, ◌≢◌, ◌<◌, ◌≤◌, ◌+◌, ◌++◌, ◌∷◌, [], length, slice_get, Ok, Err, IfOk, OnOk, OnErr, IsErr};
ghost use Rattle.std.specs.Option.{option_copied};
ghost use Rattle.run_engine.specs.Edited.{edited_by};
ghost use Rattle.edit_desk.specs.declared.entries.Entry.{Entry};
ghost use Rattle.edit_desk.specs.declared.replies.Reply.TheVariants.{HistoryFull};
ghost use Rattle.edit_desk.specs.Answers.{opened, reply_to, after, IsLegal};
ghost use Rattle.edit_desk.specs.Versions.{IsDue, IsSettled, IsNextRun, ReplaysWithin, StepsAtLeast};
ghost use Rattle.run_engine.specs.RunView.{RunView};
ghost use Rattle.run_engine.specs.Marks.{load_marks};
ghost use Rattle.run_engine.specs.GivenUp.{names_at, IsTouched};
ghost use Rattle.run_engine.specs.Guesses.{with_guesses};
ghost use Rattle.mark_shelf.specs.Shelf.{empty_shelf};
ghost use Rattle.op_step.specs.Meter.{raised};

use crate::entries::{Entry, Request};
use crate::kept::{KEPT_CHUNKS, KEPT_MARKS, KEPT_NAMES};
use crate::prepared::Prepared;
use crate::published::{Published, revised};
use crate::replies::Reply;
use mark_shelf::MarkShelf;
use op_step::{ChunkRun, Meter};
use run_engine::Run;
use std::alloc::{AllocError, Global};
use std::marker::Model;
use std::sync::Arc;
use trace_types::limits::MAX_ENTRIES;
use trace_types::trace::Trace;

/// One trace in versions. Contracts see the trace that stands, its version and the history, the checkpoints of its run, the
/// shelf that bounds them, the room for more entries that is there already, and how many operations were replayed.
///
/// The history leads from the opening trace to what stands, and each reply in it is the one that was due.
#[derive(Drop)]
pub struct Desk {
    opening: Trace,
    published: Published,
    history: Vec<Arc<Entry>>,
    shelf: MarkShelf,
    meter: Meter,
}

impl Model for Desk {
    ghost use Rattle.std.specs.Prelude.{◌≤◌, ◌-◌, length, map};
    ghost use Rattle.std.specs.Arc.{arc_value};
    ghost use Rattle.std.specs.Vec.{vec_len, vec_capacity};
    ghost use Rattle.trace_types.specs.declared.limits.TheConstants.{MAX_ENTRIES};
    ghost use Rattle.edit_desk.specs.Answers.{IsLegal};
    ghost use Rattle.edit_desk.specs.Versions.{DeskView, desk_code};

    ghost Value = { DeskView };

    ghost coded = { desk_code };

    ghost view = { λ d. record {
      standing = record { opening = d.opening; trace = d.published.run.trace; version = d.published.version; history = map arc_value d.history.items };
      marks = d.published.run.marks;
      shelf = d.shelf;
      room = vec_capacity d.history - vec_len d.history;
      meter = d.meter;
    } };

    ghost invariant = { λ d. (d.published.version ≤ length d.history.items) × (length d.history.items ≤ MAX_ENTRIES)
        × IsLegal (record { opening = d.opening; trace = d.published.run.trace; version = d.published.version; history = map arc_value d.history.items }) };
}

impl Desk {
    /// A desk with this trace, at version 0, which was asked nothing yet. The trace is replayed, and of its checkpoints those are given up
    /// for which the shelf has no room.
    pub fn open(alloc: Global, trace: Trace) -> Result<Desk, AllocError>
        ensures standing { IfOk result (λ d. d.standing ≡ opened trace) }
        ensures marks { IfOk result
            (λ d. let all : RunView = record { trace = trace; marks = load_marks (length trace) }
            in IsTouched all (record { trace = trace; marks = d.marks })
            (empty_shelf KEPT_MARKS KEPT_CHUNKS KEPT_NAMES) d.shelf (names_at trace all.marks)) }
        ensures meter { IfOk result (λ d. d.meter ≡ raised 0 (length trace)) }
    {
        let mut meter = Meter::new();
        let mut shelf = MarkShelf::new(alloc, KEPT_MARKS, KEPT_CHUNKS, KEPT_NAMES)?;
        let run = Run::load_kept(alloc, &trace, &mut shelf, &mut meter)?;
        Ok(Desk {
            opening: trace,
            published: Published::new(alloc, 0, run)?,
            history: Vec::new(alloc),
            shelf,
            meter,
        })
    }

    /// The version of the trace that stands, with its run.
    pub fn published(&self) -> &Published
        ensures trace { result.now.run.trace ≡ self.now.standing.trace }
        ensures version { result.now.version ≡ self.now.standing.version }
        ensures marks { result.now.run.marks ≡ self.now.marks }
    {
        &self.published
    }

    /// The version of the trace that stands: how many requests were accepted.
    pub fn version(&self) -> u32
        ensures { result ≡ self.now.standing.version }
    {
        self.published.version()
    }

    /// How many requests were answered and stored.
    pub fn len(&self) -> usize
        ensures length { result ≡ length self.now.standing.history }
        ensures most { result ≤ MAX_ENTRIES }
    {
        self.history.len()
    }

    /// The entry at a place of the history, from 0.
    pub fn entry(&self, place: usize) -> Option<&Entry>
        ensures { option_copied result ≡ slice_get self.now.standing.history place }
    {
        Some(self.history.get(place)?)
    }

    /// The trace that was opened. By its clauses a caller knows that the history leads from it to what stands.
    pub fn opening(&self) -> &Trace
        ensures value { result.now ≡ self.now.standing.opening }
        ensures legal { IsLegal self.now.standing }
    {
        &self.opening
    }

    /// How many operations were replayed.
    pub fn meter(&self) -> &Meter
        ensures { result.now ≡ self.now.meter }
    {
        &self.meter
    }

    /// Replies to a session's request, and makes its edits where it accepts them. Guesses may serve these, as with `Run::edited`: the reply and
    /// what stands then are the same whatever they are. Out of memory the trace, its version
    /// and the history stay as they were; the meter may have risen, and the shelf may have been touched.
    pub fn answer(
        &mut self,
        alloc: Global,
        session: u32,
        request: Request,
        guesses: Vec<ChunkRun>,
    ) -> Result<Reply, AllocError>
        ensures reply { IfOk result (λ r. r ≡ reply_to self.old.standing request) }
        // A full history is told without memory.
        ensures history_full { MAX_ENTRIES ≤ length self.old.standing.history →
            result ≡ Ok HistoryFull }
        ensures after { OnOk result (self.new.standing ≡ after self.old.standing session request) }
        ensures unchanged { OnErr result (self.new.standing ≡ self.old.standing) }
        ensures run { OnOk result
            (let next : RunView = record { trace = self.new.standing.trace; marks = self.new.marks }
            in IsNextRun guesses.items self.old.standing.trace self.old.marks next
            self.old.shelf self.new.shelf) }
        ensures same_run { OnErr result (self.new.marks ≡ self.old.marks) }
        ensures bound { length self.old.standing.history < MAX_ENTRIES →
            request.base ≡ self.old.standing.version →
            ReplaysWithin self.old.standing.trace self.old.marks request.batch
            self.old.meter self.new.meter }
        ensures stepped { OnOk result (length self.old.standing.history < MAX_ENTRIES →
            request.base ≡ self.old.standing.version →
            StepsAtLeast self.old.standing.trace self.old.marks
            (with_guesses guesses.items self.old.shelf.chunks) request.batch
            self.old.meter self.new.meter) }
        ensures full { MAX_ENTRIES ≤ length self.old.standing.history →
            self.new.meter ≡ self.old.meter }
        ensures full_shelf { MAX_ENTRIES ≤ length self.old.standing.history →
            self.new.shelf ≡ self.old.shelf }
        ensures stale { request.base ≢ self.old.standing.version → self.new.meter ≡ self.old.meter }
        ensures refused { IsErr (edited_by self.old.standing.trace request.batch) →
            self.new.meter ≡ self.old.meter }
        ensures stale_shelf { request.base ≢ self.old.standing.version →
            self.new.shelf ≡ self.old.shelf }
        ensures refused_shelf { IsErr (edited_by self.old.standing.trace request.batch) →
            self.new.shelf ≡ self.old.shelf }
        ensures never_less { self.old.meter ≤ self.new.meter }
    {
        if self.history.len() >= MAX_ENTRIES {
            return Ok(Reply::HistoryFull);
        }
        let prepared = self.prepare(alloc, session, request, guesses)?;
        Ok(self.commit(prepared))
    }

    /// Replies to a request, and makes all that the reply wants, but neither trace, version nor history change by it.
    /// Guesses may serve the edits, as with `Run::edited`. Ask first that `len` is below `MAX_ENTRIES`; out of memory the meter may have risen. The shelf is touched for an accepted
    /// request already here; where it isn't committed, checkpoints stay that the shelf has no names of.
    pub fn prepare(
        &mut self,
        alloc: Global,
        session: u32,
        request: Request,
        guesses: Vec<ChunkRun>,
    ) -> Result<Prepared, AllocError>
        requires { length self.old.standing.history < MAX_ENTRIES }
        ensures due { IfOk result (λ p. IsDue self.old.standing p) }
        ensures request { IfOk result
            (λ p. (p.entry.session ≡ session) × (p.entry.request ≡ request)) }
        ensures history { IfOk result
            (λ p. (after self.old.standing p.entry.session p.entry.request).history
            ≡ self.old.standing.history ++ p.entry ∷ []) }
        ensures legal { IfOk result
            (λ p. IsLegal (after self.old.standing p.entry.session p.entry.request)) }
        ensures run { IfOk result
            (λ p. IsNextRun guesses.items self.old.standing.trace self.old.marks p.next.run
            self.old.shelf self.new.shelf) }
        ensures room { OnOk result (0 < self.new.room) }
        ensures unchanged { self.new.standing ≡ self.old.standing }
        ensures same_run { self.new.marks ≡ self.old.marks }
        ensures bound { request.base ≡ self.old.standing.version →
            ReplaysWithin self.old.standing.trace self.old.marks request.batch
            self.old.meter self.new.meter }
        ensures stepped { OnOk result (request.base ≡ self.old.standing.version →
            StepsAtLeast self.old.standing.trace self.old.marks
            (with_guesses guesses.items self.old.shelf.chunks) request.batch
            self.old.meter self.new.meter) }
        ensures stale { request.base ≢ self.old.standing.version → self.new.meter ≡ self.old.meter }
        ensures refused { IsErr (edited_by self.old.standing.trace request.batch) →
            self.new.meter ≡ self.old.meter }
        ensures stale_shelf { request.base ≢ self.old.standing.version →
            self.new.shelf ≡ self.old.shelf }
        ensures refused_shelf { IsErr (edited_by self.old.standing.trace request.batch) →
            self.new.shelf ≡ self.old.shelf }
        ensures never_less { self.old.meter ≤ self.new.meter }
    {
        let (reply, next) = settle(
            alloc,
            &self.published,
            &request,
            guesses,
            &mut self.shelf,
            &mut self.meter,
        )?;
        self.history.reserve(1)?;
        let entry = Entry {
            session,
            request,
            reply,
        };
        let entry = Arc::new(alloc, entry)?;
        Ok(Prepared { entry, next })
    }

    /// Makes what was prepared stand, where nothing came between. Takes no memory.
    pub fn commit(&mut self, prepared: Prepared) -> Reply
        requires history { length self.old.standing.history < MAX_ENTRIES }
        requires room { 0 < self.old.room }
        requires due { IsDue self.old.standing prepared }
        ensures reply { result ≡ prepared.entry.reply }
        ensures after { self.new.standing
            ≡ after self.old.standing prepared.entry.session prepared.entry.request }
        ensures history { self.new.standing.history
            ≡ self.old.standing.history ++ prepared.entry ∷ [] }
        ensures marks { self.new.marks ≡ prepared.next.run.marks }
        ensures shelf { self.new.shelf ≡ self.old.shelf }
        ensures meter { self.new.meter ≡ self.old.meter }
    {
        let Prepared { entry, next } = prepared;
        let reply = entry.reply;
        self.history.push_reserved(entry);
        self.published = next;
        reply
    }
}

// The reply to a request whose history has room, and the version that stands then.
fn settle(
    alloc: Global,
    published: &Published,
    request: &Request,
    guesses: Vec<ChunkRun>,
    shelf: &mut MarkShelf,
    meter: &mut Meter,
) -> Result<(Reply, Published), AllocError>
    requires { published.now.version < MAX_ENTRIES }
    ensures settled { IfOk result (λ r. IsSettled published.now request.now r.0 r.1) }
    ensures run { IfOk result
        (λ r. IsNextRun guesses.items published.now.run.trace published.now.run.marks
        r.1.run shelf.old shelf.new) }
    ensures bound { request.now.base ≡ published.now.version →
        ReplaysWithin published.now.run.trace published.now.run.marks request.now.batch
        meter.old meter.new }
    ensures stepped { OnOk result (request.now.base ≡ published.now.version →
        StepsAtLeast published.now.run.trace published.now.run.marks
        (with_guesses guesses.items shelf.old.chunks) request.now.batch meter.old meter.new) }
    ensures stale { request.now.base ≢ published.now.version → meter.new ≡ meter.old }
    ensures refused { IsErr (edited_by published.now.run.trace request.now.batch) →
        meter.new ≡ meter.old }
    ensures stale_shelf { request.now.base ≢ published.now.version → shelf.new ≡ shelf.old }
    ensures refused_shelf { IsErr (edited_by published.now.run.trace request.now.batch) →
        shelf.new ≡ shelf.old }
    ensures never_less { meter.old ≤ meter.new }
{
    let version = published.version();
    if request.base != version {
        return Ok((Reply::Stale(version), published.share()?));
    }
    match revised(alloc, published, &request.batch, guesses, shelf, meter) {
        Ok(run) => {
            let next = Published::new(alloc, version + 1, run)?;
            Ok((Reply::Accepted(version + 1), next))
        }
        Err(fault) => match fault.refusal() {
            Some(why) => Ok((Reply::Refused(why), published.share()?)),
            None => Err(AllocError),
        },
    }
}
