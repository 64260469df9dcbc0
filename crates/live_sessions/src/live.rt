//! One trace that up to sixteen sessions edit and read, from threads of their own.
ghost use Rattle.std.specs.Prelude.{◌≡◌, ◌≤◌, [], IfOk, OnErr, MatchResult, All};
ghost use mathlib.Core.List.{IsPrefix};
ghost use Rattle.edit_desk.specs.Answers.{IsLegal};
ghost use Rattle.live_sessions.specs.Views.{Replied};
ghost use Rattle.live_sessions.specs.Events.{opening_of};

use crate::book::{Begun, Book, Front, Naming};
use crate::counted::CountedDesk;
use crate::faults::{NoMeeting, NoPlace, OpenFault, SubmitFault};
use crate::limits::READERS;
use crate::locked::LockedDesk;
use crate::pass::Pass;
use crate::places::Places;
use crate::publisher::Publisher;
use crate::receipt::Receipt;
use crate::shown::Shown;
use crate::workers::Workers;
use edit_desk::{Desk, Reply, Request};
use left_right::WriteHandle;
use op_step::ChunkRun;
use std::alloc::{AllocError, Global};
use std::sync::{Mutex, Wait};
use std::thread::Threads;
use trace_types::limits::MAX_WORKERS;
use trace_types::trace::Trace;

/// A desk that has opened, with the book of its history, which has no name yet.
#[derive(Drop)]
pub struct Started {
    pub begun: Begun,
    pub desk: Desk,
}

/// A trace with its versions, which sessions edit and read at once. `J` says which `Live` it is, so that no pass and no
/// receipt of another one is taken; `W` publishes.
#[derive(Drop)]
pub struct Live<J: Naming, W: Publisher<Value = Shown<J>>> {
    alloc: Global,
    book: Book<J>,
    desk: Mutex<LockedDesk<J, W>>,
    places: Mutex<Places<J>>,
    workers: Workers,
}

impl Started {
    /// Opens a desk with this trace, and a book whose history is its opening.
    pub fn new(alloc: Global, trace: Trace) -> Result<Started, AllocError>
        ensures trace { IfOk result (λ s. s.desk.standing.opening ≡ trace) }
        ensures fresh { IfOk result
            (λ s. (s.desk.standing.opening ≡ opening_of s.begun.seen.log)
            × (s.desk.standing.history ≡ [])) }
    {
        let desk = Desk::open(alloc, trace)?;
        let begun = Begun::new(desk.opening());
        Ok(Started { begun, desk })
    }
}

/// What publishes the versions of a `Live` that `open` made.
pub type Writer<J, R> = WriteHandle<Shown<J>, Shown<J>, R>;

/// What publishes, with room for all that a publish of one version takes.
pub fn writer_of<J: Naming, R: Wait + Drop>(
    rt: R,
    alloc: Global,
    desk: &CountedDesk,
    front: &Front<J>,
) -> Result<Writer<J, R>, OpenFault>
    requires opening { desk.now.opening ≡ J.opening }
    requires front { front.now ≡ desk.now.history }
{
    let first = desk.published().share()?;
    let second = first.share()?;
    let first = Shown::new(first, front.again());
    let second = Shown::new(second, front.again());
    let Ok(mut writer) = WriteHandle::new(alloc, rt, first, second, READERS) else {
        return Err(OpenFault::Memory);
    };
    // What was appended stands until the next publish has brought the other copy up. So two values stand in the list at most,
    // and after these two publishes it has the room for them: a later one wants no memory.
    for _ in 0..2 {
        let run = desk.published().share()?;
        if writer.append(Shown::new(run, front.again())).is_err() || writer.publish().is_err() {
            return Err(OpenFault::Memory);
        }
    }
    Ok(writer)
}

/// Lets sessions in to what was started. `J` is picked at the call: it names the book and the opening of what was started.
///
/// `submit` tells what the workers do, of which there are 1 to 16.
pub fn open<J: Naming, R: Wait + Drop>(
    rt: R,
    alloc: Global,
    started: Started,
    workers: u32,
) -> Result<Live<J, Writer<J, R>>, OpenFault>
    requires workers { (1 ≤ workers) × (workers ≤ MAX_WORKERS) }
    requires book { started.begun.seen.book ≡ J.book }
    requires opening { opening_of started.begun.seen.log ≡ J.opening }
    requires fresh { (started.desk.standing.opening ≡ J.opening)
        × (started.desk.standing.history ≡ []) }
{
    let Started { begun, desk } = started;
    let desk = CountedDesk::new(desk);
    let (book, front) = begun.named::<J>();
    let writer = writer_of(rt, alloc, &desk, &front)?;
    let places = Places::new(alloc, &writer, &desk, &front)?;
    Ok(Live::over(alloc, book, desk, front, places, writer, workers))
}

impl<J: Naming, W: Publisher<Value = Shown<J>>> Live<J, W> {
    /// A `Live` over any publisher, whose readers the places have; `open` makes one over `left_right`.
    pub fn over(
        alloc: Global,
        book: Book<J>,
        desk: CountedDesk,
        front: Front<J>,
        places: Places<J>,
        publisher: W,
        workers: u32,
    ) -> Live<J, W>
        requires workers { (1 ≤ workers) × (workers ≤ MAX_WORKERS) }
        requires opening { desk.opening ≡ J.opening }
        requires front { front ≡ desk.history }
    {
        Live {
            alloc,
            book,
            desk: Mutex::new(LockedDesk::new(alloc, desk, front, publisher)),
            places: Mutex::new(places),
            workers: Workers::new(workers),
        }
    }

    /// The lowest free place. It goes on from what its last pass left; a pass that was dropped keeps its place. Takes no
    /// memory.
    pub fn join<S: Wait>(&self, rt: &S) -> Result<Pass<J>, NoPlace> {
        self.places.lock(rt).take_lowest().ok_or(NoPlace)
    }

    /// Submits a request of the pass's session, and answers with the reply to it.
    ///
    /// Two workers or more first replay the stretches that the request changes, from the run that a read shows and outside the lock. Under it
    /// the reply takes of these guesses what is right. What the reply is does not depend on them.
    ///
    /// After `Ok` the entry stands, save where the reply is `HistoryFull`; and a read of any pass shows it or a later version,
    /// save where memory was wanting to publish it: the next submit publishes it first. After `Err` neither the pass nor the
    /// history has changed: `NoMeeting` comes where what the pass has seen, or the number of its session's entries, is not the
    /// history's, and `Memory` where memory was wanting.
    pub fn submit<S: Threads + Wait + Sync>(
        &self,
        rt: &S,
        pass: &mut Pass<J>,
        request: Request,
    ) -> Result<Reply, SubmitFault>
        ensures reply { IfOk result (λ r. Replied J.opening pass.old pass.new request r) }
        ensures err { OnErr result (pass.new ≡ pass.old) }
    {
        let guesses = self.guesses(rt, pass, &request);
        self.desk
            .lock(rt)
            .submit(&self.book, pass, request, guesses)
    }

    // What the workers guess of a request, without the lock. The pass stays as it is.
    fn guesses<S: Threads + Sync>(
        &self,
        rt: &S,
        pass: &mut Pass<J>,
        request: &Request,
    ) -> Vec<ChunkRun>
        ensures { pass.new ≡ pass.old }
    {
        if !self.workers.do_guess() {
            return Vec::new(self.alloc);
        }
        match pass.standing() {
            Some(standing) => self.workers.guesses(rt, self.alloc, &standing, request),
            None => Vec::new(self.alloc),
        }
    }

    /// A receipt for the pass, whose place is free again; or the pass as it was, where what it has seen is not the history's.
    /// Takes no memory.
    pub fn leave<S: Wait>(&self, rt: &S, pass: Pass<J>) -> Result<Receipt<J>, Pass<J>>
        ensures { MatchResult result (λ r. r ≡ pass) (λ p. p ≡ pass) }
    {
        let Some(receipt) = self.desk.lock(rt).receipt(&pass) else {
            return Err(pass);
        };
        self.places.lock(rt).put(pass);
        Ok(receipt)
    }

    /// The desk, whose history begins with the front of each receipt.
    pub fn close(self, receipts: Vec<Receipt<J>>) -> Result<Desk, NoMeeting>
        ensures begun { IfOk result
            (λ d. All (λ r. IsPrefix r.front d.standing.history) receipts.items) }
        ensures opening { IfOk result (λ d. d.standing.opening ≡ J.opening) }
        ensures legal { IfOk result (λ d. IsLegal d.standing) }
    {
        Ok(self.close_counted(receipts.as_slice())?.into_desk())
    }

    /// The desk with the number of each session's entries; its history begins with the front of each receipt.
    pub fn close_counted(self, receipts: &[Receipt<J>]) -> Result<CountedDesk, NoMeeting>
        ensures begun { IfOk result (λ d. All (λ r. IsPrefix r.front d.history) receipts.now) }
        ensures opening { IfOk result (λ d. d.opening ≡ J.opening) }
    {
        let Live {
            alloc: _,
            book: _book,
            desk,
            places: _places,
            workers: _workers,
        } = self;
        let locked = desk.into_inner();
        locked.close(receipts)
    }
}
