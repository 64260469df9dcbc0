//! A publish that waits before and after it is made: reads go on while a submit is inside, under the lock.
ghost use Rattle.std.specs.Prelude.{◌≡◌, []};
ghost use Rattle.live_sessions.specs.Events.{opening_of};

use crate::cases::both;
use crate::requests::{one_new, removal, wait_for};
use crate::steps::{leaves, submits};
use edit_desk::{Desk, Reply};
use live_sessions::{
    CountedDesk, Live, Naming, Pass, Places, Publisher, Receipt, Shown, Started, writer_of,
};
use std::alloc::Global;
use std::marker::Brand;
use std::process::Abort;
use std::sync::Wait;
use std::sync::atomic::{AtomicU64, Ordering};
use std::test::Fail;
use std::thread;
use std::thread::Threads;

// Waits for reads before it publishes, and for more of them afterwards.
#[derive(Drop)]
struct Waiting<'a, P, R> {
    publisher: P,
    rt: R,
    turn: &'a AtomicU64,
}

impl<P: Publisher, R: Wait + Drop> Publisher for Waiting<'_, P, R> {
    type Value = P::Value;

    ghost shown = { λ w. P.shown w.publisher };

    fn show(&mut self, next: P::Value) {
        self.turn.store(1, Ordering::SeqCst);
        wait_for(&self.rt, self.turn, 2);
        self.publisher.show(next);
        self.turn.store(3, Ordering::SeqCst);
        wait_for(&self.rt, self.turn, 4);
    }

    fn stands(&self) -> &P::Value
        ensures { result.now ≡ P.shown self.now.publisher }
    {
        self.publisher.stands()
    }
}

// Submits, which waits inside for the other session's reads.
fn removes<J: Naming, W: Publisher<Value = Shown<J>>, S: Threads + Wait + Abort + Sync>(
    rt: &S,
    alloc: Global,
    live: &Live<J, W>,
    mut pass: Pass<J>,
) -> Option<Receipt<J>> {
    submits(
        rt,
        live,
        &mut pass,
        removal(alloc, 0, 1),
        Reply::Accepted(1),
    )?;
    leaves(rt, live, pass, 1)
}

// Reads many times while the submit is inside: the version that stood before it, and then the one that was published.
fn reads<J: Naming, S: Wait + Abort>(rt: &S, mut pass: Pass<J>, turn: &AtomicU64) -> Pass<J> {
    wait_for(rt, turn, 1);
    for _ in 0..10_000u32 {
        assert!(rt; pass.read().version() == 0);
    }
    turn.store(2, Ordering::SeqCst);
    wait_for(rt, turn, 3);
    for _ in 0..10_000u32 {
        assert!(rt; pass.read().version() == 1);
    }
    turn.store(4, Ordering::SeqCst);
    pass
}

fn side_by_side<
    J: Naming + Send + Sync,
    W: Publisher<Value = Shown<J>> + Send,
    S: Threads + Wait + Abort + Sync + Send,
>(rt: &S, alloc: Global, live: &Live<J, W>, turn: &AtomicU64) -> Option<Vec<Receipt<J>>> {
    let first = live.join(rt).ok()?;
    let second = live.join(rt).ok()?;
    let (left, pass) = thread::join(
        rt,
        move || removes(rt, alloc, live, first),
        move || reads(rt, second, turn),
    );
    both(alloc, left?, leaves(rt, live, pass, 0)?)
}

fn with_waiting<J: Naming + Send + Sync, S: Threads + Wait + Abort + Sync + Send>(
    rt: &S,
    alloc: Global,
    started: Started,
) -> Option<Desk>
    requires book { started.begun.seen.book ≡ J.book }
    requires opening { opening_of started.begun.seen.log ≡ J.opening }
    requires fresh { (started.desk.standing.opening ≡ J.opening) × (started.desk.standing.history ≡ []) }
{
    let Started { begun, desk } = started;
    let desk = CountedDesk::new(desk);
    let (book, front) = begun.named::<J>();
    let writer = writer_of::<J, &S>(rt, alloc, &desk, &front).ok()?;
    let places = Places::new(alloc, &writer, &desk, &front).ok()?;
    let turn = AtomicU64::new(0);
    let waiting = Waiting {
        publisher: writer,
        rt,
        turn: &turn,
    };
    let live = Live::over(alloc, book, desk, front, places, waiting, 2);
    let receipts = side_by_side(rt, alloc, &live, &turn)?;
    live.close(receipts).ok()
}

fn desk_waited_for<S: Threads + Wait + Abort + Sync + Send>(rt: &S, alloc: Global) -> Option<Desk> {
    let started = Started::new(alloc, one_new(alloc)?).ok()?;
    with_waiting::<Brand, _>(rt, alloc, started)
}

#[test]
fn reads_go_on_inside_a_submit(rt: HostRuntime) -> Result<(), Fail> {
    let desk = desk_waited_for(&rt, rt.alloc()).ok_or("both sessions leave")?;
    assert_eq!(rt; desk.len(), 1);
    assert_eq!(rt; desk.version(), 1);
    Ok(())
}
