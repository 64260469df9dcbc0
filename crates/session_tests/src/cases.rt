//! Sessions that edit and read one trace, from threads of their own.
ghost use Rattle.std.specs.Prelude.{◌≡◌, [], IfOk};
ghost use Rattle.live_sessions.specs.Events.{opening_of};

use crate::{order, places, refused, sixteen};
use edit_desk::Desk;
use live_sessions::{Live, Naming, Publisher, Receipt, Shown, Started, open};
use std::alloc::Global;
use std::marker::Brand;
use std::process::Abort;
use std::sync::Wait;
use std::thread::Threads;
use trace_types::trace::Trace;

// What the sessions of a test do.
#[derive(Clone, Copy)]
pub(crate) enum Case {
    TwoSessions,
    BothRemove,
    Places,
    ComesBack,
    FullHistory,
    Sixteen,
    Refused,
}

// The receipts of the sessions that left, where all went well.
fn played<
    J: Naming + Send + Sync,
    W: Publisher<Value = Shown<J>> + Send,
    S: Threads + Wait + Abort + Sync + Send,
>(rt: &S, alloc: Global, live: &Live<J, W>, case: Case) -> Option<Vec<Receipt<J>>> {
    match case {
        Case::TwoSessions => order::two_sessions(rt, alloc, live),
        Case::BothRemove => order::both_remove(rt, alloc, live),
        Case::Places => places::sixteen_places(rt, alloc, live),
        Case::ComesBack => places::comes_back(rt, alloc, live),
        Case::FullHistory => places::full_history(rt, alloc, live),
        Case::Sixteen => sixteen::twenty_each(rt, alloc, live),
        Case::Refused => refused::submits(rt, alloc, live),
    }
}

fn with_live<J: Naming + Send + Sync, S: Threads + Wait + Abort + Sync + Send>(
    rt: &S,
    alloc: Global,
    started: Started,
    case: Case,
) -> Option<Desk>
    requires book { started.begun.seen.book ≡ J.book }
    requires opening { opening_of started.begun.seen.log ≡ J.opening }
    requires fresh { (started.desk.standing.opening ≡ J.opening) × (started.desk.standing.history ≡ []) }
{
    let live = open::<J, &S>(rt, alloc, started, 2).ok()?;
    let receipts = played(rt, alloc, &live, case)?;
    live.close(receipts).ok()
}

// The desk that sessions leave of a trace.
pub(crate) fn desk_after<S: Threads + Wait + Abort + Sync + Send>(
    rt: &S,
    alloc: Global,
    trace: Trace,
    case: Case,
) -> Option<Desk> {
    let started = Started::new(alloc, trace).ok()?;
    with_live::<Brand, _>(rt, alloc, started, case)
}

// Both receipts.
pub(crate) fn both<J: Naming>(
    alloc: Global,
    first: Receipt<J>,
    second: Receipt<J>,
) -> Option<Vec<Receipt<J>>> {
    let mut receipts = Vec::new(alloc);
    receipts.push(first).ok()?;
    receipts.push(second).ok()?;
    Some(receipts)
}
