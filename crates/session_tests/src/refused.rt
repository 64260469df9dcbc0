//! A submit that finds no memory. `tools/refused_memory` refuses each allocation in turn.
use crate::cases::{Case, desk_after};
use crate::requests::{new_and_clone, removal};
use crate::steps::leaves;
use edit_desk::{Desk, Reply, Request};
use live_sessions::{Live, Naming, Pass, Publisher, Receipt, Shown, SubmitFault};
use std::alloc::Global;
use std::process::Abort;
use std::sync::Wait;
use std::test::Fail;
use std::thread::Threads;
use trace_types::trace::Trace;

// What is made in two tries, of which one at most is refused memory.
fn request(alloc: Global) -> Option<Request> {
    match removal(alloc, 0, 2) {
        Some(request) => Some(request),
        None => removal(alloc, 0, 2),
    }
}

fn trace(alloc: Global) -> Option<Trace> {
    match new_and_clone(alloc) {
        Some(trace) => Some(trace),
        None => new_and_clone(alloc),
    }
}

fn desk<S: Threads + Wait + Abort + Sync + Send>(rt: &S, alloc: Global) -> Option<Desk> {
    let first = desk_after(rt, alloc, trace(alloc)?, Case::Refused);
    match first {
        Some(desk) => Some(desk),
        None => desk_after(rt, alloc, trace(alloc)?, Case::Refused),
    }
}

// Submits the removal. Where that finds no memory, the other pass reads no new version and no entry, and the same call goes
// well afterwards.
fn removes<J: Naming, W: Publisher<Value = Shown<J>>, S: Threads + Wait + Abort + Sync>(
    rt: &S,
    alloc: Global,
    live: &Live<J, W>,
    pass: &mut Pass<J>,
    other: &mut Pass<J>,
) -> Option<Reply> {
    match live.submit(rt, pass, request(alloc)?) {
        Ok(reply) => Some(reply),
        Err(fault) => {
            assert!(rt; fault == SubmitFault::Memory && pass.answered() == 0);
            assert!(rt; other.read().version() == 0 && other.front().len() == 0);
            live.submit(rt, pass, request(alloc)?).ok()
        }
    }
}

pub fn submits<J: Naming, W: Publisher<Value = Shown<J>>, S: Threads + Wait + Abort + Sync>(
    rt: &S,
    alloc: Global,
    live: &Live<J, W>,
) -> Option<Vec<Receipt<J>>> {
    let mut receipts = Vec::with_capacity(alloc, 1).ok()?;
    let mut pass = live.join(rt).ok()?;
    let mut other = live.join(rt).ok()?;
    let reply = removes(rt, alloc, live, &mut pass, &mut other)?;
    assert!(rt; reply == Reply::Accepted(1));
    assert!(rt; other.read().version() == 1);
    receipts.push(leaves(rt, live, pass, 1)?).ok()?;
    Some(receipts)
}

#[test]
fn refused_submit_stores_nothing(rt: HostRuntime) -> Result<(), Fail> {
    let desk = desk(&rt, rt.alloc()).ok_or("one of two tries goes well")?;
    assert_eq!(rt; desk.len(), 1);
    assert_eq!(rt; desk.version(), 1);
    Ok(())
}
