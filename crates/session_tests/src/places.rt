//! The places, and a history that is full.
use crate::cases::{Case, both, desk_after};
use crate::requests::{no_edits, one_new, removal};
use crate::steps::{joins, leaves, reads, submits};
use edit_desk::Reply;
use live_sessions::{Live, Naming, PLACES, Pass, Publisher, Receipt, Shown};
use std::alloc::Global;
use std::process::Abort;
use std::sync::Wait;
use std::test::Fail;
use std::thread::Threads;
use trace_types::limits::MAX_ENTRIES;

fn lone<J: Naming>(alloc: Global, receipt: Receipt<J>) -> Option<Vec<Receipt<J>>> {
    let mut receipts = Vec::new(alloc);
    receipts.push(receipt).ok()?;
    Some(receipts)
}

// All places, in order, after which none is left.
fn join_all<J: Naming, W: Publisher<Value = Shown<J>>, S: Wait + Abort>(
    rt: &S,
    alloc: Global,
    live: &Live<J, W>,
) -> Option<Vec<Pass<J>>> {
    let mut passes = Vec::new(alloc);
    for session in 0..PLACES {
        passes.push(joins(rt, live, session)?).ok()?;
    }
    assert!(rt; live.join(rt).is_err());
    Some(passes)
}

// Session 9 leaves, and then session 3: they are the ones that can join, the lower first. A pass that is dropped keeps its
// place.
pub fn sixteen_places<J: Naming, W: Publisher<Value = Shown<J>>, S: Wait + Abort>(
    rt: &S,
    alloc: Global,
    live: &Live<J, W>,
) -> Option<Vec<Receipt<J>>> {
    let mut passes = join_all(rt, alloc, live)?;
    if passes.len() < PLACES as usize {
        return None;
    }
    let ninth = leaves(rt, live, passes.swap_remove(9), 0)?;
    let third = leaves(rt, live, passes.swap_remove(3), 0)?;
    for session in [3u32, 9] {
        let _again = joins(rt, live, session)?;
    }
    assert!(rt; live.join(rt).is_err());
    both(alloc, ninth, third)
}

// Two requests of session 3, and after it left and came back a third one.
pub fn comes_back<J: Naming, W: Publisher<Value = Shown<J>>, S: Threads + Wait + Abort + Sync>(
    rt: &S,
    alloc: Global,
    live: &Live<J, W>,
) -> Option<Vec<Receipt<J>>> {
    let mut passes = join_all(rt, alloc, live)?;
    if passes.len() < PLACES as usize {
        return None;
    }
    let mut pass = passes.swap_remove(3);
    submits(
        rt,
        live,
        &mut pass,
        removal(alloc, 0, 1),
        Reply::Accepted(1),
    )?;
    submits(rt, live, &mut pass, removal(alloc, 0, 1), Reply::Stale(1))?;
    let _first = leaves(rt, live, pass, 2)?;
    let mut again = joins(rt, live, 3)?;
    reads(rt, &mut again, 2, 2, 1);
    submits(
        rt,
        live,
        &mut again,
        Some(no_edits(alloc, 0)),
        Reply::Stale(1),
    )?;
    let receipt = leaves(rt, live, again, 3)?;
    lone(alloc, receipt)
}

// As many stale requests as a history has room for, and one more.
pub fn full_history<J: Naming, W: Publisher<Value = Shown<J>>, S: Threads + Wait + Abort + Sync>(
    rt: &S,
    alloc: Global,
    live: &Live<J, W>,
) -> Option<Vec<Receipt<J>>> {
    let mut pass = live.join(rt).ok()?;
    for _ in 0..MAX_ENTRIES {
        submits(
            rt,
            live,
            &mut pass,
            Some(no_edits(alloc, 1)),
            Reply::Stale(0),
        )?;
    }
    submits(
        rt,
        live,
        &mut pass,
        removal(alloc, 0, 1),
        Reply::HistoryFull,
    )?;
    let receipt = leaves(rt, live, pass, MAX_ENTRIES as u32)?;
    lone(alloc, receipt)
}

#[test]
fn sixteen_places_are_given(rt: HostRuntime) -> Result<(), Fail> {
    let alloc = rt.alloc();
    let trace = one_new(alloc).ok_or("memory")?;
    let desk = desk_after(&rt, alloc, trace, Case::Places).ok_or("two sessions leave")?;
    assert_eq!(rt; desk.len(), 0);
    Ok(())
}

#[test]
fn session_goes_on_where_it_left(rt: HostRuntime) -> Result<(), Fail> {
    let alloc = rt.alloc();
    let trace = one_new(alloc).ok_or("memory")?;
    let desk = desk_after(&rt, alloc, trace, Case::ComesBack).ok_or("session 3 leaves")?;
    assert_eq!(rt; desk.len(), 3);
    assert_eq!(rt; desk.version(), 1);
    Ok(())
}

#[test]
fn full_history_takes_no_entry(rt: HostRuntime) -> Result<(), Fail> {
    let alloc = rt.alloc();
    let trace = one_new(alloc).ok_or("memory")?;
    let desk = desk_after(&rt, alloc, trace, Case::FullHistory).ok_or("session 0 leaves")?;
    assert_eq!(rt; desk.len(), MAX_ENTRIES);
    assert_eq!(rt; desk.version(), 0);
    Ok(())
}
