//! Sessions that submit their requests, each on a thread of its own.
ghost use Rattle.std.specs.Prelude.{◌≡◌, ◌<◌, ℕ, [], map, length, Some, IfOk, IfSome, vec_len, slice_index_or};
ghost use Rattle.std.specs.Bool.{OnTrue};
ghost use Rattle.edit_desk.specs.Answers.{IsLegal};
ghost use Rattle.live_sessions.specs.Fronts.{IsFront};
ghost use Rattle.live_sessions.specs.Races.{AllAsk, AllFresh, AddUp, AreAsked, asked_by, given};

use crate::book::Naming;
use crate::counted::CountedDesk;
use crate::limits::PLACES;
use crate::live::Live;
use crate::pass::Pass;
use crate::publisher::Publisher;
use crate::receipt::Receipt;
use crate::shown::Shown;
use crate::submitter::{Submitter, submit_all};
use edit_desk::{Desk, Request};
use std::alloc::{AllocError, Global};
use std::sync::Wait;
use std::thread;
use std::thread::Threads;
use trace_types::sequence::Sequence;

/// Submits the requests of each session in order, on a thread of its own, and closes.
///
/// Answers nothing where a session found no fresh place or was not answered, where the sessions' numbers of entries don't add
/// up, or where memory was wanting.
pub fn race<
    J: Naming + Send + Sync,
    W: Publisher<Value = Shown<J>> + Send,
    S: Threads + Wait + Sync,
>(rt: &S, alloc: Global, live: Live<J, W>, requests: Vec<Sequence<Request>>) -> Option<Desk>
    requires { vec_len requests ≡ PLACES }
    ensures asked { IfSome result (λ d. (s : ℕ) →
        AreAsked (slice_index_or requests.items s []) (asked_by s d.standing.history)
        (length d.standing.history)) }
    ensures opening { IfSome result (λ d. d.standing.opening ≡ J.opening) }
    ensures legal { IfSome result (λ d. IsLegal d.standing × IsFront J.opening d.standing.history) }
{
    let submitters = start(rt, alloc, &live, requests)?;
    let Ok(left) = side_by_side(rt, &live, submitters) else {
        return None;
    };
    let receipts = all_left(alloc, left)?;
    let Ok(desk) = live.close_counted(receipts.as_slice()) else {
        return None;
    };
    if !add_up(&desk, receipts.as_slice()) {
        return None;
    }
    // It makes known that the history is legal.
    let _len = desk.len();
    Some(desk.into_desk())
}

// A pass of this session, which has seen nothing.
fn fresh<J: Naming, W: Publisher<Value = Shown<J>>, S: Wait>(
    rt: &S,
    live: &Live<J, W>,
    session: u32,
) -> Option<Pass<J>>
    ensures { IfSome result (λ p. (p.session ≡ session) × (p.front ≡ [])) }
{
    let pass = live.join(rt).ok()?;
    if pass.session() != session || pass.front().len() != 0 {
        return None;
    }
    Some(pass)
}

// A submitter for each session, in order.
fn start<J: Naming, W: Publisher<Value = Shown<J>>, S: Wait>(
    rt: &S,
    alloc: Global,
    live: &Live<J, W>,
    requests: Vec<Sequence<Request>>,
) -> Option<Vec<Submitter<J>>>
    requires { vec_len requests ≡ PLACES }
    ensures given { IfSome result (λ v. map given v.items ≡ requests.items) }
    ensures fresh { IfSome result (λ v. AllFresh v.items) }
{
    let mut submitters = Vec::new(alloc);
    let mut session = 0u32;
    for own in requests {
        let pass = fresh(rt, live, session)?;
        submitters.push(Submitter::new(pass, own)).ok()?;
        session += 1;
    }
    Some(submitters)
}

// Runs each session on a thread of its own, and gives their receipts in the same order.
fn side_by_side<
    J: Naming + Send + Sync,
    W: Publisher<Value = Shown<J>> + Send,
    S: Threads + Wait + Sync,
>(
    rt: &S,
    live: &Live<J, W>,
    submitters: Vec<Submitter<J>>,
) -> Result<Vec<Option<Receipt<J>>>, AllocError>
    ensures len { IfOk result (λ v. vec_len v ≡ vec_len submitters) }
    ensures each { IfOk result (λ v. AllAsk submitters.items v.items) }
{
    thread::map_vec(rt, submitters, &|submitter| submit_all(rt, live, submitter))
}

// The receipts, where each session left.
fn all_left<J: Naming>(alloc: Global, left: Vec<Option<Receipt<J>>>) -> Option<Vec<Receipt<J>>>
    ensures { IfSome result (λ v. map Some v.items ≡ left.items) }
{
    let mut receipts = Vec::new(alloc);
    for receipt in left {
        receipts.push(receipt?).ok()?;
    }
    Some(receipts)
}

// Whether the history has as many entries of each session as the front of its receipt.
fn add_up<J: Naming>(desk: &CountedDesk, receipts: &[Receipt<J>]) -> bool
    ensures { OnTrue result (AddUp desk.now.history receipts.now) }
{
    if receipts.len() != PLACES as usize {
        return false;
    }
    for session in 0..PLACES {
        let receipt = &receipts[session as usize];
        if receipt.session() != session || receipt.answered() != desk.count(session) {
            return false;
        }
    }
    true
}
