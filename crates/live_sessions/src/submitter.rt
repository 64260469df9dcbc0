//! A session that submits its requests.
ghost use Rattle.std.specs.Prelude.{◌≡◌, IfSome};
ghost use Rattle.live_sessions.specs.Races.{Asks, Stepped, end_of};

use crate::book::Naming;
use crate::live::Live;
use crate::pass::Pass;
use crate::publisher::Publisher;
use crate::receipt::Receipt;
use crate::shown::Shown;
use edit_desk::{Reply, Request};
use std::marker::Model;
use std::sync::Wait;
use std::thread::Threads;
use trace_types::sequence::Sequence;

/// A session's pass, with the requests that it is to submit, in order. Contracts see a record of the two.
#[derive(Drop)]
pub struct Submitter<J: Naming> {
    pass: Pass<J>,
    requests: Sequence<Request>,
}

impl<J: Naming> Model for Submitter<J> {
    ghost use Rattle.live_sessions.specs.Races.{SubmitterView};

    ghost Value = { SubmitterView };

    ghost view = { λ r. record { pass = r.pass; requests = r.requests } };
}

// How a submit ended: with a stored entry, after which the session goes on, at a full history, or without an answer.
enum End {
    Stored,
    Full,
    Fault,
}

impl<J: Naming> Submitter<J> {
    pub fn new(pass: Pass<J>, requests: Sequence<Request>) -> Submitter<J>
        ensures { (result.pass ≡ pass) × (result.requests ≡ requests) }
    {
        Submitter { pass, requests }
    }
}

fn end_of(reply: Reply) -> End
    ensures { result ≡ end_of reply }
{
    match reply {
        Reply::Accepted(_) => End::Stored,
        Reply::Stale(_) => End::Stored,
        Reply::Refused(_) => End::Stored,
        Reply::HistoryFull => End::Full,
    }
}

// Submits one request.
fn ask<J: Naming, W: Publisher<Value = Shown<J>>, S: Threads + Wait + Sync>(
    rt: &S,
    live: &Live<J, W>,
    pass: &mut Pass<J>,
    request: Request,
) -> End
    ensures { Stepped pass.old request pass.new result }
{
    match live.submit(rt, pass, request) {
        Ok(reply) => end_of(reply),
        Err(_) => End::Fault,
    }
}

// Submits the requests in order, as far as the history has room for them, or answers nothing where one was not answered.
fn ask_all<J: Naming, W: Publisher<Value = Shown<J>>, S: Threads + Wait + Sync>(
    rt: &S,
    live: &Live<J, W>,
    pass: Pass<J>,
    requests: Vec<Request>,
) -> Option<Pass<J>>
    ensures { IfSome result (λ p. Asks pass requests.items p) }
{
    let mut pass = pass;
    for request in requests {
        match ask(rt, live, &mut pass, request) {
            End::Stored => {}
            End::Full => return Some(pass),
            End::Fault => return None,
        }
    }
    Some(pass)
}

/// Submits the requests in order, as far as the history has room for them, and leaves; or answers nothing where a request was
/// not answered, or the pass could not leave.
pub fn submit_all<J: Naming, W: Publisher<Value = Shown<J>>, S: Threads + Wait + Sync>(
    rt: &S,
    live: &Live<J, W>,
    submitter: Submitter<J>,
) -> Option<Receipt<J>>
    ensures { IfSome result (λ r. Asks submitter.pass submitter.requests r) }
{
    let Submitter { pass, requests } = submitter;
    let pass = ask_all(rt, live, pass, requests.into_vec())?;
    match live.leave(rt, pass) {
        Ok(receipt) => Some(receipt),
        Err(_) => None,
    }
}
