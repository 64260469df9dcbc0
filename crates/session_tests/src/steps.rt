//! What a session of a test does.
use edit_desk::{Reply, Request};
use live_sessions::{Live, Naming, Pass, Publisher, Receipt, Shown};
use std::process::Abort;
use std::sync::Wait;
use std::thread::Threads;
use trace_reader::RequestLine;
use trace_types::sequence::Sequence;

// Joins at this session's place.
pub fn joins<J: Naming, W: Publisher<Value = Shown<J>>, S: Wait + Abort>(
    rt: &S,
    live: &Live<J, W>,
    session: u32,
) -> Option<Pass<J>> {
    let pass = live.join(rt).ok()?;
    assert!(rt; pass.session() == session);
    Some(pass)
}

// Submits a request, to which this is the reply.
pub fn submits<J: Naming, W: Publisher<Value = Shown<J>>, S: Threads + Wait + Abort + Sync>(
    rt: &S,
    live: &Live<J, W>,
    pass: &mut Pass<J>,
    request: Option<Request>,
    due: Reply,
) -> Option<()> {
    let reply = live.submit(rt, pass, request?).ok()?;
    assert!(rt; reply == due);
    Some(())
}

// A session joins and submits the requests of these lines, each of which is accepted. It keeps its pass.
pub fn submits_each<J: Naming, W: Publisher<Value = Shown<J>>, S: Threads + Wait + Sync>(
    rt: &S,
    live: &Live<J, W>,
    lines: Sequence<RequestLine>,
) -> Option<Pass<J>> {
    let mut pass = live.join(rt).ok()?;
    for line in lines.into_vec() {
        let RequestLine {
            base,
            session: _,
            batch,
        } = line;
        let reply = live.submit(rt, &mut pass, Request { base, batch }).ok()?;
        if !matches!(reply, Reply::Accepted(_)) {
            return None;
        }
    }
    Some(pass)
}

// The pass has had so many replies and seen so many entries; then it reads this version.
pub fn reads<J: Naming, S: Abort>(
    rt: &S,
    pass: &mut Pass<J>,
    answered: u32,
    entries: u64,
    version: u32,
) {
    assert!(rt; pass.answered() == answered && pass.front().len() == entries);
    assert!(rt; pass.read().version() == version);
}

// Leaves with so many replies.
pub fn leaves<J: Naming, W: Publisher<Value = Shown<J>>, S: Wait + Abort>(
    rt: &S,
    live: &Live<J, W>,
    pass: Pass<J>,
    answered: u32,
) -> Option<Receipt<J>> {
    let session = pass.session();
    let receipt = live.leave(rt, pass).ok()?;
    assert!(rt; receipt.session() == session && receipt.answered() == answered);
    Some(receipt)
}
