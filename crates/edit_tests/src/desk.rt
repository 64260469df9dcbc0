//! Requests to a desk.
ghost use Rattle.std.specs.Prelude.{◌≡◌, [], IfOk};

use crate::small_runs::with_desk;
use edit_desk::{Desk, Prepared, Published, Reply, Request, export, push_reply, what_if};
use op_step::Meter;
use run_engine::Refusal;
use std::alloc::Global;
use std::process::Abort;
use std::test::Fail;
use trace_types::edits::{Batch, Edit};
use trace_types::kinds::Kind;
use trace_types::limits::MAX_ENTRIES;
use trace_types::ops::Op;
use trace_types::sequence::Sequence;
use trace_types::trace::Trace;

// A trace with one operation, which makes an object.
fn one_new(alloc: Global) -> Result<Trace, Fail> {
    let fields = Sequence::empty(alloc);
    let op = Op::make(1, 0, Kind::New { to: 0, fields })?;
    let mut trace = Trace::new(alloc);
    trace.push(op)?;
    Ok(trace)
}

fn opened(alloc: Global) -> Result<Desk, Fail>
    ensures { IfOk result (λ d. d.standing.history ≡ []) }
{
    let trace = one_new(alloc)?;
    Ok(Desk::open(alloc, trace)?)
}

fn removal(alloc: Global, id: u32, times: u32) -> Result<Batch, Fail> {
    let mut batch = Sequence::empty(alloc);
    for _ in 0..times {
        batch.push(Edit::Remove { id })?;
    }
    Ok(batch)
}

fn asked(
    alloc: Global,
    desk: &mut Desk,
    session: u32,
    base: u32,
    times: u32,
) -> Result<Reply, Fail> {
    let batch = removal(alloc, 1, times)?;
    Ok(desk.answer(alloc, session, Request { base, batch }, Vec::new(alloc))?)
}

// The desk after one request that was accepted, the last of five.
fn assert_changed_once(rt: &impl Abort, desk: &Desk) -> Result<(), Fail> {
    assert_eq!(rt; desk.version(), 1);
    assert_eq!(rt; desk.len(), 5);
    assert_eq!(rt; desk.published().run().len(), 0);
    let last = desk.entry(4).ok_or("five entries")?;
    assert_eq!(rt; last.session, 3);
    Ok(())
}

// A request of each session for a version, with so many edits, and its reply.
fn assert_replies(rt: &impl Abort, alloc: Global, desk: &mut Desk) -> Result<(), Fail> {
    let table = [
        (0, 0, 0, Reply::Refused(Refusal::EmptyBatch)),
        (0, 0, 65, Reply::Refused(Refusal::TooManyEdits)),
        (0, 0, 2, Reply::Refused(Refusal::NoSuchOp(1))),
        (3, 5, 1, Reply::Stale(0)),
        (3, 0, 1, Reply::Accepted(1)),
    ];
    for (session, base, times, due) in table {
        let reply = asked(alloc, desk, session, base, times)?;
        assert_eq!(rt; reply, due);
    }
    Ok(())
}

// All five requests, and the desk after them.
fn assert_asked(rt: &impl Abort, alloc: Global, desk: &mut Desk) -> Result<(), Fail> {
    assert_replies(rt, alloc, desk)?;
    assert_changed_once(rt, desk)
}

#[test]
fn desk_replies(rt: HostRuntime) -> Result<(), Fail> {
    let alloc = rt.alloc();
    let trace = one_new(alloc)?;
    with_desk(alloc, trace, |desk| assert_asked(&rt, alloc, desk))
}

#[test]
fn replies_are_told(rt: HostRuntime) -> Result<(), Fail> {
    let mut text = String::new(rt.alloc());
    push_reply(&mut text, Reply::Accepted(1))?;
    push_reply(&mut text, Reply::Refused(Refusal::NoSuchOp(1)))?;
    assert!(rt; text.as_str() == "accepted 1\nrefused NoSuchOp 1\n");
    Ok(())
}

// What is prepared is the next version and its entry. The desk is as it was.
fn assert_prepared(rt: &impl Abort, desk: &Desk, prepared: &Prepared) {
    assert_eq!(rt; prepared.published().version(), 1);
    assert_eq!(rt; prepared.published().run().len(), 0);
    assert_eq!(rt; prepared.entry().session, 2);
    assert_eq!(rt; prepared.entry().reply, Reply::Accepted(1));
    assert_eq!(rt; desk.version(), 0);
    assert_eq!(rt; desk.len(), 0);
}

// The desk with what was prepared.
fn assert_committed(rt: &impl Abort, desk: &Desk) {
    // The operation of the opening trace; its removal replays none.
    assert_eq!(rt; desk.meter().count(), 1);
    assert_eq!(rt; desk.version(), 1);
    assert_eq!(rt; desk.published().run().len(), 0);
    assert_eq!(rt; desk.opening().len(), 1);
}

// A request of session 2 is prepared, which changes no version, and then committed: the reply.
fn committed(rt: &impl Abort, alloc: Global, desk: &mut Desk) -> Result<Reply, Fail>
    requires { desk.old.standing.history ≡ [] }
{
    let batch = removal(alloc, 1, 1)?;
    let prepared = desk.prepare(alloc, 2, Request { base: 0, batch }, Vec::new(alloc))?;
    assert_prepared(rt, desk, &prepared);
    Ok(desk.commit(prepared))
}

// Does so, and looks at the desk then.
fn assert_commits(rt: &impl Abort, alloc: Global, desk: &mut Desk) -> Result<(), Fail>
    requires { desk.old.standing.history ≡ [] }
{
    assert_eq!(rt; committed(rt, alloc, desk)?, Reply::Accepted(1));
    assert_committed(rt, desk);
    Ok(())
}

#[test]
fn prepared_request_counts_when_committed(rt: HostRuntime) -> Result<(), Fail> {
    let alloc = rt.alloc();
    let mut desk = opened(alloc)?;
    assert_commits(&rt, alloc, &mut desk)
}

// How many operations the version would have without its one operation, or none where that is refused.
fn len_without_it(alloc: Global, published: &Published) -> Result<Option<usize>, Fail> {
    let batch = removal(alloc, 1, 1)?;
    match what_if(alloc, published, &batch, &mut Meter::new()) {
        Ok(run) => Ok(Some(run.len())),
        Err(_) => Ok(None),
    }
}

// The version without its one operation, and its lines.
fn assert_asked_what_if(rt: &impl Abort, alloc: Global, share: &Published) -> Result<(), Fail> {
    assert_eq!(rt; len_without_it(alloc, share)?, Some(0));
    let text = export(alloc, share.run())?;
    assert!(rt;
        text.as_slice() == b"{\"fields\":[],\"id\":1,\"op\":\"new\",\"t\":0,\"to\":0}\n".as_slice()
    );
    Ok(())
}

// A share of the version that stands is asked.
fn ask_share(rt: &impl Abort, alloc: Global, desk: &Desk) -> Result<(), Fail> {
    let share = desk.published().share()?;
    assert_asked_what_if(rt, alloc, &share)
}

// The desk is as it was afterwards.
fn assert_version_stays(rt: &impl Abort, alloc: Global, desk: &Desk) -> Result<(), Fail> {
    ask_share(rt, alloc, desk)?;
    assert_eq!(rt; desk.version(), 0);
    Ok(())
}

#[test]
fn version_asked_what_if_stays(rt: HostRuntime) -> Result<(), Fail> {
    let alloc = rt.alloc();
    let trace = one_new(alloc)?;
    with_desk(alloc, trace, |desk| assert_version_stays(&rt, alloc, desk))
}

// As many requests for a version that isn't there as a history has room for.
fn fill(rt: &impl Abort, alloc: Global, desk: &mut Desk) -> Result<(), Fail> {
    for _ in 0..MAX_ENTRIES {
        assert!(rt; asked(alloc, desk, 0, 1, 0)? == Reply::Stale(0));
    }
    Ok(())
}

// After that no request is answered.
fn assert_full(rt: &impl Abort, alloc: Global, desk: &mut Desk) -> Result<(), Fail> {
    fill(rt, alloc, desk)?;
    assert_eq!(rt; asked(alloc, desk, 0, 0, 1)?, Reply::HistoryFull);
    assert_eq!(rt; desk.len(), MAX_ENTRIES);
    assert_eq!(rt; desk.version(), 0);
    Ok(())
}

#[test]
fn full_history(rt: HostRuntime) -> Result<(), Fail> {
    let alloc = rt.alloc();
    let trace = one_new(alloc)?;
    with_desk(alloc, trace, |desk| assert_full(&rt, alloc, desk))
}
