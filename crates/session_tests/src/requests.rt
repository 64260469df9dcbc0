//! Traces and requests of the tests.
use edit_desk::Request;
use std::alloc::Global;
use std::sync::Wait;
use std::sync::atomic::{AtomicU64, Ordering};
use std::thread;
use trace_types::edits::Edit;
use trace_types::kinds::Kind;
use trace_types::ops::Op;
use trace_types::sequence::Sequence;
use trace_types::trace::Trace;

// Operation 1, which makes an object that handle 0 holds.
pub fn one_new(alloc: Global) -> Option<Trace> {
    let fields = Sequence::empty(alloc);
    let mut trace = Trace::new(alloc);
    let op = Op::make(1, 0, Kind::New { to: 0, fields }).ok()?;
    trace.push(op).ok()?;
    Some(trace)
}

// The same, and operation 2, which clones the handle.
pub fn new_and_clone(alloc: Global) -> Option<Trace> {
    let mut trace = one_new(alloc)?;
    let op = Op::make(2, 0, Kind::Clone { from: 0, to: 1 }).ok()?;
    trace.push(op).ok()?;
    Some(trace)
}

pub fn no_edits(alloc: Global, base: u32) -> Request {
    Request {
        base,
        batch: Sequence::empty(alloc),
    }
}

pub fn removal(alloc: Global, base: u32, id: u32) -> Option<Request> {
    let mut batch = Sequence::empty(alloc);
    batch.push(Edit::Remove { id }).ok()?;
    Some(Request { base, batch })
}

pub fn insertion(alloc: Global, base: u32, after: u32, id: u32, kind: Kind) -> Option<Request> {
    let op = Op::make(id, 0, kind).ok()?;
    let mut batch = Sequence::empty(alloc);
    batch.push(Edit::Insert { after, op }).ok()?;
    Some(Request { base, batch })
}

// Waits until it is this turn, or a later one.
pub fn wait_for<S: Wait>(rt: &S, turn: &AtomicU64, at: u64) {
    for _ in rt.forever() {
        if turn.load(Ordering::SeqCst) >= at {
            return;
        }
        thread::yield_now();
    }
}
