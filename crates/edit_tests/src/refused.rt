//! Each call of runs, edits and the desk, made once more if memory was refused to it: what was there is as before, and the second call
//! gives the ordinary answer. `tools/refused_memory` refuses each allocation in turn.
use crate::refused_traces::{Case, batch, trace};
use agreement::agree::agree;
use edit_desk::{
    Desk, KEPT_CHUNKS, KEPT_MARKS, KEPT_NAMES, Published, Reply, Request, export, what_if,
};
use mark_shelf::MarkShelf;
use object_heap::Heap;
use op_step::{Job, Meter};
use run_engine::{Run, RunFault, apply, edited_ops};
use std::alloc::{AllocError, Global};
use std::process::Abort;
use std::test::Fail;
use trace_reader::{write_ops, write_trace};
use trace_types::edits::Batch;
use trace_types::ops::Op;
use trace_types::trace::Trace;

// The lines of a trace.
fn lines(alloc: Global, trace: &Trace) -> Result<Vec<u8>, AllocError> {
    match write_trace(alloc, trace) {
        Ok(text) => Ok(text),
        Err(_) => write_trace(alloc, trace),
    }
}

// The lines of a run's trace.
fn exported(alloc: Global, run: &Run) -> Result<Vec<u8>, AllocError> {
    match export(alloc, run) {
        Ok(text) => Ok(text),
        Err(_) => export(alloc, run),
    }
}

// The run's trace has these lines.
fn assert_run(rt: &impl Abort, alloc: Global, run: &Run, due: &[u8]) -> Result<(), Fail> {
    let text = exported(alloc, run)?;
    assert!(rt; text.as_slice() == due);
    Ok(())
}

fn ops_after(alloc: Global, trace: &Trace, edits: &Batch) -> Result<Vec<Op>, RunFault> {
    match edited_ops(alloc, trace, edits) {
        Err(RunFault::Memory) => edited_ops(alloc, trace, edits),
        answer => answer,
    }
}

fn lines_of_ops(alloc: Global, ops: &[Op]) -> Result<Vec<u8>, AllocError> {
    match write_ops(alloc, ops) {
        Ok(text) => Ok(text),
        Err(_) => write_ops(alloc, ops),
    }
}

// The lines of the trace after the edits.
fn lines_after(alloc: Global, trace: &Trace, edits: &Batch) -> Result<Vec<u8>, Fail> {
    let ops = ops_after(alloc, trace, edits)?;
    Ok(lines_of_ops(alloc, &ops)?)
}

fn applied(alloc: Global, trace: &Trace, edits: &Batch) -> Result<Trace, RunFault> {
    match apply(alloc, trace, edits) {
        Err(RunFault::Memory) => apply(alloc, trace, edits),
        answer => answer,
    }
}

fn assert_applied(
    rt: &impl Abort,
    alloc: Global,
    trace: &Trace,
    edits: &Batch,
    due: &[u8],
) -> Result<(), Fail> {
    let after = applied(alloc, trace, edits)?;
    let text = lines(alloc, &after)?;
    assert!(rt; text.as_slice() == due);
    Ok(())
}

fn loaded(alloc: Global, trace: &Trace) -> Result<Run, AllocError> {
    match Run::load(alloc, trace, &mut Meter::new()) {
        Ok(run) => Ok(run),
        Err(_) => Run::load(alloc, trace, &mut Meter::new()),
    }
}

fn jobs(alloc: Global, run: &Run, edits: &Batch) -> Result<Vec<Job>, RunFault> {
    match run.jobs(alloc, edits) {
        Err(RunFault::Memory) => run.jobs(alloc, edits),
        answer => answer,
    }
}

fn shelf(alloc: Global) -> Result<MarkShelf, AllocError> {
    match MarkShelf::new(alloc, KEPT_MARKS, KEPT_CHUNKS, KEPT_NAMES) {
        Ok(shelf) => Ok(shelf),
        Err(_) => MarkShelf::new(alloc, KEPT_MARKS, KEPT_CHUNKS, KEPT_NAMES),
    }
}

// A refused edit leaves the shelf so that the second one goes well.
fn edited_over(
    alloc: Global,
    run: &Run,
    edits: &Batch,
    shelf: &mut MarkShelf,
) -> Result<Run, RunFault> {
    match run.edited(alloc, edits, Vec::new(alloc), shelf, &mut Meter::new()) {
        Err(RunFault::Memory) => run.edited(
            alloc,
            edits,
            Vec::new(alloc),
            shelf,
            &mut Meter::new(),
        ),
        answer => answer,
    }
}

fn edited(alloc: Global, run: &Run, edits: &Batch) -> Result<Run, Fail> {
    let mut shelf = shelf(alloc)?;
    Ok(edited_over(alloc, run, edits, &mut shelf)?)
}

// Whether the ends agree.
fn ends_agree(alloc: Global, new: &Heap, old: &Heap) -> Result<bool, AllocError> {
    let remains = match agree(alloc, new, old) {
        Ok(answer) => answer,
        Err(_) => agree(alloc, new, old)?,
    };
    Ok(remains.is_some())
}

fn assert_after(
    rt: &impl Abort,
    alloc: Global,
    run: &Run,
    after: &Run,
    due: &[u8],
    case: Case,
) -> Result<(), Fail> {
    let do_agree = ends_agree(alloc, after.end(), run.end())?;
    assert_eq!(rt; do_agree, case.do_ends_agree());
    assert_run(rt, alloc, after, due)
}

fn assert_edited(
    rt: &impl Abort,
    alloc: Global,
    run: &Run,
    edits: &Batch,
    due: &[u8],
    case: Case,
) -> Result<(), Fail> {
    assert_eq!(rt; jobs(alloc, run, edits)?.len(), 1);
    let after = edited(alloc, run, edits)?;
    assert_after(rt, alloc, run, &after, due, case)
}

// The run of the trace, and what edits make of it.
fn assert_loaded(
    rt: &impl Abort,
    alloc: Global,
    trace: &Trace,
    edits: &Batch,
    due: &[u8],
    case: Case,
) -> Result<(), Fail> {
    let run = loaded(alloc, trace)?;
    assert_edited(rt, alloc, &run, edits, due, case)
}

fn opened(alloc: Global, case: Case) -> Result<Desk, Fail> {
    match Desk::open(alloc, trace(alloc, case)?) {
        Ok(desk) => Ok(desk),
        Err(_) => Ok(Desk::open(alloc, trace(alloc, case)?)?),
    }
}

fn request(alloc: Global, case: Case) -> Result<Request, Fail> {
    let batch = batch(alloc, case)?;
    Ok(Request { base: 0, batch })
}

// What the edits would make of the version.
fn asked(alloc: Global, published: &Published, edits: &Batch) -> Result<Run, RunFault> {
    match what_if(alloc, published, edits, &mut Meter::new()) {
        Err(RunFault::Memory) => what_if(alloc, published, edits, &mut Meter::new()),
        answer => answer,
    }
}

fn assert_asked(
    rt: &impl Abort,
    alloc: Global,
    published: &Published,
    edits: &Batch,
    due: &[u8],
) -> Result<(), Fail> {
    let run = asked(alloc, published, edits)?;
    assert_run(rt, alloc, &run, due)
}

// Out of memory the desk is as it was.
fn answered(rt: &impl Abort, alloc: Global, desk: &mut Desk, case: Case) -> Result<Reply, Fail> {
    if let Ok(reply) = desk.answer(alloc, 0, request(alloc, case)?, Vec::new(alloc)) {
        return Ok(reply);
    }
    assert_eq!(rt; desk.version(), 0);
    assert_eq!(rt; desk.len(), 0);
    Ok(desk.answer(alloc, 0, request(alloc, case)?, Vec::new(alloc))?)
}

fn assert_answers(
    rt: &impl Abort,
    alloc: Global,
    desk: &mut Desk,
    edits: &Batch,
    due: &[u8],
    case: Case,
) -> Result<(), Fail> {
    assert_asked(rt, alloc, desk.published(), edits, due)?;
    assert_eq!(rt; answered(rt, alloc, desk, case)?, Reply::Accepted(1));
    assert_run(rt, alloc, desk.published().run(), due)
}

fn assert_desk(
    rt: &impl Abort,
    alloc: Global,
    edits: &Batch,
    due: &[u8],
    case: Case,
) -> Result<(), Fail> {
    let mut desk = opened(alloc, case)?;
    assert_answers(rt, alloc, &mut desk, edits, due, case)
}

fn stands_refusal(rt: &impl Abort, alloc: Global, case: Case) -> Result<(), Fail> {
    let trace = trace(alloc, case)?;
    let edits = batch(alloc, case)?;
    let due = lines_after(alloc, &trace, &edits)?;
    assert_applied(rt, alloc, &trace, &edits, &due)?;
    assert_loaded(rt, alloc, &trace, &edits, &due, case)?;
    assert_desk(rt, alloc, &edits, &due, case)
}

#[test]
fn new_cyclic(rt: HostRuntime) -> Result<(), Fail> {
    stands_refusal(&rt, rt.alloc(), Case::NewCyclic)
}

#[test]
fn leak_after_edit(rt: HostRuntime) -> Result<(), Fail> {
    stands_refusal(&rt, rt.alloc(), Case::LeakAfterEdit)
}

#[test]
fn two_sessions(rt: HostRuntime) -> Result<(), Fail> {
    stands_refusal(&rt, rt.alloc(), Case::TwoSessions)
}

#[test]
fn fields_of_64(rt: HostRuntime) -> Result<(), Fail> {
    stands_refusal(&rt, rt.alloc(), Case::Wide)
}
