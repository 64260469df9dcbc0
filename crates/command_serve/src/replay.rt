//! The command `replay`: a trace in, its report out.
ghost use Rattle.std.specs.Prelude.{◌≡◌, ◌≤◌, IfOk, length};
ghost use Rattle.trace_types.specs.Trace.{IsTrace};
ghost use Rattle.ownership_model.specs.State.{nothing_held};
ghost use Rattle.ownership_model.specs.Step.{outcomes_from, end_from};
ghost use Rattle.command_serve.specs.Serve.{Serves};
ghost use Rattle.command_serve.specs.Replay.{IsReplayDue, report_of_replay};

use crate::due::{Due, fault_due};
use crate::exits::Exit;
use crate::serve::{Answers, serve};
use leak_report::{report_of_stretches, text_of};
use object_heap::Heap;
use op_step::{Meter, replay_from};
use run_engine::Run;
use std::alloc::{AllocError, Global};
use trace_reader::read_trace;
use trace_types::devices::{Sink, Source};
use trace_types::limits::MAX_OPS;
use trace_types::ops::Op;
use trace_types::outcomes::Outcome;
use trace_types::stretches::Stretch;
use trace_types::trace::Trace;

/// Reads a trace, and writes the report of its replay, or the line that tells the first fault.
pub fn serve_replay<S: Source, K: Sink>(alloc: Global, source: &mut S, sink: &mut K) -> Exit
    ensures { Serves IsReplayDue S.Source source.old source.new K.Sink sink.old sink.new result }
{
    serve(&Replay, alloc, source, sink)
}

#[derive(Drop)]
struct Replay;

impl Answers for Replay {
    ghost use Rattle.command_serve.specs.Replay.{IsReplayDue};

    ghost IsDue = { λ _. IsReplayDue };

    fn answer(&self, alloc: Global, input: Vec<u8>) -> Result<Due, AllocError> {
        replay_due(alloc, input)
    }
}

#[tactic(auto, unfolding(crate::specs::Replay::IsReplayDue))]
fn replay_due(alloc: Global, input: Vec<u8>) -> Result<Due, AllocError>
    ensures { IfOk result (IsReplayDue input.items) }
{
    match read_trace(alloc, &input) {
        Ok(trace) => {
            drop(input);
            Ok(Due::answer(report_on(alloc, &trace)?))
        }
        Err(fault) => fault_due(alloc, &fault),
    }
}

/// The text of the report of a trace's replay.
pub fn report_on(alloc: Global, trace: &Trace) -> Result<Vec<u8>, AllocError>
    ensures { IfOk result (λ text. text.items ≡ report_of_replay trace.now) }
{
    report_on_ops(alloc, trace.as_slice())
}

/// As `report_on`, of the operations of a trace.
pub fn report_on_ops(alloc: Global, ops: &[Op]) -> Result<Vec<u8>, AllocError>
    requires { IsTrace ops.now }
    ensures { IfOk result (λ text. text.items ≡ report_of_replay ops.now) }
{
    let mut meter = Meter::new();
    let (outcomes, end) = replay_from(alloc, Heap::empty(), ops, &mut meter)?;
    text_with(alloc, ops, outcomes.as_slice(), &end)
}

// The text of the report of a trace's replay, by its outcomes and its end.
fn text_with(
    alloc: Global,
    ops: &[Op],
    outcomes: &[Outcome],
    end: &Heap,
) -> Result<Vec<u8>, AllocError>
    requires few { length ops.now ≤ MAX_OPS }
    requires outcomes { outcomes.now ≡ outcomes_from nothing_held ops.now }
    requires end { end.now ≡ end_from nothing_held ops.now }
    ensures { IfOk result (λ text. text.items ≡ report_of_replay ops.now) }
{
    let mut stretches = Vec::new(alloc);
    stretches.push(Stretch { ops, outcomes })?;
    let report = report_of_stretches(alloc, stretches, end)?;
    Ok(text_of(alloc, &report)?.into_bytes())
}

/// The text of the report of a run, whose operations and outcomes are borrowed.
pub fn report_on_run(alloc: Global, run: &Run) -> Result<Vec<u8>, AllocError>
    ensures { IfOk result (λ text. text.items ≡ report_of_replay run.now.trace) }
{
    let stretches = run.stretches(alloc)?;
    let report = report_of_stretches(alloc, stretches, run.end())?;
    Ok(text_of(alloc, &report)?.into_bytes())
}
