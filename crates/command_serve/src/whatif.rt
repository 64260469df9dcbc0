//! The command `whatif`: a trace and one request in, the edited trace and its report out.
ghost use Rattle.std.specs.Prelude.{◌≡◌, ◌++◌, ◌∷◌, [], codes, IfOk};
ghost use Rattle.trace_types.specs.Trace.{IsTrace};
ghost use Rattle.trace_reader.specs.Writing.{lines_text};
ghost use Rattle.run_engine.specs.Edited.{edited_by};
ghost use Rattle.edit_desk.specs.ReplyText.{reply_text};
ghost use Rattle.edit_desk.specs.declared.replies.Reply.TheVariants.{Refused};
ghost use Rattle.command_serve.specs.Serve.{Serves};
ghost use Rattle.command_serve.specs.Replay.{report_of_replay};
ghost use Rattle.command_serve.specs.Whatif.{IsWhatifDue, edited_due};
ghost use Rattle.command_serve.specs.Whatif as specs;

use crate::due::{Due, fault_due};
use crate::exits::Exit;
use crate::replay::report_on_ops;
use crate::serve::{Answers, serve};
use edit_desk::{Reply, push_reply};
use run_engine::{Refusal, edited_ops};
use std::alloc::{AllocError, Global};
use trace_reader::{RequestLine, read_script, write_ops};
use trace_types::devices::{Sink, Source};
use trace_types::edits::Batch;
use trace_types::ops::Op;
use trace_types::sequence::Sequence;
use trace_types::trace::Trace;

/// Reads a trace and one request to edit it, and writes the edited trace's canonical lines and its report, or the line of
/// the refusal, or the line that tells the first fault. The request's base and session don't matter.
pub fn serve_whatif<S: Source, K: Sink>(alloc: Global, source: &mut S, sink: &mut K) -> Exit
    ensures { Serves IsWhatifDue S.Source source.old source.new K.Sink sink.old sink.new result }
{
    serve(&Whatif, alloc, source, sink)
}

#[derive(Drop)]
struct Whatif;

impl Answers for Whatif {
    ghost use Rattle.command_serve.specs.Whatif.{IsWhatifDue};

    ghost IsDue = { λ _. IsWhatifDue };

    fn answer(&self, alloc: Global, input: Vec<u8>) -> Result<Due, AllocError> {
        whatif_due(alloc, input)
    }
}

#[tactic(auto, unfolding(crate::specs::Whatif::IsWhatifDue))]
fn whatif_due(alloc: Global, input: Vec<u8>) -> Result<Due, AllocError>
    ensures { IfOk result (IsWhatifDue input.items) }
{
    match read_script(alloc, &input, true) {
        Ok(script) => {
            let batch = only_batch(alloc, script.requests);
            edited_due(alloc, &script.trace, &batch)
        }
        Err(fault) => fault_due(alloc, &fault),
    }
}

// The edits of the one request.
fn only_batch(alloc: Global, requests: Sequence<RequestLine>) -> Batch
    ensures { result ≡ specs.only_batch requests }
{
    match requests.into_vec().into_iter().next() {
        Some(request) => request.batch,
        None => Sequence::empty(alloc),
    }
}

// The edited trace and its report, or the refusal.
fn edited_due(alloc: Global, trace: &Trace, batch: &Batch) -> Result<Due, AllocError>
    ensures { IfOk result (λ d. d ≡ edited_due (edited_by trace.now batch.now)) }
{
    match edited_ops(alloc, trace, batch) {
        Ok(edited) => Ok(Due::answer(told(alloc, edited.as_slice())?)),
        Err(fault) => match fault.refusal() {
            Some(why) => Ok(Due::fault(refusal(alloc, why)?)),
            None => Err(AllocError),
        },
    }
}

// The canonical lines of a trace, and its report.
fn told(alloc: Global, ops: &[Op]) -> Result<Vec<u8>, AllocError>
    requires { IsTrace ops.now }
    ensures { IfOk result (λ text. text.items
        ≡ lines_text ops.now ++ codes "--\n" ++ report_of_replay ops.now) }
{
    let mut text = write_ops(alloc, ops)?;
    let report = report_on_ops(alloc, ops)?;
    text.extend_from_slice(b"--\n")?;
    text.extend_from_slice(report.as_slice())?;
    Ok(text)
}

fn refusal(alloc: Global, why: Refusal) -> Result<Vec<u8>, AllocError>
    ensures { IfOk result (λ text. text.items ≡ reply_text (Refused why) ++ 10 ∷ []) }
{
    let mut text = String::new(alloc);
    push_reply(&mut text, Reply::Refused(why))?;
    Ok(text.into_bytes())
}
