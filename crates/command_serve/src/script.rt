//! The command `script`: a trace and requests in, the replies and the last version's report out.
ghost use Rattle.std.specs.Prelude.{◌≡◌, ◌++◌, ◌∷◌, [], string_bytes, IfOk, OnOk};
ghost use Rattle.command_serve.specs.Serve.{Serves};
ghost use Rattle.edit_desk.specs.Answers.{reply_to, after};
ghost use Rattle.edit_desk.specs.ReplyText.{reply_text};
ghost use Rattle.command_serve.specs.Replay.{report_of_replay};
ghost use Rattle.command_serve.specs.Script.{IsScriptDue, script_text, replies_text, replies_from, standing_from, request_of};

use crate::due::{Due, fault_due};
use crate::exits::Exit;
use crate::replay::report_on_run;
use crate::serve::{Answers, serve};
use edit_desk::{Desk, Request, push_reply};
use std::alloc::{AllocError, Global};
use trace_reader::{RequestLine, Script, read_script};
use trace_types::devices::{Sink, Source};

/// Reads a trace and requests to edit it, and writes the reply to each and the report of the last version, or the line
/// that tells the first fault.
pub fn serve_script<S: Source, K: Sink>(alloc: Global, source: &mut S, sink: &mut K) -> Exit
    ensures { Serves IsScriptDue S.Source source.old source.new K.Sink sink.old sink.new result }
{
    serve(&Replies, alloc, source, sink)
}

#[derive(Drop)]
struct Replies;

impl Answers for Replies {
    ghost use Rattle.command_serve.specs.Script.{IsScriptDue};

    ghost IsDue = { λ _. IsScriptDue };

    fn answer(&self, alloc: Global, input: Vec<u8>) -> Result<Due, AllocError> {
        script_due(alloc, input)
    }
}

#[tactic(auto, unfolding(crate::specs::Script::IsScriptDue))]
fn script_due(alloc: Global, input: Vec<u8>) -> Result<Due, AllocError>
    ensures { IfOk result (IsScriptDue input.items) }
{
    match read_script(alloc, &input, false) {
        Ok(script) => {
            drop(input);
            Ok(Due::answer(text_of(alloc, script)?))
        }
        Err(fault) => fault_due(alloc, &fault),
    }
}

// The desk is made last, and lent: what may run out of memory behind it owns no desk.
fn text_of(alloc: Global, script: Script) -> Result<Vec<u8>, AllocError>
    ensures { IfOk result (λ text. text.items ≡ script_text script) }
{
    let Script { trace, requests } = script;
    match Desk::open(alloc, trace) {
        Ok(mut desk) => text_on(alloc, &mut desk, requests.into_vec()),
        Err(_) => Err(AllocError),
    }
}

// The replies to requests, and the report of the version that stands then.
fn text_on(
    alloc: Global,
    desk: &mut Desk,
    requests: Vec<RequestLine>,
) -> Result<Vec<u8>, AllocError>
    ensures { IfOk result (λ text. text.items
        ≡ replies_text (replies_from desk.old.standing requests.items)
        ++ report_of_replay (standing_from desk.old.standing requests.items).trace) }
{
    let mut text = String::new(alloc);
    push_replies(alloc, desk, requests, &mut text)?;
    let mut bytes = text.into_bytes();
    push_report(alloc, desk, &mut bytes)?;
    Ok(bytes)
}

// Adds the report of the version that stands.
fn push_report(alloc: Global, desk: &Desk, text: &mut Vec<u8>) -> Result<(), AllocError>
    ensures { OnOk result
        (text.new.items ≡ text.old.items ++ report_of_replay desk.now.standing.trace) }
{
    let report = report_on_run(alloc, desk.published().run())?;
    text.extend_from_slice(report.as_slice())?;
    Ok(())
}

// Answers requests in order, and adds a line for each.
fn push_replies(
    alloc: Global,
    desk: &mut Desk,
    requests: Vec<RequestLine>,
    text: &mut String,
) -> Result<(), AllocError>
    ensures text { OnOk result (string_bytes text.new
        ≡ string_bytes text.old ++ replies_text (replies_from desk.old.standing requests.items)) }
    ensures desk { OnOk result
        (desk.new.standing ≡ standing_from desk.old.standing requests.items) }
{
    for line in requests {
        push_answer(alloc, desk, line, text)?;
    }
    Ok(())
}

fn push_answer(
    alloc: Global,
    desk: &mut Desk,
    line: RequestLine,
    text: &mut String,
) -> Result<(), AllocError>
    ensures text { OnOk result (string_bytes text.new
        ≡ string_bytes text.old
        ++ reply_text (reply_to desk.old.standing (request_of line)) ++ 10 ∷ []) }
    ensures desk { OnOk result
        (desk.new.standing ≡ after desk.old.standing line.session (request_of line)) }
{
    let RequestLine {
        base,
        session,
        batch,
    } = line;
    let reply = desk.answer(alloc, session, Request { base, batch }, Vec::new(alloc))?;
    push_reply(text, reply)
}
