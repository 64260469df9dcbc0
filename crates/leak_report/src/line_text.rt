//! The text of a report's lines: what each operation did.
ghost use Rattle.std.specs.Prelude.{◌≡◌, length, OnOk};
ghost use Rattle.text_pieces.specs.Pieces.{Adds};
ghost use Rattle.trace_types.specs.Stretches.{ops_of, outcomes_of};
ghost use Rattle.leak_report.specs.Lines.{line_of, lines_of};
ghost use Rattle.leak_report.specs.Text.{answer_text, reason_text, verdict_text, event_text, events_text, counts_text, outcome_text, line_text, lines_text};

use std::alloc::AllocError;
use text_pieces::{push_decimal, push_labelled, push_name};
use trace_types::ops::Op;
use trace_types::outcomes::{Answer, Counts, Event, Outcome, Reason, Verdict};
use trace_types::stretches::Stretch;

/// Adds a line for each operation of each stretch.
pub fn push_all_lines(text: &mut String, stretches: &[Stretch]) -> Result<(), AllocError>
    ensures { OnOk result (Adds text.old text.new
        (lines_text (lines_of (ops_of stretches.now) (outcomes_of stretches.now)))) }
{
    for stretch in stretches {
        push_lines(text, stretch.ops, stretch.outcomes)?;
    }
    Ok(())
}

fn push_lines(text: &mut String, ops: &[Op], outcomes: &[Outcome]) -> Result<(), AllocError>
    requires { length outcomes.now ≡ length ops.now }
    ensures { OnOk result (Adds text.old text.new (lines_text (lines_of ops.now outcomes.now))) }
{
    for i in 0..ops.len() {
        push_line(text, &ops[i], &outcomes[i])?;
    }
    Ok(())
}

fn push_line(text: &mut String, op: &Op, outcome: &Outcome) -> Result<(), AllocError>
    ensures { OnOk result (Adds text.old text.new (line_text (line_of op.now outcome.now))) }
{
    push_decimal(text, outcome.id as u64)?;
    text.push(' ')?;
    push_name(text, op.kind().name())?;
    text.push(' ')?;
    push_outcome(text, outcome)?;
    text.push('\n')?;
    Ok(())
}

fn push_outcome(text: &mut String, outcome: &Outcome) -> Result<(), AllocError>
    ensures { OnOk result (Adds text.old text.new (outcome_text outcome.now)) }
{
    push_verdict(text, outcome.verdict)?;
    push_counts(text, outcome.counts)?;
    push_events(text, outcome.events.as_slice())?;
    Ok(())
}

fn push_verdict(text: &mut String, verdict: Verdict) -> Result<(), AllocError>
    ensures { OnOk result (Adds text.old text.new (verdict_text verdict)) }
{
    match verdict {
        Verdict::Did(answer) => push_answer(text, answer),
        Verdict::Skipped(reason) => {
            text.push_str("skipped ")?;
            push_reason(text, reason)
        }
    }
}

fn push_answer(text: &mut String, answer: Answer) -> Result<(), AllocError>
    ensures { OnOk result (Adds text.old text.new (answer_text answer)) }
{
    match answer {
        Answer::Made => text.push_str("made"),
        Answer::Done => text.push_str("done"),
        Answer::Yes => text.push_str("yes"),
        Answer::No => text.push_str("no"),
        Answer::Cloned => text.push_str("cloned"),
        Answer::Moved => text.push_str("moved"),
        Answer::Unique => text.push_str("unique"),
    }
}

fn push_reason(text: &mut String, reason: Reason) -> Result<(), AllocError>
    ensures { OnOk result (Adds text.old text.new (reason_text reason)) }
{
    match reason {
        Reason::SameName(n) => push_labelled(text, "SameName ", n as u64),
        Reason::NotHeld(n) => push_labelled(text, "NotHeld ", n as u64),
        Reason::NoCell(n) => push_labelled(text, "NoCell ", n as u64),
        Reason::WrongKind(n) => push_labelled(text, "WrongKind ", n as u64),
        Reason::NoField(n) => push_labelled(text, "NoField ", n as u64),
        Reason::AlreadyHeld(n) => push_labelled(text, "AlreadyHeld ", n as u64),
        Reason::CellHeld(n) => push_labelled(text, "CellHeld ", n as u64),
    }
}

fn push_counts(text: &mut String, counts: Option<Counts>) -> Result<(), AllocError>
    ensures { OnOk result (Adds text.old text.new (counts_text counts)) }
{
    let Some(counts) = counts else {
        return Ok(());
    };
    push_labelled(text, " #", counts.object as u64)?;
    push_labelled(text, " ", counts.strong)?;
    push_labelled(text, "/", counts.weak)
}

fn push_events(text: &mut String, events: &[Event]) -> Result<(), AllocError>
    ensures { OnOk result (Adds text.old text.new (events_text events.now)) }
{
    for event in events {
        push_event(text, *event)?;
    }
    Ok(())
}

fn push_event(text: &mut String, event: Event) -> Result<(), AllocError>
    ensures { OnOk result (Adds text.old text.new (event_text event)) }
{
    match event {
        Event::Destroyed(o) => push_labelled(text, " destroyed #", o as u64),
        Event::Unwrapped(o) => push_labelled(text, " unwrapped #", o as u64),
        Event::Moved(o) => push_labelled(text, " moved #", o as u64),
        Event::Freed(o) => push_labelled(text, " freed #", o as u64),
    }
}
