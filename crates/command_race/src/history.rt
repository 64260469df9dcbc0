//! The text of a history.
ghost use Rattle.std.specs.Prelude.{◌≡◌, ◌++◌, OnOk, IfOk, string_bytes};
ghost use Rattle.command_race.specs.Race.{entry_text, history_text, race_text};

use crate::reports::report_of_desk;
use edit_desk::{Desk, Entry, push_reply};
use std::alloc::{AllocError, Global};

// Adds the line of an entry: its session, and the reply.
fn push_entry(text: &mut String, entry: &Entry) -> Result<(), AllocError>
    ensures { OnOk result (string_bytes text.new ≡ string_bytes text.old ++ entry_text entry.now) }
{
    let session = entry.session;
    write!(text, "session {session} ")?;
    push_reply(text, entry.reply)
}

// Adds a line for each entry.
fn push_history(text: &mut String, desk: &Desk) -> Result<(), AllocError>
    ensures { OnOk result (string_bytes text.new
        ≡ string_bytes text.old ++ history_text desk.now.standing.history) }
{
    for place in 0..desk.len() {
        let Some(entry) = desk.entry(place) else {
            return Err(AllocError);
        };
        push_entry(text, entry)?;
    }
    Ok(())
}

/// A line for each entry of a desk's history, and the report of the version that stands.
pub fn text_on(alloc: Global, desk: &Desk) -> Result<Vec<u8>, AllocError>
    ensures { IfOk result (λ text. text.items
        ≡ race_text desk.now.standing.opening desk.now.standing.history) }
{
    let mut text = String::new(alloc);
    push_history(&mut text, desk)?;
    let report = report_of_desk(alloc, desk)?;
    let mut bytes = text.into_bytes();
    bytes.extend_from_slice(report.as_slice())?;
    Ok(bytes)
}
