//! The text of a report.
ghost use Rattle.std.specs.Prelude.{◌≡◌, string_bytes, IfOk};
ghost use Rattle.leak_report.specs.Text.{report_text};

use crate::closing_text::{push_husks, push_leaks, push_lives, push_total};
use crate::shown::Report;
use std::alloc::{AllocError, Global};

/// The whole text of a report: a line for each operation, for each object that was made, for each leaked object and for
/// each husk, and the total.
pub fn text_of(alloc: Global, report: &Report) -> Result<String, AllocError>
    ensures { IfOk result (λ s. string_bytes s ≡ report_text report.now) }
{
    let mut text = String::new(alloc);
    report.push_lines(&mut text)?;
    push_lives(&mut text, report.lives())?;
    push_leaks(&mut text, report.leaks().leaked.as_slice())?;
    push_husks(&mut text, report.leaks().husks.as_slice())?;
    push_total(&mut text, report)?;
    Ok(text)
}
