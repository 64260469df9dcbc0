//! Lines of a text, and the JSON value of each.
ghost use Rattle.std.specs.Prelude.{◌≡◌, ◌≢◌, ◌<◌, ◌∷◌, ◌==◌, [], length, Ok, Err, IfOk, IfErr, MatchOption};
ghost use Rattle.std.specs.List.{position};
ghost use Rattle.serde_json.specs.View.{view};
ghost use Rattle.trace_reader.specs.Reading.{json_of, lines_of};
ghost use Rattle.trace_reader.specs.Reading as Reading;

use crate::fault::LineCause;
use serde_json::Value;
use std::alloc::Global;

/// The first line, and what comes after its newline.
pub fn cut_line(bytes: &[u8]) -> (&[u8], Option<&[u8]>)
    ensures { MatchOption result.1 (lines_of bytes.now ≡ result.0.now ∷ [])
        (λ rest. (lines_of bytes.now ≡ result.0.now ∷ lines_of rest.now)
        × (length rest.now < length bytes.now)) }
{
    match newline(bytes) {
        Some(at) => (&bytes[..at], Some(&bytes[at + 1..])),
        None => (bytes, None),
    }
}

fn newline(bytes: &[u8]) -> Option<usize>
    ensures { result ≡ position (λ b. b == 10) bytes.now }
{
    memchr::memchr(b'\n', bytes)
}

/// Whether the line has spaces, tabs and carriage returns alone.
pub fn is_blank(line: &[u8]) -> bool
    ensures { result ≡ Reading.is_blank line.now }
{
    line.iter().all(|b| matches!(b, b' ' | b'\t' | b'\r'))
}

/// The value of a line.
#[tactic(auto, unfolding(crate::specs::Reading::json_of))]
pub fn json(alloc: Global, line: &[u8]) -> Result<Value, LineCause>
    ensures ok { IfOk result (λ v. json_of line.now ≡ Ok (view v)) }
    ensures fault { IfErr result (λ e. e ≢ LineCause.Memory → json_of line.now ≡ Err e) }
{
    match Value::from_slice(alloc, line) {
        Ok(value) => Ok(value),
        Err(e) => {
            if e.is_memory() {
                return Err(LineCause::Memory);
            }
            Err(LineCause::NotJson)
        }
    }
}
