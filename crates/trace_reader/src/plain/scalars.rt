//! Values of one token.
ghost use Rattle.std.specs.Prelude.{◌∷◌, IfSome};
ghost use Rattle.serde_json.specs.Data.{Data, string};
ghost use Rattle.trace_types.specs.Names.{name_text};
ghost use Rattle.trace_reader.specs.Plain.{IsScalar, IsValue};

use crate::look::Seen;
use crate::plain::names::op_name;
use crate::plain::numbers::natural;
use crate::plain::texts::{is_delimited, unescaped};
use trace_types::names::OpName;

/// A natural number, null or the text `me`, and what comes after it.
#[inline(always)]
pub fn scalar(text: &[u8]) -> Option<(Seen<'static>, &[u8])>
    ensures { IfSome result (λ found. IsScalar text.now found.0 found.1.now) }
{
    if let Some((n, rest)) = natural(text) {
        return Some((Seen::Natural(n), rest));
    }
    word(text)
}

// Null or the text `me`.
fn word(text: &[u8]) -> Option<(Seen<'static>, &[u8])>
    ensures { IfSome result (λ found. IsScalar text.now found.0 found.1.now) }
{
    match text {
        [b'n', b'u', b'l', b'l', rest @ ..] => if is_delimited(rest) {
            Some((Seen::Nothing, rest))
        } else {
            None
        },
        [b'"', b'm', b'e', b'"', rest @ ..] => if is_delimited(rest) {
            Some((Seen::Text("me"), rest))
        } else {
            None
        },
        _ => None,
    }
}

/// A text that names an operation, and what comes after it.
#[inline(always)]
pub fn op(text: &[u8]) -> Option<(OpName, &[u8])>
    ensures { IfSome result (λ found. IsValue text.now (string (name_text found.0)) found.1.now) }
{
    let [b'"', named @ ..] = text else {
        return None;
    };
    let (name, rest) = op_name(named)?;
    if !is_delimited(rest) {
        return None;
    }
    Some((name, rest))
}

/// A value that is passed: a natural number, null, a text without escapes or a truth value. What comes after it.
pub fn passed(text: &[u8]) -> Option<&[u8]>
    ensures { IfSome result (λ rest. (d : Data) × IsValue text.now d rest.now) }
{
    if let [b'"', inside @ ..] = text {
        return passed_text(inside);
    }
    match scalar(text) {
        Some((_, rest)) => Some(rest),
        None => truth_value(text),
    }
}

// A text of which the opening quote was read.
fn passed_text(text: &[u8]) -> Option<&[u8]>
    ensures { IfSome result (λ rest. (d : Data) × IsValue (34 ∷ text.now) d rest.now) }
{
    let (_, rest) = unescaped(text)?;
    if !is_delimited(rest) {
        return None;
    }
    Some(rest)
}

fn truth_value(text: &[u8]) -> Option<&[u8]>
    ensures { IfSome result (λ rest. (d : Data) × IsValue text.now d rest.now) }
{
    match text {
        [b't', b'r', b'u', b'e', rest @ ..] => if is_delimited(rest) { Some(rest) } else { None },
        [b'f', b'a', b'l', b's', b'e', rest @ ..] => if is_delimited(rest) {
            Some(rest)
        } else {
            None
        },
        _ => None,
    }
}
