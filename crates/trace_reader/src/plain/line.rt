//! The members of a line's object.
ghost use Rattle.std.specs.Prelude.{◌≡◌, ◌∷◌, [], List, ℕ, IfOk, IsTrue, MatchOption};
ghost use Rattle.std.specs.Str.{IsUtf8};
ghost use Rattle.json.specs.Lex.{after_value};
ghost use Rattle.json.specs.Token.{Token};
ghost use Rattle.serde_json.specs.Data.{Data, Members, put};
ghost use Rattle.trace_reader.specs.Looks.{IsNamed, Tells};
ghost use Rattle.trace_reader.specs.Plain.{IsMember, IsValue, IsWalked, tokens_at};

use crate::lines::is_blank;
use crate::member_slots::{KeptElements, MemberSlots};
use crate::names::MemberName;
use crate::plain::elements::elements;
use crate::plain::names::key;
use crate::plain::scalars::{op, passed, scalar};
use crate::plain::texts::after_spaces;
use std::alloc::{AllocError, Global};

/// How far a walk came over a line.
#[derive(Clone, Copy, Debug)]
pub enum Walk<'a> {
    /// over the whole line: it is plain
    Whole,
    /// up to the member that comes first here
    UpTo(&'a [u8]),
    /// the line is no object, or no JSON text, or has blanks where a walk knows none
    Nowhere,
}

/// Walks over the members of a line that are plain, and keeps them: names without escapes, and as their values natural numbers, null, texts
/// without escapes, and in `fields` an array of numbers, null and `me`. Truth values are plain where no operation asks for the name. There may
/// be spaces behind a brace, a bracket, a colon or a comma, and one before a closing brace or bracket.
pub fn plain_members<'a>(
    alloc: Global,
    line: &'a [u8],
    kept: &mut MemberSlots<'_>,
) -> Result<Walk<'a>, AllocError>
    ensures { IfOk result (λ walk. IsWalked line.now kept.old kept.new walk) }
{
    let [b'{', inside @ ..] = line else {
        return Ok(Walk::Nowhere);
    };
    let mut rest = after_spaces(inside);
    'members: loop {
        let [b'"', named @ ..] = rest else {
            return Ok(Walk::Nowhere);
        };
        let Some(after) = member(alloc, named, kept)? else {
            return Ok(Walk::UpTo(rest));
        };
        match after {
            [b',', next @ ..] => rest = after_spaces(next),
            _ => {
                if is_end(after) {
                    return Ok(Walk::Whole);
                }
                return Ok(Walk::Nowhere);
            }
        }
    }
}

// Keeps the member of which the opening quote was read, and gives what comes after it. Where it isn't plain, all is as before.
#[inline(always)]
fn member<'a>(
    alloc: Global,
    text: &'a [u8],
    kept: &mut MemberSlots<'_>,
) -> Result<Option<&'a [u8]>, AllocError>
    ensures { IfOk result (λ read. MatchOption read (kept.new ≡ kept.old)
        (λ rest. (key : List ℕ) × (d : Data) × IsMember text.now key d rest.now
        × ((ms : Members) → Tells kept.old ms → Tells kept.new (put key d ms)))) }
{
    let Some((name, value)) = key(text) else {
        return Ok(None);
    };
    keep(alloc, after_spaces(value), name, kept)
}

// Whether the closing brace alone is left, with blanks behind it.
#[inline(always)]
fn is_end(text: &[u8]) -> bool
    ensures tokens { IsTrue result → tokens_at after_value text.now ≡ Token.end_object ∷ [] }
    ensures utf8 { IsTrue result → IsUtf8 text.now }
{
    // Most lines end with the brace.
    if let [b'}'] = text {
        return true;
    }
    let [b'}', behind @ ..] = after_spaces(text) else {
        return false;
    };
    is_blank(behind)
}

// Keeps the member of that name, whose value comes first, or passes one that no operation asks for, and gives what comes after it.
#[inline(always)]
fn keep<'a>(
    alloc: Global,
    text: &'a [u8],
    name: Option<MemberName>,
    kept: &mut MemberSlots<'_>,
) -> Result<Option<&'a [u8]>, AllocError>
    ensures { IfOk result (λ read. MatchOption read (kept.new ≡ kept.old)
        (λ rest. (d : Data) × IsValue text.now d rest.now
        × ((key : List ℕ) (ms : Members) → IsNamed key name
        → Tells kept.old ms → Tells kept.new (put key d ms)))) }
{
    match name {
        Some(MemberName::Number(name)) => {
            let Some((seen, rest)) = scalar(text) else {
                return Ok(None);
            };
            kept.keep_number(name, seen);
            Ok(Some(rest))
        }
        Some(MemberName::Op) => {
            let Some((name, rest)) = op(text) else {
                return Ok(None);
            };
            kept.keep_op_name(name);
            Ok(Some(rest))
        }
        Some(MemberName::Fields) => {
            let [b'[', listed @ ..] = text else {
                return Ok(None);
            };
            let Some((elements, rest)) = elements(alloc, listed)? else {
                return Ok(None);
            };
            kept.keep_fields(KeptElements::Listed(elements));
            Ok(Some(rest))
        }
        None => {
            let Some(rest) = passed(text) else {
                return Ok(None);
            };
            Ok(Some(rest))
        }
    }
}
