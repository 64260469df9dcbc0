//! The members of a line's object.
ghost use Rattle.std.specs.Prelude.{◌≡◌, Some, None, Ok, Err, IfOk, OnOk, IsErrOf, false};
ghost use Rattle.std.specs.Bool.{MatchBool};
ghost use Rattle.serde_json.specs.Data.{Data, Members, no_members, object};
ghost use Rattle.trace_reader.specs.Reading.{json_of};
ghost use Rattle.trace_reader.specs.declared.fault.LineCause.TheVariants.{NotJson};
ghost use Rattle.trace_reader.specs.Looks.{Tells, is_object, read_tokens, members_from, json_from};

use crate::member_slots::MemberSlots;
use crate::tokens::object::{glance, read_members};
use json::{Reader, Scratch, Token};
use std::alloc::Global;

// Arrays and objects nest 127 deep at most, as `serde_json` reads them.
const MAX_DEPTH: usize = 127;

/// Why nothing is read.
#[derive(Clone, Copy, Debug, Drop, PartialEq, Eq)]
pub enum Unread {
    /// no JSON text, or no UTF-8
    Refused,
    Memory,
}

/// Whether a line is an object; then its members join those that are kept.
#[tactic(auto, unfolding(crate::specs::Reading::json_of))]
pub fn line_members<'a>(
    alloc: Global,
    line: &'a [u8],
    scratch: &'a mut Scratch,
    kept: &mut MemberSlots<'a>,
) -> Result<bool, Unread>
    ensures ok { IfOk result (λ b. MatchBool b
        ((ms : Members) × (json_of line.now ≡ Ok (object ms))
        × (Tells kept.old no_members → Tells kept.new ms))
        ((d : Data) × (json_of line.now ≡ Ok d) × (is_object d ≡ false))) }
    ensures err { IsErrOf result Unread.Refused → json_of line.now ≡ Err NotJson }
{
    let Ok(text) = simdutf8::basic::from_utf8(line) else {
        return Err(Unread::Refused);
    };
    let Ok(mut reader) = Reader::new(text, scratch) else {
        return Err(Unread::Memory);
    };
    whole(alloc, &mut reader, kept)
}

/// The members of a line's object that come after those that are kept, with its closing brace: they join those.
#[tactic(auto, unfolding(crate::specs::Looks::json_from))]
pub fn rest_members<'a>(
    alloc: Global,
    rest: &'a [u8],
    scratch: &'a mut Scratch,
    kept: &mut MemberSlots<'a>,
) -> Result<(), Unread>
    ensures ok { OnOk result ((before : Members) → (ms : Members)
        × (json_from before rest.now ≡ Ok (object ms))
        × (Tells kept.old before → Tells kept.new ms)) }
    ensures err { IsErrOf result Unread.Refused
        → (before : Members) → json_from before rest.now ≡ Err NotJson }
{
    let Ok(text) = simdutf8::basic::from_utf8(rest) else {
        return Err(Unread::Refused);
    };
    let Ok(mut reader) = Reader::new(text, scratch) else {
        return Err(Unread::Memory);
    };
    last_members(alloc, &mut reader, kept)
}

// The members of a line's object, of which the first ones are kept, and nothing behind its closing brace.
#[inline(always)]
fn last_members<'a>(
    alloc: Global,
    reader: &mut Reader<'a>,
    kept: &mut MemberSlots<'a>,
) -> Result<(), Unread>
    ensures ok { OnOk result ((before : Members) → (ms : Members)
        × (members_from before reader.old ≡ Some ms)
        × (Tells kept.old before → Tells kept.new ms)) }
    ensures err { IsErrOf result Unread.Refused
        → (before : Members) → members_from before reader.old ≡ None }
{
    read_members(alloc, reader, MAX_DEPTH - 1, kept)?;
    if let Some(_) = reader.next() {
        return Err(Unread::Refused);
    }
    Ok(())
}

// All of the tokens.
fn whole<'a>(
    alloc: Global,
    reader: &mut Reader<'a>,
    kept: &mut MemberSlots<'a>,
) -> Result<bool, Unread>
    ensures ok { IfOk result (λ b. MatchBool b
        ((ms : Members) × (read_tokens reader.old ≡ Some (object ms))
        × (Tells kept.old no_members → Tells kept.new ms))
        ((d : Data) × (read_tokens reader.old ≡ Some d) × (is_object d ≡ false))) }
    ensures err { IsErrOf result Unread.Refused → read_tokens reader.old ≡ None }
{
    let Some(token) = reader.next() else {
        return Err(Unread::Refused);
    };
    if let Token::BeginObject = token {
        last_members(alloc, reader, kept)?;
        return Ok(true);
    }
    let Some(_) = glance(reader, token, MAX_DEPTH) else {
        return Err(Unread::Refused);
    };
    if let Some(_) = reader.next() {
        return Err(Unread::Refused);
    }
    Ok(false)
}
