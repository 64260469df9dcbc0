//! The members of an object, as far as an operation asks of them.
ghost use Rattle.std.specs.Prelude.{◌≡◌, ◌<◌, ℕ, List, length, Some, None, Ok, Err, IfOk, OnOk, OnSome, IsErrOf, MatchOption, false, ◌∷◌, ◌≤◌, true};
ghost use Rattle.json.specs.Reads.{token_of};
ghost use Rattle.serde_json.specs.Data.{Data, Items, Members, put};
ghost use Rattle.trace_reader.specs.Members.{field_of};
ghost use Rattle.trace_reader.specs.Looks.{told, look_of, elements_of, listed, elements_told, IsNamed, Tells};
ghost use Rattle.trace_reader.specs.Looks.{field_told, opens_array, opens_object, is_object, is_array};
ghost use Rattle.trace_reader.specs.Looks.{first_value, first_items, first_members};

use crate::fault::LineCause;
use crate::look::{Seen, field};
use crate::member_slots::{KeptElements, MemberSlots};
use crate::names::{MemberName, member_name};
use crate::tokens::line::Unread;
use crate::tokens::numbers::natural;
use crate::tokens::pass::{pass, pass_items, pass_members};
use json::{Reader, Token};
use std::alloc::Global;
use trace_types::kinds::Field;

// What a value is seen as, after its first token; None where it is refused. It is inlined with `see`, since an answer of this
// size would go through memory at each member.
#[inline(always)]
pub fn glance<'a>(reader: &mut Reader<'a>, token: Token<'a>, depth: usize) -> Option<Seen<'a>>
    ensures value { MatchOption result
        (first_value depth (token_of token.entry ∷ reader.old) ≡ None)
        (λ s. (d : Data)
        × (first_value depth (token_of token.entry ∷ reader.old) ≡ Some (d, reader.new))
        × (told s ≡ look_of d) × (field_of true d ≡ field_told (look_of d))
        × (is_object d ≡ opens_object (token_of token.entry))
        × (is_array d ≡ opens_array (token_of token.entry))) }
    ensures shorter { OnSome result (length reader.new ≤ length reader.old) }
{
    match token {
        Token::String(text) => Some(Seen::Text(text)),
        Token::Null => Some(Seen::Nothing),
        Token::Bool(_) => Some(Seen::Other),
        Token::Number(text) => match natural(text) {
            Some(Some(n)) => Some(Seen::Natural(n)),
            Some(None) => Some(Seen::Other),
            None => None,
        },
        Token::BeginObject => {
            if depth == 0 {
                return None;
            }
            if pass_members(reader, depth - 1) {
                Some(Seen::Other)
            } else {
                None
            }
        }
        Token::BeginArray => {
            if depth == 0 {
                return None;
            }
            if pass_items(reader, depth - 1) {
                Some(Seen::Other)
            } else {
                None
            }
        }
        Token::EndObject | Token::EndArray | Token::Key(_) | Token::Bad => None,
    }
}

// What a value is seen as.
#[inline(always)]
fn see<'a>(reader: &mut Reader<'a>, depth: usize) -> Option<Seen<'a>>
    ensures value { MatchOption result (first_value depth reader.old ≡ None)
        (λ s. (d : Data) × (first_value depth reader.old ≡ Some (d, reader.new))
        × (told s ≡ look_of d) × (field_of true d ≡ field_told (look_of d))) }
    ensures shorter { OnSome result (length reader.new < length reader.old) }
{
    let Some(token) = reader.next() else {
        return None;
    };
    glance(reader, token, depth)
}

// The field that an element is in `new_cyclic`, or its fault; None where the element is refused.
fn element(reader: &mut Reader<'_>, depth: usize) -> Option<Result<Field, LineCause>>
    ensures value { MatchOption result (first_value depth reader.old ≡ None)
        (λ r. (d : Data) × (first_value depth reader.old ≡ Some (d, reader.new))
        × (field_of true d ≡ r)) }
    ensures shorter { OnSome result (length reader.new < length reader.old) }
{
    let Some(seen) = see(reader, depth) else {
        return None;
    };
    Some(field(seen))
}

// The elements of an array, with its closing bracket.
fn elements(
    alloc: Global,
    reader: &mut Reader<'_>,
    depth: usize,
) -> Result<Vec<Result<Field, LineCause>>, Unread>
    ensures ok { IfOk result (λ v. (ds : Items)
        × (first_items depth reader.old ≡ Some (ds, reader.new)) × (elements_of ds ≡ v.items)) }
    ensures shorter { OnOk result (length reader.new < length reader.old) }
    ensures err { IsErrOf result Unread.Refused → first_items depth reader.old ≡ None }
{
    let mut found = Vec::new(alloc);
    'items: while !reader.take_end_array() {
        let Some(element) = element(reader, depth) else {
            return Err(Unread::Refused);
        };
        if found.push(element).is_err() {
            return Err(Unread::Memory);
        }
    }
    Ok(found)
}

// What is kept of the member `fields`.
fn fields(alloc: Global, reader: &mut Reader<'_>, depth: usize) -> Result<KeptElements, Unread>
    ensures ok { IfOk result (λ f. (d : Data)
        × (first_value depth reader.old ≡ Some (d, reader.new))
        × (elements_told f ≡ Some (listed d))) }
    ensures shorter { OnOk result (length reader.new < length reader.old) }
    ensures err { IsErrOf result Unread.Refused → first_value depth reader.old ≡ None }
{
    let Some(token) = reader.next() else {
        return Err(Unread::Refused);
    };
    if let Token::BeginArray = token {
        if depth == 0 {
            return Err(Unread::Refused);
        }
        let elements = elements(alloc, reader, depth - 1)?;
        return Ok(KeptElements::Listed(elements));
    }
    match glance(reader, token, depth) {
        Some(_) => Ok(KeptElements::Other),
        None => Err(Unread::Refused),
    }
}

// Reads the value of a member, and keeps it where an operation may ask for its name.
fn keep<'a>(
    alloc: Global,
    reader: &mut Reader<'a>,
    depth: usize,
    name: Option<MemberName>,
    kept: &mut MemberSlots<'a>,
) -> Result<(), Unread>
    ensures ok { OnOk result ((d : Data) × (first_value depth reader.old ≡ Some (d, reader.new))
        × ((key : List ℕ) (ms : Members) → IsNamed key name
        → Tells kept.old ms → Tells kept.new (put key d ms))) }
    ensures shorter { OnOk result (length reader.new < length reader.old) }
    ensures err { IsErrOf result Unread.Refused → first_value depth reader.old ≡ None }
{
    match name {
        Some(MemberName::Number(name)) => match see(reader, depth) {
            Some(seen) => kept.keep_number(name, seen),
            None => return Err(Unread::Refused),
        },
        Some(MemberName::Op) => match see(reader, depth) {
            Some(seen) => kept.keep_op(seen),
            None => return Err(Unread::Refused),
        },
        Some(MemberName::Fields) => kept.keep_fields(fields(alloc, reader, depth)?),
        None => if !pass(reader, depth) {
            return Err(Unread::Refused);
        },
    }
    Ok(())
}

/// The members of an object, with its closing brace: they join those that are kept.
pub fn read_members<'a>(
    alloc: Global,
    reader: &mut Reader<'a>,
    depth: usize,
    kept: &mut MemberSlots<'a>,
) -> Result<(), Unread>
    ensures ok { OnOk result ((old : Members) → (ms : Members)
        × (first_members old depth reader.old ≡ Some (ms, reader.new))
        × (Tells kept.old old → Tells kept.new ms)) }
    ensures err { IsErrOf result Unread.Refused
        → (old : Members) → first_members old depth reader.old ≡ None }
{
    'members: loop {
        match reader.next_key() {
            Ok(Some(key)) => keep(alloc, reader, depth, member_name(key), kept)?,
            Ok(None) => return Ok(()),
            Err(_) => return Err(Unread::Refused),
        }
    }
}
