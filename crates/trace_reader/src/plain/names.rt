//! Names as they stand in a line: those of members, and those of operations.
ghost use Rattle.std.specs.Prelude.{◌≡◌, ◌++◌, ◌∷◌, List, ℕ, IfSome};
ghost use Rattle.trace_types.specs.Names as Names;
ghost use Rattle.trace_reader.specs.Looks.{IsNamed, name_text};
ghost use Rattle.trace_reader.specs.Plain.{IsKey};

use crate::names::{MemberName, NumberName, written_name};
use crate::plain::texts::unescaped;
use trace_types::names::OpName;

// How many bytes the longest name of an operation has: `new_cyclic`.
const LONGEST: usize = 10;

/// The name of a member, of which the opening quote was read, or None where no operation asks for it, and what comes after its colon.
#[inline(always)]
pub fn key(text: &[u8]) -> Option<(Option<MemberName>, &[u8])>
    ensures { IfSome result (λ found. (key : List ℕ)
        × IsNamed key found.0 × IsKey text.now key found.1.now) }
{
    match short_member_name(text) {
        Some((name, rest)) => Some((Some(name), rest)),
        None => other_key(text),
    }
}

// The names that nearly all members of a line have are told byte by byte; the others by their word, since a pattern for each long one
// takes a dozen lines.
#[inline(always)]
fn short_member_name(text: &[u8]) -> Option<(MemberName, &[u8])>
    ensures { IfSome result (λ found. text.now ≡ name_text found.0 ++ 34 ∷ 58 ∷ found.1.now) }
{
    let (name, rest) = match text {
        [b't', b'"', b':', rest @ ..] => (NumberName::Thread, rest),
        [b'h', b'"', b':', rest @ ..] => (NumberName::Handle, rest),
        [b'i', b'"', b':', rest @ ..] => (NumberName::Index, rest),
        [b'c', b'"', b':', rest @ ..] => (NumberName::Cell, rest),
        [b'i', b'd', b'"', b':', rest @ ..] => (NumberName::Id, rest),
        [b't', b'o', b'"', b':', rest @ ..] => (NumberName::To, rest),
        [b'f', b'r', b'o', b'm', b'"', b':', rest @ ..] => (NumberName::From, rest),
        [b'o', b'p', b'"', b':', rest @ ..] => return Some((MemberName::Op, rest)),
        _ => return None,
    };
    Some((MemberName::Number(name), rest))
}

// Apart, since it is rare.
#[inline(never)]
fn other_key(text: &[u8]) -> Option<(Option<MemberName>, &[u8])>
    ensures { IfSome result (λ found. (key : List ℕ)
        × IsNamed key found.0 × IsKey text.now key found.1.now) }
{
    let (word, after) = unescaped(text)?;
    let [b':', rest @ ..] = after else {
        return None;
    };
    Some((written_name(word), rest))
}

/// The name of an operation, of which the opening quote was read, and what comes after the closing one.
#[inline(always)]
pub fn op_name(text: &[u8]) -> Option<(OpName, &[u8])>
    ensures { IfSome result (λ found. text.now ≡ Names.name_text found.0 ++ 34 ∷ found.1.now) }
{
    match text {
        [b'd', b'r', b'o', b'p', b'"', rest @ ..] => Some((OpName::Drop, rest)),
        [b'c', b'l', b'o', b'n', b'e', b'"', rest @ ..] => Some((OpName::Clone, rest)),
        [b'n', b'e', b'w', b'"', rest @ ..] => Some((OpName::New, rest)),
        [b's', b'e', b't', b'"', rest @ ..] => Some((OpName::Set, rest)),
        [b'g', b'e', b't', b'"', rest @ ..] => Some((OpName::Get, rest)),
        _ => other_op_name(text),
    }
}

// Apart, since it goes over the word twice.
#[inline(never)]
fn other_op_name(text: &[u8]) -> Option<(OpName, &[u8])>
    ensures { IfSome result (λ found. text.now ≡ Names.name_text found.0 ++ 34 ∷ found.1.now) }
{
    let (word, rest) = short_text(text)?;
    let name = named(word)?;
    Some((name, rest))
}

// What stands before the closing quote, and what comes after it, of a text no longer than the longest name of an operation.
#[inline(always)]
fn short_text(text: &[u8]) -> Option<(&[u8], &[u8])>
    ensures { IfSome result (λ found. text.now ≡ found.0.now ++ 34 ∷ found.1.now) }
{
    'bytes: for at in 0..text.len().min(LONGEST + 1) {
        if text[at] == b'"' {
            return Some((&text[..at], &text[at + 1..]));
        }
    }
    None
}

// The operation that is written so, of those that `op_name` doesn't tell by itself. Two matches, since one of so many arms gets no proof.
#[inline(always)]
fn named(text: &[u8]) -> Option<OpName>
    ensures { IfSome result (λ name. text.now ≡ Names.name_text name) }
{
    match of_one_word(text) {
        Some(name) => Some(name),
        None => of_several_words(text),
    }
}

#[inline(always)]
#[tactic(auto, using(std::proofs::lemmas::Slice::Eq::text_from_reads))]
fn of_one_word(text: &[u8]) -> Option<OpName>
    ensures { IfSome result (λ name. text.now ≡ Names.name_text name) }
{
    match text {
        b"upgrade" => Some(OpName::Upgrade),
        b"downgrade" => Some(OpName::Downgrade),
        b"take" => Some(OpName::Take),
        b"null" => Some(OpName::Null),
        b"counts" => Some(OpName::Counts),
        _ => None,
    }
}

#[inline(always)]
#[tactic(auto, using(std::proofs::lemmas::Slice::Eq::text_from_reads))]
fn of_several_words(text: &[u8]) -> Option<OpName>
    ensures { IfSome result (λ name. text.now ≡ Names.name_text name) }
{
    match text {
        b"new_cyclic" => Some(OpName::NewCyclic),
        b"new_from" => Some(OpName::NewFrom),
        b"weak_new" => Some(OpName::WeakNew),
        b"try_unwrap" => Some(OpName::TryUnwrap),
        b"into_inner" => Some(OpName::IntoInner),
        b"get_mut" => Some(OpName::GetMut),
        b"make_mut" => Some(OpName::MakeMut),
        b"ptr_eq" => Some(OpName::PtrEq),
        b"cell_new" => Some(OpName::CellNew),
        b"cell_load" => Some(OpName::CellLoad),
        b"cell_swap" => Some(OpName::CellSwap),
        b"cell_cas" => Some(OpName::CellCas),
        b"cell_drop" => Some(OpName::CellDrop),
        b"scope_end" => Some(OpName::ScopeEnd),
        _ => None,
    }
}
