//! An operation: of a line, or of a value.
ghost use Rattle.std.specs.Prelude.{IfOk, IsTrue};
ghost use Rattle.serde_json.specs.Data.{Members, object};
ghost use Rattle.serde_json.specs.Find.{as_object};
ghost use Rattle.serde_json.specs.View.{view};
ghost use Rattle.trace_types.specs.Limits.{is_kind};
ghost use Rattle.trace_reader.specs.Members.{Gives};
ghost use Rattle.trace_reader.specs.Looks.{Tells};
ghost use Rattle.trace_reader.specs.Plain.{op_from};
ghost use Rattle.trace_reader.specs.Reading.{on_object};
ghost use Rattle.trace_reader.specs.Reading as Reading;
ghost use Rattle.trace_reader.specs.Writing.{op_of_line};

use crate::fault::LineCause;
use crate::kinds;
use crate::line_scratch::LineScratch;
use crate::member_slots::MemberSlots;
use crate::members::{number, op_name};
use crate::names::NumberName;
use crate::plain::line::{Walk, plain_members};
use crate::tokens::line::{Unread, line_members, rest_members};
use crate::values::value_members;
use json::Scratch;
use serde_json::Value;
use std::alloc::Global;
use trace_types::kinds::Kind;
use trace_types::limits::{MAX_ID, MAX_THREAD};
use trace_types::ops::Op;

/// The operation that a line is, or its first fault.
///
/// It is an object with the members `id` (1 to `MAX_ID`), `t` (0 to `MAX_THREAD`), `op`, the operation's name, and then
/// those of the operation. Each is tried for `Missing`, `WrongType` and `OutOfRange` before the next one. The scratch is kept
/// from line to line.
#[tactic(auto, unfolding(crate::specs::Reading::read_op))]
pub fn line_op(alloc: Global, line: &[u8], scratch: &mut LineScratch) -> Result<Op, LineCause>
    ensures { Gives result (op_of_line line.now) }
{
    if !scratch.pays() {
        scratch.note_tokens(line);
        return token_op(alloc, line, &mut scratch.tokens);
    }
    let mut kept = MemberSlots::none();
    match plain_members(alloc, line, &mut kept)? {
        Walk::Whole => {
            scratch.note_walk(line.len());
            members_of_op(alloc, &kept)
        }
        Walk::UpTo(rest) => {
            scratch.note_end(line, rest);
            rest_op(alloc, rest, &mut scratch.tokens, &mut kept)
        }
        Walk::Nowhere => {
            scratch.note_tokens(line);
            scratch.note_vain(line.len());
            token_op(alloc, line, &mut scratch.tokens)
        }
    }
}

// The operation of which some members are kept, and the others come token by token.
#[inline(never)]
#[tactic(auto, unfolding(crate::specs::Reading::read_op))]
fn rest_op<'a>(
    alloc: Global,
    rest: &'a [u8],
    scratch: &'a mut Scratch,
    kept: &mut MemberSlots<'a>,
) -> Result<Op, LineCause>
    ensures { (before : Members) → Tells kept.old before → Gives result (op_from before rest.now) }
{
    match rest_members(alloc, rest, scratch, kept) {
        Ok(()) => members_of_op(alloc, kept),
        Err(Unread::Refused) => Err(LineCause::NotJson),
        Err(Unread::Memory) => Err(LineCause::Memory),
    }
}

// The operation that a line is, token by token. Apart, so that the walk over a plain line has few locals to set to zero.
#[inline(never)]
#[tactic(auto, unfolding(crate::specs::Reading::read_op))]
fn token_op(alloc: Global, line: &[u8], scratch: &mut Scratch) -> Result<Op, LineCause>
    ensures { Gives result (op_of_line line.now) }
{
    let mut kept = MemberSlots::none();
    match line_members(alloc, line, scratch, &mut kept) {
        Ok(true) => members_of_op(alloc, &kept),
        Ok(false) => Err(LineCause::NotObject),
        Err(Unread::Refused) => Err(LineCause::NotJson),
        Err(Unread::Memory) => Err(LineCause::Memory),
    }
}

/// The operation that a value is, or its first fault, as that of a line.
#[tactic(auto, unfolding(crate::specs::Reading::read_op))]
pub fn read_op(alloc: Global, value: &Value) -> Result<Op, LineCause>
    ensures { Gives result (Reading.read_op (view value.now)) }
{
    object_op(alloc, value, LineCause::NotObject)
}

/// The operation that an object is; `cause` is the fault of another value.
pub fn object_op(alloc: Global, value: &Value, cause: LineCause) -> Result<Op, LineCause>
    ensures { Gives result
        (on_object cause (as_object (view value.now)) (Reading.members_of_op (view value.now))) }
{
    let Some(members) = value.as_object() else {
        return Err(cause);
    };
    let kept = value_members(alloc, members)?;
    members_of_op(alloc, &kept)
}

#[tactic(auto, unfolding(crate::specs::Reading::members_of_op))]
fn members_of_op(alloc: Global, kept: &MemberSlots<'_>) -> Result<Op, LineCause>
    ensures { (ms : Members) → Tells kept.now ms
        → Gives result (Reading.members_of_op (object ms)) }
{
    let id = number(kept, NumberName::Id, 1, MAX_ID)?;
    let thread = number(kept, NumberName::Thread, 0, MAX_THREAD)?;
    let kind = kind(alloc, kept)?;
    Op::make(id, thread, kind).map_err(|_| LineCause::OutOfRange)
}

#[tactic(auto, unfolding(crate::specs::Reading::kind_at))]
fn kind(alloc: Global, kept: &MemberSlots<'_>) -> Result<Kind, LineCause>
    ensures value { (ms : Members) → Tells kept.now ms
        → Gives result (Reading.kind_at (object ms)) }
    ensures within { IfOk result (λ k. IsTrue (is_kind k)) }
{
    let Some(name) = op_name(kept)? else {
        return Err(LineCause::UnknownOp);
    };
    kinds::kind(alloc, name, kept)
}
