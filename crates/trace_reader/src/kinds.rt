//! The members of each operation. They are tried in the order in which they stand.
ghost use Rattle.std.specs.Prelude.{◌≡◌, IfOk, IsTrue};
ghost use Rattle.serde_json.specs.Data.{Members, object};
ghost use Rattle.trace_reader.specs.Looks.{Tells};
ghost use Rattle.trace_types.specs.Limits.{is_kind};
ghost use Rattle.trace_reader.specs.Members.{Gives};
ghost use Rattle.trace_reader.specs.Kinds.{kind_of};

use crate::fault::LineCause;
use crate::fields::fields;
use crate::member_slots::MemberSlots;
use crate::members::{handle, index, perhaps_handle};
use crate::names::NumberName;
use std::alloc::Global;
use trace_types::kinds::Kind;
use trace_types::names::OpName;

/// What an operation of that name does, with its members.
#[tactic(auto, unfolding(crate::specs::Kinds::one_at, crate::specs::Kinds::two_at, crate::specs::Kinds::three_at, crate::specs::Kinds::field_at, crate::specs::Kinds::made_at, crate::specs::Kinds::swap_at))]
pub fn kind(alloc: Global, name: OpName, kept: &MemberSlots<'_>) -> Result<Kind, LineCause>
    ensures value { (ms : Members) → Tells kept.now ms → Gives result (kind_of name (object ms)) }
    ensures within { IfOk result (λ k. IsTrue (is_kind k)) }
{
    match name {
        OpName::New => Ok(Kind::New {
            to: handle(kept, NumberName::To)?,
            fields: fields(alloc, kept, false)?,
        }),
        OpName::NewCyclic => Ok(Kind::NewCyclic {
            to: handle(kept, NumberName::To)?,
            fields: fields(alloc, kept, true)?,
        }),
        OpName::NewFrom => Ok(Kind::NewFrom {
            from: handle(kept, NumberName::From)?,
            to: handle(kept, NumberName::To)?,
        }),
        OpName::WeakNew => Ok(Kind::WeakNew {
            to: handle(kept, NumberName::To)?,
        }),
        OpName::Null => Ok(Kind::Null {
            to: handle(kept, NumberName::To)?,
        }),
        OpName::Clone => Ok(Kind::Clone {
            from: handle(kept, NumberName::From)?,
            to: handle(kept, NumberName::To)?,
        }),
        OpName::Drop => Ok(Kind::Drop {
            h: handle(kept, NumberName::Handle)?,
        }),
        OpName::Downgrade => Ok(Kind::Downgrade {
            from: handle(kept, NumberName::From)?,
            to: handle(kept, NumberName::To)?,
        }),
        OpName::Upgrade => Ok(Kind::Upgrade {
            from: handle(kept, NumberName::From)?,
            to: handle(kept, NumberName::To)?,
        }),
        OpName::TryUnwrap => Ok(Kind::TryUnwrap {
            h: handle(kept, NumberName::Handle)?,
        }),
        OpName::IntoInner => Ok(Kind::IntoInner {
            h: handle(kept, NumberName::Handle)?,
        }),
        OpName::GetMut => Ok(Kind::GetMut {
            h: handle(kept, NumberName::Handle)?,
        }),
        OpName::MakeMut => Ok(Kind::MakeMut {
            h: handle(kept, NumberName::Handle)?,
        }),
        OpName::Counts => Ok(Kind::Counts {
            h: handle(kept, NumberName::Handle)?,
        }),
        OpName::PtrEq => Ok(Kind::PtrEq {
            a: handle(kept, NumberName::First)?,
            b: handle(kept, NumberName::Second)?,
        }),
        OpName::Set => Ok(Kind::Set {
            h: handle(kept, NumberName::Handle)?,
            i: index(kept)?,
            from: handle(kept, NumberName::From)?,
        }),
        OpName::Take => Ok(Kind::Take {
            h: handle(kept, NumberName::Handle)?,
            i: index(kept)?,
            to: handle(kept, NumberName::To)?,
        }),
        OpName::Get => Ok(Kind::Get {
            h: handle(kept, NumberName::Handle)?,
            i: index(kept)?,
            to: handle(kept, NumberName::To)?,
        }),
        OpName::CellNew => Ok(Kind::CellNew {
            c: handle(kept, NumberName::Cell)?,
            from: handle(kept, NumberName::From)?,
        }),
        OpName::CellLoad => Ok(Kind::CellLoad {
            c: handle(kept, NumberName::Cell)?,
            to: handle(kept, NumberName::To)?,
        }),
        OpName::CellSwap => Ok(Kind::CellSwap {
            c: handle(kept, NumberName::Cell)?,
            from: handle(kept, NumberName::From)?,
            to: perhaps_handle(kept, NumberName::To)?,
        }),
        OpName::CellCas => Ok(Kind::CellCas {
            c: handle(kept, NumberName::Cell)?,
            expected: handle(kept, NumberName::Expected)?,
            desired: handle(kept, NumberName::Desired)?,
        }),
        OpName::CellDrop => Ok(Kind::CellDrop {
            c: handle(kept, NumberName::Cell)?,
        }),
        OpName::ScopeEnd => Ok(Kind::ScopeEnd),
    }
}
