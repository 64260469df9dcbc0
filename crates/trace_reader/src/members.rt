//! The members of an operation, by their names.
ghost use Rattle.std.specs.Prelude.{◌≡◌, ◌≤◌, IfOk, IsTrue, codes};
ghost use Rattle.serde_json.specs.Data.{Members, object};
ghost use Rattle.trace_types.specs.Limits.{is_perhaps_name};
ghost use Rattle.trace_reader.specs.Members.{within, number_at, handle_at, perhaps_handle_at, text_at};
ghost use Rattle.trace_reader.specs.Looks.{number_text, kept_at, op_told, Tells, number_told, perhaps_told, text_told, named_by};

use crate::fault::LineCause;
use crate::member_slots::{KeptNumber, KeptText, MemberSlots};
use crate::names::NumberName;
use trace_types::limits::{MAX_INDEX, MAX_NAME};
use trace_types::names::{OpName, read_name};

/// A number from `low` to `high`.
pub fn in_range(n: Option<u64>, low: u32, high: u32) -> Result<u32, LineCause>
    ensures value { result ≡ within low high n }
    ensures range { IfOk result (λ n. (low ≤ n) × (n ≤ high)) }
{
    let Some(n) = n else {
        return Err(LineCause::WrongType);
    };
    if n < low as u64 || n > high as u64 {
        return Err(LineCause::OutOfRange);
    }
    Ok(n as u32)
}

/// The member of that name, a number from `low` to `high`.
pub fn number(
    kept: &MemberSlots<'_>,
    name: NumberName,
    low: u32,
    high: u32,
) -> Result<u32, LineCause>
    ensures value { (ms : Members) → Tells kept.now ms
        → result ≡ number_at (number_text name) low high (object ms) }
    ensures range { IfOk result (λ n. (low ≤ n) × (n ≤ high)) }
{
    kept_number(kept, name, low, high)
}

fn kept_number(
    kept: &MemberSlots<'_>,
    name: NumberName,
    low: u32,
    high: u32,
) -> Result<u32, LineCause>
    ensures value { result ≡ number_told low high (kept_at kept.now name) }
    ensures range { IfOk result (λ n. (low ≤ n) × (n ≤ high)) }
{
    match kept.number(name) {
        KeptNumber::Missing => Err(LineCause::Missing),
        KeptNumber::Natural(n) => in_range(Some(n), low, high),
        KeptNumber::Nothing | KeptNumber::Other => Err(LineCause::WrongType),
    }
}

/// The number of a handle or a cell.
pub fn handle(kept: &MemberSlots<'_>, name: NumberName) -> Result<u32, LineCause>
    ensures value { (ms : Members) → Tells kept.now ms
        → result ≡ handle_at (number_text name) (object ms) }
    ensures range { IfOk result (λ h. h ≤ MAX_NAME) }
{
    number(kept, name, 0, MAX_NAME)
}

/// The index of a field, from 0.
pub fn index(kept: &MemberSlots<'_>) -> Result<u32, LineCause>
    ensures value { (ms : Members) → Tells kept.now ms
        → result ≡ number_at (codes "i") 0 MAX_INDEX (object ms) }
    ensures range { IfOk result (λ i. i ≤ MAX_INDEX) }
{
    number(kept, NumberName::Index, 0, MAX_INDEX)
}

/// The number of a handle that may be left out: there is none where the member is missing or null.
pub fn perhaps_handle(kept: &MemberSlots<'_>, name: NumberName) -> Result<Option<u32>, LineCause>
    ensures value { (ms : Members) → Tells kept.now ms
        → result ≡ perhaps_handle_at (number_text name) (object ms) }
    ensures range { IfOk result (λ h. IsTrue (is_perhaps_name h)) }
{
    kept_perhaps(kept, name)
}

fn kept_perhaps(kept: &MemberSlots<'_>, name: NumberName) -> Result<Option<u32>, LineCause>
    ensures value { result ≡ perhaps_told (kept_at kept.now name) }
    ensures range { IfOk result (λ h. IsTrue (is_perhaps_name h)) }
{
    match kept.number(name) {
        KeptNumber::Missing | KeptNumber::Nothing => Ok(None),
        KeptNumber::Natural(n) => {
            let h = in_range(Some(n), 0, MAX_NAME)?;
            Ok(Some(h))
        }
        KeptNumber::Other => Err(LineCause::WrongType),
    }
}

/// The operation that the member `op`, a text, names, if it names one.
pub fn op_name(kept: &MemberSlots<'_>) -> Result<Option<OpName>, LineCause>
    ensures { (ms : Members) → Tells kept.now ms
        → result ≡ named_by (text_at (codes "op") (object ms)) }
{
    kept_name(kept.op)
}

fn kept_name(op: KeptText<'_>) -> Result<Option<OpName>, LineCause>
    ensures { result ≡ named_by (text_told (op_told op.entry)) }
{
    match op {
        KeptText::Missing => Err(LineCause::Missing),
        KeptText::Text(text) => Ok(read_name(text)),
        KeptText::Named(name) => Ok(Some(name)),
        KeptText::Other => Err(LineCause::WrongType),
    }
}
