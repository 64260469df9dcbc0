//! The members of a JSON value that was read before: those of a request, and what is kept of those of an operation in it.
ghost use Rattle.std.specs.Prelude.{◌≡◌, ◌≤◌, true, Some, Ok, Err, IfOk, OnOk, MatchResult};
ghost use Rattle.serde_json.specs.Data.{Members, put};
ghost use Rattle.serde_json.specs.View.{view, items_view, members_view};
ghost use Rattle.trace_reader.specs.Members.{field_of, number_at, text_at};
ghost use Rattle.trace_reader.specs.Looks.{told, look_of, elements_of, listed, elements_told, field_told, Tells};

use crate::fault::LineCause;
use crate::look::{Seen, field};
use crate::member_slots::{KeptElements, MemberSlots};
use crate::members::in_range;
use crate::names::{MemberName, member_name};
use serde_json::{Map, Value};
use std::alloc::{AllocError, Global};
use trace_types::kinds::Field;

/// The member of that name, a number from `low` to `high`.
#[tactic(auto, unfolding(crate::specs::Members::number_at))]
pub fn number(value: &Value, name: &str, low: u32, high: u32) -> Result<u32, LineCause>
    ensures value { result ≡ number_at name.now low high (view value.now) }
    ensures range { IfOk result (λ n. (low ≤ n) × (n ≤ high)) }
{
    let Some(member) = value.get(name) else {
        return Err(LineCause::Missing);
    };
    in_range(member.as_u64(), low, high)
}

/// The member of that name, a text.
#[tactic(auto, unfolding(crate::specs::Members::text_at))]
pub fn text<'a>(value: &'a Value, name: &str) -> Result<&'a str, LineCause>
    ensures { MatchResult result (λ text. text_at name.now (view value.now) ≡ Ok text.now)
        (λ cause. text_at name.now (view value.now) ≡ Err cause) }
{
    let Some(member) = value.get(name) else {
        return Err(LineCause::Missing);
    };
    let Some(text) = member.as_str() else {
        return Err(LineCause::WrongType);
    };
    Ok(text)
}

/// The members of an object, as far as an operation asks of them.
pub fn value_members<'a>(
    alloc: Global,
    members: &'a Map<String, Value>,
) -> Result<MemberSlots<'a>, AllocError>
    ensures { IfOk result (λ kept. Tells kept (members_view members.now.entries)) }
{
    let mut kept = MemberSlots::none();
    for (text, value) in members.iter() {
        keep(alloc, text.as_str(), value, &mut kept)?;
    }
    Ok(kept)
}

// Keeps a member, if an operation may ask for its name.
fn keep<'a>(
    alloc: Global,
    text: &str,
    value: &'a Value,
    kept: &mut MemberSlots<'a>,
) -> Result<(), AllocError>
    ensures { OnOk result ((ms : Members) → Tells kept.old ms
        → Tells kept.new (put text.now (view value.now) ms)) }
{
    match member_name(text) {
        Some(MemberName::Number(name)) => kept.keep_number(name, glance(value)),
        Some(MemberName::Op) => kept.keep_op(glance(value)),
        Some(MemberName::Fields) => kept.keep_fields(fields_of(alloc, value)?),
        None => {}
    }
    Ok(())
}

// What is kept of the member `fields`.
fn fields_of(alloc: Global, value: &Value) -> Result<KeptElements, AllocError>
    ensures { IfOk result (λ elements. elements_told elements ≡ Some (listed (view value.now))) }
{
    match value.as_array() {
        Some(items) => Ok(KeptElements::Listed(elements(alloc, items.as_slice())?)),
        None => Ok(KeptElements::Other),
    }
}

fn elements(alloc: Global, items: &[Value]) -> Result<Vec<Result<Field, LineCause>>, AllocError>
    ensures { IfOk result (λ found. elements_of (items_view items.now) ≡ found.items) }
{
    let mut found = Vec::new(alloc);
    for item in items {
        found.push(field(glance(item)))?;
    }
    Ok(found)
}

// What a value is seen as.
fn glance<'a>(value: &'a Value) -> Seen<'a>
    ensures value { told result ≡ look_of (view value.now) }
    ensures field { field_told (told result) ≡ field_of true (view value.now) }
{
    match value {
        Value::Null => Seen::Nothing,
        Value::Number(number) => match number.as_u64() {
            Some(n) => Seen::Natural(n),
            None => Seen::Other,
        },
        Value::String(text) => Seen::Text(text.as_str()),
        Value::Bool(_) | Value::Array(_) | Value::Object(_) => Seen::Other,
    }
}
