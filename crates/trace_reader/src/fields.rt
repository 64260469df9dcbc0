//! The fields of a new object.
ghost use Rattle.std.specs.Prelude.{◌≡◌, ◌≤◌, [], length, IfOk, IsTrue};
ghost use Rattle.std.specs.List.{list_all};
ghost use Rattle.serde_json.specs.Data.{Members, object};
ghost use Rattle.trace_reader.specs.Members.{Gives, fields_at, field_test};
ghost use Rattle.trace_reader.specs.Looks.{elements_told, Tells, fields_told, few_told, fields_of, plain};

use crate::fault::LineCause;
use crate::member_slots::{KeptElements, MemberSlots};
use std::alloc::Global;
use trace_types::kinds::Field;
use trace_types::limits::{MAX_FIELDS, MAX_NAME};
use trace_types::sequence::Sequence;

/// The member `fields`: at most `MAX_FIELDS` elements, each a handle's number, null, or where `cyclic` the text `me`.
pub fn fields(
    alloc: Global,
    kept: &MemberSlots<'_>,
    cyclic: bool,
) -> Result<Sequence<Field>, LineCause>
    ensures value { (ms : Members) → Tells kept.now ms
        → Gives result (fields_at cyclic (object ms)) }
    ensures length { IfOk result (λ fields. length fields ≤ MAX_FIELDS) }
    ensures within { IfOk result (λ fields. IsTrue (list_all (field_test cyclic) fields)) }
{
    kept_fields(alloc, &kept.fields, cyclic)
}

fn kept_fields(
    alloc: Global,
    fields: &KeptElements,
    cyclic: bool,
) -> Result<Sequence<Field>, LineCause>
    ensures value { Gives result (fields_told cyclic (elements_told fields.now)) }
    ensures length { IfOk result (λ fields. length fields ≤ MAX_FIELDS) }
    ensures within { IfOk result (λ fields. IsTrue (list_all (field_test cyclic) fields)) }
{
    match fields {
        KeptElements::Listed(elements) => few_elements(alloc, elements.as_slice(), cyclic),
        KeptElements::Other => Err(LineCause::WrongType),
        KeptElements::Missing => Err(LineCause::Missing),
    }
}

// The length is tried before the elements.
fn few_elements(
    alloc: Global,
    elements: &[Result<Field, LineCause>],
    cyclic: bool,
) -> Result<Sequence<Field>, LineCause>
    ensures value { Gives result (few_told cyclic elements.now) }
    ensures length { IfOk result (λ fields. length fields ≤ MAX_FIELDS) }
    ensures within { IfOk result (λ fields. IsTrue (list_all (field_test cyclic) fields)) }
{
    if elements.len() > MAX_FIELDS {
        return Err(LineCause::OutOfRange);
    }
    all_elements(alloc, elements, cyclic)
}

fn all_elements(
    alloc: Global,
    elements: &[Result<Field, LineCause>],
    cyclic: bool,
) -> Result<Sequence<Field>, LineCause>
    ensures value { Gives result (fields_of cyclic [] elements.now) }
    ensures length { IfOk result (λ fields. length fields ≡ length elements.now) }
    ensures within { IfOk result (λ fields. IsTrue (list_all (field_test cyclic) fields)) }
{
    // A list that grew by itself would have room for four.
    let mut fields = Sequence::from_vec(Vec::with_capacity(alloc, elements.len())?);
    for element in elements {
        let field = element_of(*element, cyclic)?;
        fields.push(field)?;
    }
    Ok(fields)
}

// An element, which was read as one of `new_cyclic`, as the operation takes it: `new` takes no `me`.
fn element_of(element: Result<Field, LineCause>, cyclic: bool) -> Result<Field, LineCause>
    ensures value { result ≡ plain cyclic element }
    ensures within { IfOk result (λ field. IsTrue (field_test cyclic field)) }
{
    match element {
        Ok(Field::Held(h)) => if h <= MAX_NAME {
            Ok(Field::Held(h))
        } else {
            Err(LineCause::OutOfRange)
        },
        Ok(Field::Null) => Ok(Field::Null),
        Ok(Field::Me) => if cyclic {
            Ok(Field::Me)
        } else {
            Err(LineCause::WrongType)
        },
        Err(cause) => Err(cause),
    }
}
