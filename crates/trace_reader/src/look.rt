//! What is seen of a value.
ghost use Rattle.std.specs.Prelude.{◌≡◌};
ghost use Rattle.trace_reader.specs.Looks.{told, field_told};

use crate::fault::LineCause;
use trace_types::kinds::Field;
use trace_types::limits::MAX_NAME;

/// A value, as far as a member of an operation or an element of `fields` may be it.
#[derive(Clone, Copy, Debug)]
pub enum Seen<'a> {
    /// null
    Nothing,
    /// a natural number of 64 bits
    Natural(u64),
    Text(&'a str),
    /// another value
    Other,
}

/// The field that an element of `new_cyclic` is: a handle's number, null or `me`.
pub fn field(seen: Seen<'_>) -> Result<Field, LineCause>
    ensures { result ≡ field_told (told seen.entry) }
{
    match seen {
        Seen::Nothing => Ok(Field::Null),
        Seen::Natural(n) => if n <= MAX_NAME as u64 {
            Ok(Field::Held(n as u32))
        } else {
            Err(LineCause::OutOfRange)
        },
        Seen::Text(text) => if text == "me" {
            Ok(Field::Me)
        } else {
            Err(LineCause::WrongType)
        },
        Seen::Other => Err(LineCause::WrongType),
    }
}
