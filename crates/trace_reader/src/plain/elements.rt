//! The elements of an array.
ghost use Rattle.std.specs.Prelude.{IfOk, IfSome};
ghost use Rattle.trace_reader.specs.Plain.{AreElements};

use crate::fault::LineCause;
use crate::look::field;
use crate::plain::scalars::scalar;
use crate::plain::texts::after_spaces;
use std::alloc::{AllocError, Global};
use trace_types::kinds::Field;

/// The elements of an array of which the opening bracket was read, and what comes after the closing one.
pub fn elements(
    alloc: Global,
    text: &[u8],
) -> Result<Option<(Vec<Result<Field, LineCause>>, &[u8])>, AllocError>
    ensures { IfOk result (λ read. IfSome read
        (λ found. AreElements text.now found.0.items found.1.now)) }
{
    let mut found = Vec::new(alloc);
    let mut rest = after_spaces(text);
    if let [b']', after @ ..] = rest {
        return Ok(Some((found, after)));
    }
    'elements: loop {
        let Some((seen, after)) = scalar(rest) else {
            return Ok(None);
        };
        found.push(field(seen))?;
        match after_spaces(after) {
            [b',', next @ ..] => rest = after_spaces(next),
            [b']', next @ ..] => return Ok(Some((found, next))),
            _ => return Ok(None),
        }
    }
}
