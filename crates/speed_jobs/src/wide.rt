//! Objects with as many fields as there may be.

use crate::lines::{Field, Lines, Plan};
use crate::names::Op;
use crate::writer::Writer;
use std::alloc::{AllocError, Global};

const FIELDS: u32 = 64;

const COPIES: u32 = 4;
// How many operations an object takes, at the most.
const OPERATIONS: u32 = FIELDS + 2 + 7 * COPIES;

/// Objects of 64 fields, which are copied, changed and dropped.
pub fn wide(alloc: Global, plan: Plan) -> Result<Lines, AllocError> {
    let mut writer = Writer::new(alloc, plan)?;
    for _ in 0..plan.operations / OPERATIONS {
        wide_object(&mut writer)?;
    }
    Ok(writer.lines)
}

fn wide_object(writer: &mut Writer) -> Result<(), AllocError> {
    writer.switch();
    let mut fields = [Field::Null; 64];
    writer.make(1, &[])?;
    for handle in 2..FIELDS + 1 {
        writer.from(Op::Clone, 1, handle)?;
    }
    let mut handle = 1;
    for field in &mut fields {
        *field = writer.field(handle);
        handle = handle.wrapping_add(1);
    }
    writer.make(0, &fields)?;
    for _ in 0..COPIES {
        change_copy(writer)?;
    }
    writer.on(Op::Drop, 0)
}

// The object is copied, a field goes from the copy into the object, and the copy is dropped.
fn change_copy(writer: &mut Writer) -> Result<(), AllocError> {
    writer.switch();
    let first = writer.random.below(FIELDS);
    let second = writer.random.below(FIELDS);
    writer.from(Op::Clone, 0, 1)?;
    writer.on(Op::MakeMut, 1)?;
    writer.read(Op::Get, 1, first, 2)?;
    writer.set(0, second, 2)?;
    writer.read(Op::Take, 1, second, 3)?;
    writer.on(Op::Drop, 3)?;
    writer.on(Op::Drop, 1)
}
