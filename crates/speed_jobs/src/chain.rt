//! A long chain and its end.

use crate::lines::{Lines, Plan};
use crate::names::Op;
use crate::writer::Writer;
use std::alloc::{AllocError, Global};

/// Objects that each hold the one before. The drop at the end destroys them all, one in the other.
pub fn chain(alloc: Global, plan: Plan) -> Result<Lines, AllocError> {
    let mut writer = Writer::new(alloc, plan)?;
    writer.make(0, &[])?;
    let mut last = 0;
    for _ in 2..plan.operations {
        writer.switch();
        // Now and then the newest object's counts are asked.
        if writer.random.below(32) == 0 {
            writer.on(Op::Counts, last)?;
        } else {
            let before = writer.field(last);
            last ^= 1;
            writer.make(last, &[before])?;
        }
    }
    writer.on(Op::Drop, last)?;
    Ok(writer.lines)
}
