//! What leaks.

use crate::lines::{Field, Lines, Plan};
use crate::names::Op;
use crate::writer::{LABELS, Writer};
use std::alloc::{AllocError, Global};

// The label of what lasts: the hub, and each forgotten Weak. No other operation has it, and no edit gives it.
const LASTING: u32 = LABELS;

/// Rings that leak, each holding an object that others hold too, and husks that a forgotten Weak keeps. Each is made in a scope that
/// ends.
pub fn leaks(alloc: Global, plan: Plan) -> Result<Lines, AllocError> {
    let mut writer = Writer::new(alloc, plan)?;
    let mut forgotten = 100;
    writer.make(0, &[])?;
    for _ in 0..plan.operations {
        if writer.left() < 12 {
            break;
        }
        writer.label = LASTING;
        match writer.random.below(32) {
            0 => next_hub(&mut writer)?,
            1..=4 => {
                husk(&mut writer, forgotten)?;
                forgotten = forgotten.wrapping_add(1);
            }
            _ => ring(&mut writer)?,
        }
    }
    writer.label = LASTING;
    writer.on(Op::Drop, 0)?;
    Ok(writer.lines)
}

// The hub is the object that the next rings hold.
fn next_hub(writer: &mut Writer) -> Result<(), AllocError> {
    writer.on(Op::Drop, 0)?;
    writer.make(0, &[Field::Null])
}

// An object whose value goes, and whose allocation stays.
fn husk(writer: &mut Writer, forgotten: u32) -> Result<(), AllocError> {
    writer.switch();
    writer.make(1, &[])?;
    let scope = writer.label;
    writer.label = LASTING;
    writer.from(Op::Downgrade, 1, forgotten)?;
    writer.label = scope;
    writer.scope_end()
}

// Each object of a ring but the first holds the one before and the hub, and the first one the last one.
fn ring(writer: &mut Writer) -> Result<(), AllocError> {
    writer.switch();
    let mut last = 4;
    writer.make(last, &[Field::Null])?;
    writer.from(Op::Clone, last, 2)?;
    for _ in 0..writer.random.below(4) {
        writer.from(Op::Clone, 0, 3)?;
        let fields = [writer.field(last), writer.field(3)];
        last ^= 1;
        writer.make(last, &fields)?;
    }
    writer.set(2, 0, last)?;
    writer.scope_end()
}
