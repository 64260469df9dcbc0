//! Cells that threads share.

use crate::lines::{Lines, Plan};
use crate::names::Op;
use crate::writer::Writer;
use std::alloc::{AllocError, Global};

const CELLS: u32 = 32;

/// Loads, swaps and exchanges of 32 cells.
pub fn cells(alloc: Global, plan: Plan) -> Result<Lines, AllocError> {
    let mut writer = Writer::new(alloc, plan)?;
    for c in 0..CELLS {
        writer.null(0)?;
        writer.cell_new(c, 0)?;
    }
    for _ in 0..plan.operations {
        if writer.left() < 5 {
            break;
        }
        use_cell(&mut writer)?;
    }
    Ok(writer.lines)
}

fn use_cell(writer: &mut Writer) -> Result<(), AllocError> {
    writer.switch();
    let c = writer.random.below(CELLS);
    match writer.random.below(4) {
        0 => store(writer, c),
        1 => load(writer, c),
        2 => exchange(writer, c),
        _ => try_and_swap(writer, c),
    }
}

fn store(writer: &mut Writer, c: u32) -> Result<(), AllocError> {
    writer.make(1, &[])?;
    writer.cell_store(c, 1)
}

fn load(writer: &mut Writer, c: u32) -> Result<(), AllocError> {
    writer.cell_load(c, 1)?;
    writer.on(Op::Drop, 1)
}

// What was loaded is expected, so the exchange is made.
fn exchange(writer: &mut Writer, c: u32) -> Result<(), AllocError> {
    writer.cell_load(c, 1)?;
    writer.make(2, &[])?;
    writer.cell_cas(c, 1, 2)?;
    writer.on(Op::Drop, 1)
}

// A null pointer is expected, so the exchange is mostly not made.
fn try_and_swap(writer: &mut Writer, c: u32) -> Result<(), AllocError> {
    writer.null(1)?;
    writer.cell_load(c, 2)?;
    writer.cell_cas(c, 1, 2)?;
    writer.cell_swap(c, 1, 3)?;
    writer.on(Op::Drop, 3)
}
