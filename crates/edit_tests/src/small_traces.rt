//! Small traces of known operations, and edits of them.
use std::alloc::Global;
use std::test::Fail;
use trace_types::edits::{Batch, Edit};
use trace_types::kinds::{Field, Kind};
use trace_types::ops::Op;
use trace_types::sequence::Sequence;
use trace_types::trace::Trace;

pub fn op(id: u32, kind: Kind) -> Result<Op, Fail> {
    op_of(id, 0, kind)
}

pub fn op_of(id: u32, thread: u32, kind: Kind) -> Result<Op, Fail> {
    Ok(Op::make(id, thread, kind)?)
}

pub fn add(trace: &mut Trace, id: u32, kind: Kind) -> Result<(), Fail> {
    add_of(trace, id, 0, kind)
}

pub fn add_of(trace: &mut Trace, id: u32, thread: u32, kind: Kind) -> Result<(), Fail> {
    let op = op_of(id, thread, kind)?;
    Ok(trace.push(op)?)
}

pub fn new(alloc: Global, to: u32, fields: &[Field]) -> Result<Kind, Fail> {
    Ok(Kind::New {
        to,
        fields: Sequence::from_vec(Vec::from_slice(alloc, fields)?),
    })
}

// A handle goes into the first field of another one's object.
pub fn set(h: u32, from: u32) -> Kind {
    Kind::Set { h, i: 0, from }
}

pub fn batch(alloc: Global, first: Edit) -> Result<Batch, Fail> {
    let mut batch = Sequence::empty(alloc);
    batch.push(first)?;
    Ok(batch)
}

pub fn two(alloc: Global, first: Edit, second: Edit) -> Result<Batch, Fail> {
    let mut edits = batch(alloc, first)?;
    edits.push(second)?;
    Ok(edits)
}

// An operation of this number comes behind another one.
pub fn insertion(after: u32, id: u32, kind: Kind) -> Result<Edit, Fail> {
    let op = op(id, kind)?;
    Ok(Edit::Insert { after, op })
}

// The operation of this number does this in place of what it did.
pub fn change(id: u32, kind: Kind) -> Result<Edit, Fail> {
    let op = op(id, kind)?;
    Ok(Edit::Change { id, op })
}

// Operations that make an object and drop it again, by turns.
pub fn add_pairs(alloc: Global, trace: &mut Trace, from: u32, to: u32) -> Result<(), Fail> {
    let mut makes = true;
    for id in from..=to {
        if makes {
            add(trace, id, new(alloc, 9, &[])?)?;
        } else {
            add(trace, id, Kind::Drop { h: 9 })?;
        }
        makes = !makes;
    }
    Ok(())
}

// Two objects that hold each other, by the handles 0 and 1.
pub fn add_cycle(alloc: Global, trace: &mut Trace) -> Result<(), Fail> {
    add(trace, 1, new(alloc, 0, &[Field::Null])?)?;
    add(trace, 2, new(alloc, 1, &[Field::Null])?)?;
    add(trace, 3, Kind::Clone { from: 0, to: 2 })?;
    add(trace, 4, Kind::Clone { from: 1, to: 3 })?;
    add(trace, 5, set(0, 3))?;
    add(trace, 6, set(1, 2))
}

// The cycle is broken by a null pointer that operation 7 makes, and then both handles are dropped.
fn break_cycle(trace: &mut Trace, null: u32) -> Result<(), Fail> {
    add(trace, 7, Kind::Null { to: null })?;
    add(trace, 8, set(0, 4))?;
    add(trace, 9, Kind::Drop { h: 4 })?;
    add(trace, 10, Kind::Drop { h: 0 })?;
    add(trace, 11, Kind::Drop { h: 1 })
}

// A cycle that is broken before both handles are dropped, and a thousand operations behind that.
pub fn broken_cycle(alloc: Global) -> Result<Trace, Fail> {
    cycle_and_pairs(alloc, 4)
}

// The same, but that operation 7 makes its null pointer elsewhere: the cycle isn't broken, and leaks.
pub fn whole_cycle(alloc: Global) -> Result<Trace, Fail> {
    cycle_and_pairs(alloc, 50)
}

// Such a trace, in which operation 7 makes a null pointer with this number.
fn cycle_and_pairs(alloc: Global, null: u32) -> Result<Trace, Fail> {
    let mut trace = Trace::new(alloc);
    add_cycle(alloc, &mut trace)?;
    break_cycle(&mut trace, null)?;
    add_pairs(alloc, &mut trace, 12, 1011)?;
    Ok(trace)
}
