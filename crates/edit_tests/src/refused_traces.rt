//! The traces and the edits with which each allocation is refused in turn, made in two tries, of which one at most is refused memory.
use std::alloc::Global;
use std::test::Fail;
use trace_types::edits::{Batch, Edit};
use trace_types::kinds::{Field, Kind};
use trace_types::ops::Op;
use trace_types::sequence::Sequence;
use trace_types::trace::Trace;

#[derive(Clone, Copy)]
pub(crate) enum Case {
    NewCyclic,
    LeakAfterEdit,
    TwoSessions,
    Wide,
}

impl Case {
    /// Whether what can be reached at the ends before and after the edits is the same.
    pub(crate) fn do_ends_agree(self) -> bool {
        match self {
            Case::NewCyclic | Case::TwoSessions => false,
            Case::LeakAfterEdit | Case::Wide => true,
        }
    }
}

fn add(trace: &mut Trace, id: u32, kind: Kind) -> Option<()> {
    let op = Op::make(id, 0, kind).ok()?;
    trace.push(op).ok()
}

fn fields(alloc: Global, fields: &[Field]) -> Option<Sequence<Field>> {
    Some(Sequence::from_vec(Vec::from_slice(alloc, fields).ok()?))
}

fn new(alloc: Global, to: u32, elements: &[Field]) -> Option<Kind> {
    let fields = fields(alloc, elements)?;
    Some(Kind::New { to, fields })
}

fn cyclic(alloc: Global, trace: &mut Trace) -> Option<()> {
    let fields = fields(alloc, &[Field::Me])?;
    add(trace, 1, Kind::NewCyclic { to: 0, fields })?;
    add(trace, 2, Kind::Drop { h: 0 })
}

// Two objects that hold each other; operation 8 breaks that cycle.
fn broken_cycle(alloc: Global, trace: &mut Trace) -> Option<()> {
    add(trace, 1, new(alloc, 0, &[Field::Null])?)?;
    add(trace, 2, new(alloc, 1, &[Field::Null])?)?;
    add(trace, 3, Kind::Clone { from: 0, to: 2 })?;
    add(trace, 4, Kind::Clone { from: 1, to: 3 })?;
    add(
        trace,
        5,
        Kind::Set {
            h: 0,
            i: 0,
            from: 3,
        },
    )?;
    add(
        trace,
        6,
        Kind::Set {
            h: 1,
            i: 0,
            from: 2,
        },
    )?;
    add(trace, 7, Kind::Null { to: 4 })?;
    add(
        trace,
        8,
        Kind::Set {
            h: 0,
            i: 0,
            from: 4,
        },
    )?;
    add(trace, 9, Kind::Drop { h: 4 })?;
    add(trace, 10, Kind::Drop { h: 0 })?;
    add(trace, 11, Kind::Drop { h: 1 })
}

// The same, and enough operations for a checkpoint after it.
fn broken_early(alloc: Global, trace: &mut Trace) -> Option<()> {
    broken_cycle(alloc, trace)?;
    for id in 12..76u32 {
        let kind = if id % 2 == 0 {
            new(alloc, 9, &[])?
        } else {
            Kind::Drop { h: 9 }
        };
        add(trace, id, kind)?;
    }
    Some(())
}

// An object of 64 fields, of which a copy is made and dropped.
fn wide(alloc: Global, trace: &mut Trace) -> Option<()> {
    add(trace, 1, new(alloc, 0, &[Field::Null; 64])?)?;
    add(trace, 2, new(alloc, 1, &[])?)?;
    add(
        trace,
        3,
        Kind::Set {
            h: 0,
            i: 63,
            from: 1,
        },
    )?;
    add(trace, 4, Kind::Clone { from: 0, to: 2 })?;
    add(trace, 5, Kind::MakeMut { h: 2 })?;
    add(trace, 6, Kind::Drop { h: 2 })
}

fn made(alloc: Global, case: Case) -> Option<Trace> {
    let mut trace = Trace::new(alloc);
    match case {
        Case::NewCyclic => cyclic(alloc, &mut trace)?,
        Case::LeakAfterEdit => broken_early(alloc, &mut trace)?,
        Case::TwoSessions => add(&mut trace, 1, new(alloc, 0, &[])?)?,
        Case::Wide => wide(alloc, &mut trace)?,
    }
    Some(trace)
}

pub(crate) fn trace(alloc: Global, case: Case) -> Result<Trace, Fail> {
    match made(alloc, case) {
        Some(trace) => Ok(trace),
        None => Ok(made(alloc, case).ok_or("one of two tries goes well")?),
    }
}

fn inserted(batch: &mut Batch, id: u32, kind: Kind) -> Option<()> {
    let op = Op::make(id, 0, kind).ok()?;
    batch.push(Edit::Insert { after: 1, op }).ok()
}

fn edits(alloc: Global, case: Case) -> Option<Batch> {
    let mut batch = Sequence::empty(alloc);
    match case {
        Case::NewCyclic => batch.push(Edit::Remove { id: 2 }).ok()?,
        Case::LeakAfterEdit => batch.push(Edit::Remove { id: 8 }).ok()?,
        Case::Wide => batch.push(Edit::Remove { id: 5 }).ok()?,
        Case::TwoSessions => {
            inserted(&mut batch, 2, Kind::Clone { from: 0, to: 1 })?;
            inserted(&mut batch, 3, Kind::Downgrade { from: 0, to: 2 })?;
        }
    }
    Some(batch)
}

pub(crate) fn batch(alloc: Global, case: Case) -> Result<Batch, Fail> {
    match edits(alloc, case) {
        Some(batch) => Ok(batch),
        None => Ok(edits(alloc, case).ok_or("one of two tries goes well")?),
    }
}
