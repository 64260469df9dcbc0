//! Where the stretches of a trace begin after edits.
ghost use Rattle.std.specs.Prelude.{◌≡◌, ℕ, ◌+◌, ◌≤◌, ◌<◌, ◌++◌, ◌∷◌, [], length, fold, IfOk, OnOk, IfErr, Ok};
ghost use Rattle.trace_types.specs.Trace.{IsTrace};
ghost use Rattle.run_engine.specs.Edited.{edited_by, IsFaultOf};
ghost use Rattle.run_engine.specs.Jobs.{begin_after, begin_by};
ghost use Rattle.run_engine.specs.inner.Shifts.{shifted};

use crate::editing::edits::{edit_one, place_after};
use crate::editing::faults::RunFault;
use crate::editing::listing::Listing;
use std::alloc::{AllocError, Global};
use trace_types::edits::Edit;
use trace_types::limits::{MAX_EDITS, MAX_OPS};

/// What an edit does to the stretches that begin behind a place: they move up by one, or down, or none moves.
#[derive(Clone, Copy, Debug, PartialEq, Eq)]
pub enum Shift {
    Up(usize),
    Down(usize),
    Nowhere,
}

impl Shift {
    /// What an edit of these operations does.
    fn of(ops: &Listing, edit: &Edit) -> Shift
        requires base { IsTrace ops.now.base }
        requires trace { IsTrace ops.now.ops }
        ensures { (begin : ℕ) → shifted begin result ≡ begin_after ops.now.ops edit.now begin }
    {
        match edit {
            Edit::Insert { after, op: _ } => match place_after(ops, *after) {
                Some(place) => Shift::Up(place),
                None => Shift::Nowhere,
            },
            Edit::Remove { id } => match ops.place(*id) {
                Some(place) => Shift::Down(place),
                None => Shift::Nowhere,
            },
            Edit::Change { id: _, op: _ } => Shift::Nowhere,
        }
    }

    /// Where a stretch begins then.
    fn begin(self, begin: usize) -> usize
        requires { begin ≤ MAX_OPS + MAX_EDITS }
        ensures { result ≡ shifted begin self }
    {
        match self {
            Shift::Up(place) => { if place < begin { begin + 1 } else { begin } }
            Shift::Down(place) => { if place < begin { begin - 1 } else { begin } }
            Shift::Nowhere => begin,
        }
    }
}

/// Where a stretch begins after all of these.
pub fn begin_by(shifts: &[Shift], begin: usize) -> usize
    requires within { begin ≤ MAX_OPS }
    requires few { length shifts.now ≤ MAX_EDITS }
    ensures { result ≡ fold shifted begin shifts.now }
{
    let mut at = begin;
    for shift in shifts {
        at = shift.begin(at);
    }
    at
}

/// The operations after the edits, which are carried out in order, and what each did to the stretches.
pub fn edited_shifting<'a>(
    alloc: Global,
    ops: Listing<'a>,
    batch: &'a [Edit],
) -> Result<(Listing<'a>, Vec<Shift>), RunFault>
    requires base { IsTrace ops.base }
    requires trace { IsTrace ops.ops }
    requires some { 0 < length batch.now }
    requires few { length batch.now ≤ MAX_EDITS }
    ensures ok { IfOk result (λ r. edited_by ops.entry.ops batch.now ≡ Ok r.0.ops) }
    ensures fault { IfErr result (IsFaultOf (edited_by ops.entry.ops batch.now)) }
    ensures base { IfOk result (λ r. r.0.base ≡ ops.entry.base) }
    ensures trace { IfOk result (λ r. IsTrace r.0.ops) }
    ensures shifts { IfOk result (λ r. (begin : ℕ) →
        fold shifted begin r.1.items ≡ begin_by 0 ops.entry.ops batch.now begin) }
    ensures few { IfOk result (λ r. length r.1.items ≤ MAX_EDITS) }
{
    let mut ops = ops;
    let mut shifts = Vec::new(alloc);
    for i in 0..batch.len() {
        push_shift(&mut shifts, Shift::of(&ops, &batch[i]))?;
        edit_one(&mut ops, &batch[i], i as u64)?;
    }
    Ok((ops, shifts))
}

// Adds what an edit does.
fn push_shift(shifts: &mut Vec<Shift>, shift: Shift) -> Result<(), AllocError>
    ensures { OnOk result (shifts.new.items ≡ shifts.old.items ++ shift ∷ []) }
{
    shifts.push(shift)?;
    Ok(())
}
