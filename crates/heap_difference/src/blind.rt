//! Whether operations read of some objects only what is the same in two heaps.
ghost use Rattle.std.specs.Prelude.{◌≡◌, ◌↔◌, IsTrue, length};
ghost use Rattle.std.specs.List.{list_any};
ghost use Rattle.ownership_model.specs.Near.{asks_counts, field_index};
ghost use Rattle.heap_difference.specs.Alikes.{is_loose};
ghost use Rattle.heap_difference.specs.Blind.{is_cloned, names_alike_event, is_blind_to, is_blind, are_blind, is_field_blind, are_small};

use crate::alikes::{Alikes, has_field};
use crate::naming::object_of;
use crate::shifts::is_shifted;
use object_heap::FieldPut;
use trace_types::kinds::Kind;
use trace_types::ops::Op;
use trace_types::outcomes::{Answer, Counts, Event, Outcome, Verdict};

/// Where a count that is told is no less than this, its operation isn't passed.
const MOST_TOLD: u64 = 0x4000_0000_0000_0000;

impl Alikes {
    /// Whether operations with these outcomes read of these objects only what is the same in both heaps, as long as these stay alive: no event
    /// names one, no count of one decides, none is copied, and no field that differs is read or set.
    pub fn are_blind(&self, ops: &[Op], outcomes: &[Outcome]) -> bool
        ensures { result ≡ are_blind self.now.shifts.items self.now.fields.items ops.now
            outcomes.now }
    {
        for (op, outcome) in ops.iter().zip(outcomes) {
            if !self.is_blind(op, outcome) {
                return false;
            }
        }
        true
    }

    #[inline(always)]
    fn is_blind(&self, op: &Op, outcome: &Outcome) -> bool
        ensures { result ≡ is_blind self.now.shifts.items self.now.fields.items op.now outcome.now }
    {
        !self.are_named(outcome.events.as_slice())
            && !is_cloned(op.kind(), outcome.verdict)
            && self.is_blind_to(op.kind(), outcome.counts)
    }

    #[inline(always)]
    fn are_named(&self, events: &[Event]) -> bool
        ensures { result ≡ list_any (names_alike_event self.now.shifts.items) events.now }
    {
        for event in events {
            if is_shifted(&self.shifts, object_of(*event)) {
                return true;
            }
        }
        false
    }

    // Whether an operation of this kind, which tells these counts, reads none of their object if it is one of these, and no field that differs.
    #[inline(always)]
    fn is_blind_to(&self, kind: &Kind, counts: Option<Counts>) -> bool
        ensures { result ≡ is_blind_to self.now.shifts.items self.now.fields.items kind.now counts }
    {
        let Some(told) = counts else {
            return true;
        };
        if !is_shifted(&self.shifts, told.object) {
            return true;
        }
        are_small(told)
            && !asks_counts(kind)
            && is_field_blind(&self.fields, told.object, field_index(kind))
    }
}

// Whether counts may be told with others added to them. No count is as great as this, but here that isn't known.
#[inline(always)]
fn are_small(told: Counts) -> bool
    ensures { result ≡ are_small told }
{
    told.strong < MOST_TOLD && told.weak < MOST_TOLD
}

// Whether the operation copied the fields of its object: which one isn't told.
#[inline(always)]
fn is_cloned(kind: &Kind, verdict: Verdict) -> bool
    ensures { result ≡ is_cloned kind.now verdict }
{
    match kind {
        Kind::MakeMut { .. } => verdict == Verdict::Did(Answer::Cloned),
        _ => false,
    }
}

// Whether the method decides by the counts of its object.
#[inline(always)]
fn asks_counts(kind: &Kind) -> bool
    ensures { result ≡ asks_counts kind.now }
{
    match kind {
        Kind::TryUnwrap { .. }
        | Kind::IntoInner { .. }
        | Kind::GetMut { .. }
        | Kind::MakeMut { .. } => true,
        _ => false,
    }
}

// The field of its object that the method reads or sets.
#[inline(always)]
fn field_index(kind: &Kind) -> Option<u32>
    ensures { result ≡ field_index kind.now }
{
    match kind {
        Kind::Set { i, .. } | Kind::Take { i, .. } | Kind::Get { i, .. } => Some(*i),
        _ => None,
    }
}

// Whether the field, if there is one, is none of these.
#[inline(always)]
fn is_field_blind(fields: &[FieldPut], object: u32, index: Option<u32>) -> bool
    ensures { result ≡ is_field_blind fields.now object index }
{
    let Some(index) = index else {
        return true;
    };
    !has_field(fields, object, index)
}
