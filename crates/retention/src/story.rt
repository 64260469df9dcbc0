//! The replay of a trace that keeps since when each slot stands in its place, and what that did to objects.
ghost use Rattle.std.specs.Prelude.{◌≡◌, ◌++◌, ◌∷◌, [], ℕ, None, true, length, IfOk, OnOk};
ghost use Rattle.std.specs.FinMap.{get};
ghost use Rattle.ownership_model.specs.State.{nothing_held};
ghost use Rattle.ownership_model.specs.Step.{step, AreNew, outcomes_from, end_from};
ghost use Rattle.retention_model.specs.Since.{since_from};
ghost use Rattle.retention_model.specs.Turns.{AreMoves, AreMarked};
ghost use Rattle.leak_report.specs.Lives.{made_in, events_of};
ghost use Rattle.retention_model.specs.declared.place.Place.{Place};
ghost use Rattle.retention.specs.Dates.{Tell, dated_at};
ghost use Rattle.retention.specs.Losses.{AreLosses};
ghost use Rattle.retention.specs.Stories.{GoesOn, IsNoted, MovesTo};

use crate::dates::Dates;
use crate::moves::{Loss, push_events, push_losses, push_marks, sort_moved};
use leak_report::is_making;
use object_heap::Heap;
use op_step::{Meter, plan, step_in_place};
use retention_model::{Marked, Moved};
use std::alloc::{AllocError, Global};
use trace_types::ops::Op;
use trace_types::outcomes::{Event, Outcome};

/// What a replay leaves: the objects that it made and all events, each with the number of its operation; the heap at the end, since when
/// each place holds what it does, which strong slots were lost on the way, and, where they are wanted, the marks of all objects.
///
/// It keeps no outcomes: what lives need of them are the objects made and the events.
#[derive(Drop)]
pub struct Story {
    pub made: Vec<u32>,
    pub events: Vec<(u32, Event)>,
    pub end: Heap,
    pub dates: Dates,
    pub losses: Vec<Loss>,
    pub marked: Vec<Marked>,
}

/// Replays the operations of a trace, of a program that holds nothing as it begins. Marks are kept only where they are wanted.
pub fn tell(alloc: Global, ops: &[Op], with_marks: bool) -> Result<Story, AllocError>
    requires { AreNew nothing_held ops.now }
    ensures made { IfOk result (λ s. s.made.items ≡ made_in (outcomes_from nothing_held ops.now)) }
    ensures events { IfOk result
        (λ s. s.events.items ≡ events_of (outcomes_from nothing_held ops.now)) }
    ensures end { IfOk result (λ s. s.end ≡ end_from nothing_held ops.now) }
    ensures dates { IfOk result
        (λ s. Tell s.dates s.end (λ p. since_from nothing_held ops.now p 0)) }
    ensures losses { IfOk result (λ s. AreLosses nothing_held ops.now s.losses.items) }
    ensures marked { IfOk result
        (λ s. with_marks ≡ true → AreMarked nothing_held ops.now s.marked.items) }
{
    let mut story = Story::begin(alloc);
    let mut moved = Vec::new(alloc);
    for position in 0..ops.len() {
        story.go_on(alloc, &ops[position], position, with_marks, &mut moved)?;
    }
    Ok(story)
}

impl Story {
    // Nothing was carried out. Takes no memory.
    fn begin(alloc: Global) -> Story
        ensures made { result.made.items ≡ [] }
        ensures events { result.events.items ≡ [] }
        ensures end { result.end ≡ nothing_held }
        ensures dates { (p : Place) → dated_at result.dates p ≡ None }
        ensures losses { result.losses.items ≡ [] }
        ensures marked { result.marked.items ≡ [] }
    {
        Story {
            made: Vec::new(alloc),
            events: Vec::new(alloc),
            end: Heap::empty(),
            dates: Dates::new(alloc),
            losses: Vec::new(alloc),
            marked: Vec::new(alloc),
        }
    }

    // Carries out the operation at a position. What it moves is put in place of what stands in the list that is lent.
    fn go_on(
        &mut self,
        alloc: Global,
        op: &Op,
        position: usize,
        with_marks: bool,
        moved: &mut Vec<Moved>,
    ) -> Result<(), AllocError>
        requires { get self.old.end.objects op.now.id ≡ None }
        ensures { OnOk result (GoesOn op.now position with_marks self.old self.new) }
    {
        let outcome = self.carry_out(alloc, op, moved)?;
        self.note(op.id(), position, &outcome, with_marks, moved.as_slice())?;
        Ok(())
    }

    // Carries out an operation on the heap and the dates.
    fn carry_out(
        &mut self,
        alloc: Global,
        op: &Op,
        moved: &mut Vec<Moved>,
    ) -> Result<Outcome, AllocError>
        requires { get self.old.end.objects op.now.id ≡ None }
        ensures outcome { IfOk result (λ x. x ≡ (step self.old.end op.now).outcome) }
        ensures moves { OnOk result
            (MovesTo op.now self.old.end self.old.dates
            self.new.end self.new.dates moved.new.items) }
        ensures made { self.new.made.items ≡ self.old.made.items }
        ensures events { self.new.events.items ≡ self.old.events.items }
        ensures losses { self.new.losses.items ≡ self.old.losses.items }
        ensures marked { self.new.marked.items ≡ self.old.marked.items }
    {
        let plan = plan(alloc, &self.end, op)?;
        let outcome = step_in_place(alloc, &mut self.end, op, &mut Meter::new())?;
        moved.clear();
        self.dates.follow(&self.end, &plan, outcome.events.as_slice(), op.id(), moved)?;
        sort_moved(moved)?;
        Ok(outcome)
    }

    // Notes what the operation with this number, at this position, did.
    fn note(
        &mut self,
        id: u32,
        position: usize,
        outcome: &Outcome,
        with_marks: bool,
        moved: &[Moved],
    ) -> Result<(), AllocError>
        ensures { OnOk result
            (IsNoted id position outcome.now with_marks moved.now self.old self.new) }
    {
        let events = outcome.events.as_slice();
        push_losses(&mut self.losses, moved, id)?;
        if with_marks {
            push_marks(&mut self.marked, &self.end, position, moved, events)?;
        }
        if is_making(outcome.verdict) {
            self.made.push(outcome.id)?;
        }
        push_events(&mut self.events, outcome.id, events)
    }
}
