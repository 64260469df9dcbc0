//! One operation carried out on plain lists.
ghost use Rattle.std.specs.Prelude.{◌≡◌, [], None, IfOk, OnOk, option_to_list};
ghost use Rattle.std.specs.FinMap as map;
ghost use Rattle.ownership_model.specs.State.{IsSound};
ghost use Rattle.ownership_model.specs.Bounds.{IsBounded, PlanFits};
ghost use Rattle.ownership_model.specs.Carry.{IsCarriable};
ghost use Rattle.ownership_model.specs.Step.{step, carried_out};
ghost use Rattle.ownership_model.specs.Step as Step;
ghost use Rattle.ownership_model.specs.Plain.{state_of};

use crate::plain::rows::plan_of;
use crate::plain::state::PlainState;
use crate::plan::Plan;
use std::alloc::{AllocError, Global};
use trace_types::ops::Op;
use trace_types::outcomes::{Counts, Event, Outcome, Verdict};
use trace_types::sequence::Sequence;
use trace_types::slots::Slot;

impl PlainState {
    /// Carries out one operation, whose number no object has, and tells what it did.
    ///
    /// Where memory runs out the state is unspecified: let it go.
    pub(crate) fn step(&mut self, alloc: Global, op: &Op) -> Result<Outcome, AllocError>
        requires sound { IsSound (state_of self.old) [] }
        requires bounded { IsBounded (state_of self.old) }
        requires is_new { map.get self.old.objects op.now.id ≡ None }
        ensures state { OnOk result (state_of self.new ≡ (step (state_of self.old) op.now).state) }
        ensures outcome { IfOk result
            (λ outcome. outcome ≡ (step (state_of self.old) op.now).outcome) }
        ensures sound { OnOk result (IsSound (state_of self.new) []) }
        ensures bounded { OnOk result (IsBounded (state_of self.new)) }
    {
        let plan = plan_of(alloc, self, op)?;
        self.carry_out(alloc, op.id(), plan)
    }

    fn carry_out(&mut self, alloc: Global, id: u32, plan: Plan) -> Result<Outcome, AllocError>
        requires carriable { IsCarriable (state_of self.old) plan }
        requires bounded { IsBounded (state_of self.old) }
        requires fits { PlanFits plan }
        ensures state { OnOk result
            (state_of self.new ≡ (carried_out (state_of self.old) id plan).state) }
        ensures outcome { IfOk result
            (λ outcome. outcome ≡ (carried_out (state_of self.old) id plan).outcome) }
    {
        match plan {
            Plan::Skip(reason) => Ok(Outcome {
                id,
                verdict: Verdict::Skipped(reason),
                events: Sequence::empty(alloc),
                counts: None,
            }),
            Plan::Act {
                answer,
                changes,
                event,
                pending,
                object,
            } => {
                self.apply(changes.as_slice())?;
                let released = self.release(alloc, pending.as_slice())?;
                let mut events = named_event(alloc, event)?;
                events.extend_from_slice(&released)?;
                Ok(Outcome {
                    id,
                    verdict: Verdict::Did(answer),
                    events: Sequence::from_vec(events),
                    counts: self.counts_of(object),
                })
            }
        }
    }

    fn counts_of(&self, object: Option<u32>) -> Option<Counts>
        requires { IsBounded (state_of self.now) }
        ensures { result ≡ Step.counts_of (state_of self.now) object }
    {
        match object {
            None => None,
            Some(object) => Some(Counts {
                object,
                strong: self.count(Slot::Strong(object), &[]),
                weak: self.count(Slot::Weak(object), &[]),
            }),
        }
    }
}

fn named_event(alloc: Global, event: Option<Event>) -> Result<Vec<Event>, AllocError>
    ensures { IfOk result (λ v. v.items ≡ option_to_list event) }
{
    match event {
        None => Ok(Vec::new(alloc)),
        Some(event) => Ok(vec![in alloc; event]?),
    }
}
