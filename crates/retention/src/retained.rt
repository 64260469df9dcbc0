//! What an object retains.
ghost use Rattle.std.specs.Prelude.{◌≡◌, ◌≢◌, ◌+◌, ◌<◌, ◌≤◌, ◌^◌, ℕ, List, [], length, slice_index, IfOk, OnOk};
ghost use Rattle.retention.specs.Graph.{size, places, start_at, holds};
ghost use Rattle.retention.specs.Retaining.{AreRetained};
ghost use Rattle.retention.specs.RetainingSteps.{times, positives, IsReady, IsPlaceCounted, IsPass, IsPlacePassed, IsPassing, IsRetaining};

use crate::filled::zeros;
use crate::graph::Graph;
use std::alloc::{AllocError, Global};

/// Counts what objects retain, one after another. What a count costs is what it counts.
#[derive(Drop)]
pub struct Retained {
    // How many places that hold each object are not fields of what is counted.
    missing: Vec<usize>,
    // What is counted.
    members: Vec<usize>,
    // What the fields of members that were gone through hold.
    passed: Vec<usize>,
}

impl Retained {
    /// Ready to count in this graph.
    pub fn new(alloc: Global, graph: &Graph) -> Result<Retained, AllocError>
        ensures { IfOk result (λ r. IsReady graph.now r.missing.items r.passed.items) }
    {
        let mut missing = zeros(alloc, graph.len())?;
        let places = graph.places();
        for place in 0..places {
            count_place(&mut missing, graph, place);
        }
        Ok(Retained {
            missing,
            members: Vec::new(alloc),
            passed: Vec::new(alloc),
        })
    }

    /// How many objects one that is alive retains, with itself: those that would be destroyed if all strong slots that name it were dropped.
    pub fn count(&mut self, graph: &Graph, index: usize) -> Result<usize, AllocError>
        requires ready { IsReady graph.now self.old.missing.items self.old.passed.items }
        requires there { index < size graph.now }
        ensures retained { IfOk result
            (λ n. (xs : List ℕ) × AreRetained graph.now index xs × (n ≡ length xs)) }
        ensures ready { OnOk result
            (IsReady graph.now self.new.missing.items self.new.passed.items) }
    {
        self.members.clear();
        self.members.push(index)?;
        let mut at = 0;
        while at < self.members.len() {
            self.pass_fields(graph, at, index)?;
            at += 1;
        }
        let count = self.members.len();
        self.restore();
        Ok(count)
    }

    // Goes through the fields of a member.
    fn pass_fields(&mut self, graph: &Graph, at: usize, first: usize) -> Result<(), AllocError>
        requires front { IsRetaining graph.now first at self.old.missing.items
            self.old.members.items self.old.passed.items }
        requires there { at < length self.old.members.items }
        ensures front { OnOk result
            (IsRetaining graph.now first
            (at + 1) self.new.missing.items self.new.members.items self.new.passed.items) }
        ensures work { OnOk result
            (positives self.new.missing.items + length self.new.members.items ≤ positives
            self.old.missing.items + length self.old.members.items) }
        ensures longer { OnOk result
            (length self.old.members.items ≤ length self.new.members.items) }
    {
        let member = self.members[at];
        let fields = graph.fields(member);
        for place in fields.start..fields.end {
            self.pass_place(graph, place, first)?;
        }
        Ok(())
    }

    // Goes through one field of a member.
    fn pass_place(&mut self, graph: &Graph, place: usize, first: usize) -> Result<(), AllocError>
        requires long { length self.old.missing.items ≡ size graph.now }
        requires there { place < places graph.now }
        requires missing { (t : ℕ) → holds graph.now place ≡ Some t → t ≢ first →
            0 < slice_index self.old.missing.items t }
        ensures { OnOk result (IsPlacePassed graph.now first place self.old.missing.items self.old.members.items self.old.passed.items
            self.new.missing.items self.new.members.items self.new.passed.items) }
    {
        let Some(target) = graph.strong_target(place) else {
            return Ok(());
        };
        self.pass(target, first)?;
        Ok(())
    }

    // A field of a member holds the target, which joins where none of the places that hold it is missing any more.
    fn pass(&mut self, target: usize, first: usize) -> Result<(), AllocError>
        requires there { target < length self.old.missing.items }
        requires missing { target ≢ first → 0 < slice_index self.old.missing.items target }
        ensures { OnOk result (IsPass first target self.old.missing.items self.old.members.items self.old.passed.items
            self.new.missing.items self.new.members.items self.new.passed.items) }
    {
        if target == first {
            return Ok(());
        }
        let left = self.missing[target] - 1;
        self.missing[target] = left;
        self.passed.push(target)?;
        if left == 0 {
            self.members.push(target)?;
        }
        Ok(())
    }

    // Takes back what was passed.
    fn restore(&mut self)
        requires within { (t : ℕ) → 0 < times t self.old.passed.items →
            t < length self.old.missing.items }
        requires fits { (t : ℕ) →
            slice_index self.old.missing.items t + times t self.old.passed.items < 2 ^ 64 }
        ensures long { length self.new.missing.items ≡ length self.old.missing.items }
        ensures each { (t : ℕ) →
            slice_index self.new.missing.items t
            ≡ slice_index self.old.missing.items t + times t self.old.passed.items }
        ensures none { self.new.passed.items ≡ [] }
    {
        while let Some(target) = self.passed.pop() {
            self.missing[target] += 1;
        }
    }
}

// Counts a place for the object that it holds.
fn count_place(missing: &mut Vec<usize>, graph: &Graph, place: usize)
    requires long { length missing.old.items ≡ size graph.now }
    requires there { place < places graph.now }
    requires few { places graph.now < 2 ^ 64 }
    requires counted { (t : ℕ) → slice_index missing.old.items t ≤ place }
    ensures { IsPlaceCounted graph.now place missing.old.items missing.new.items }
{
    let Some(target) = graph.strong_target(place) else {
        return;
    };
    missing[target] += 1;
}
