//! The least ways from some places: the shortest, and of these the first in the order of places.
ghost use Rattle.std.specs.Prelude.{ℕ, ◌≡◌, ◌<◌, ◌≤◌, ◌++◌, List, [], ◌∷◌, Bool, true, false, length, map, reverse, slice_index, slice_index_or, slice_set, vec_len, if◌then◌else◌, IfOk, IfSome, OnOk};
ghost use Rattle.std.specs.List.{All};
ghost use Rattle.ownership_model.specs.Reach.{has};
ghost use Rattle.retention.specs.Layout.{IsRising};
ghost use Rattle.retention.specs.Graph as of;
ghost use Rattle.retention.specs.Walked.{has_come, CameBy, HasWalked, IsWalkFrom, IsFresh, AreListed, IsToldWay, Keeps, holds_in, stepped, joined};
ghost use Rattle.retention.specs.Components.{AreParts};

use crate::begins::{field_places, marked_fields, root_places};
use crate::graph::Graph;
use crate::part::target_in;
use retention_model::Held;
use std::alloc::{AllocError, Global};

/// How a walk came to an object: not, by a place where it begins, or by a field of an object that it came to before.
#[derive(Clone, Copy, Debug, PartialEq, Eq)]
pub enum Step {
    Never,
    First(usize),
    Further(usize),
}

/// A walk over a graph, that breadth-first goes from places to the objects that they hold and on by the fields of these. It comes to objects
/// in the order of the least ways to them, so that the first place to come to an object ends its least way.
#[derive(Drop)]
pub struct Walk {
    steps: Vec<Step>,
    // The objects that it came to, in that order.
    came: Vec<usize>,
}

impl Walk {
    /// A walk that has not begun.
    pub fn new(alloc: Global, graph: &Graph) -> Result<Walk, AllocError>
        ensures { IfOk result (λ w. IsFresh (of.size graph.now) w.steps.items w.came.items) }
    {
        let steps = vec![in alloc; Step::Never; graph.len()]?;
        Ok(Walk {
            steps,
            came: Vec::new(alloc),
        })
    }

    /// A walk from the places of handles and cells to all that they lead to.
    pub fn from_roots(alloc: Global, graph: &Graph) -> Result<Walk, AllocError>
        ensures { IfOk result (λ w. IsWalkFrom graph.now (of.is_root_at graph.now) w) }
    {
        let begins = root_places(alloc, graph)?;
        Walk::from_places(alloc, graph, &begins)
    }

    /// A walk from all fields of the objects that are marked.
    pub fn from_fields(alloc: Global, graph: &Graph, marks: &[bool]) -> Result<Walk, AllocError>
        requires { length marks.now ≡ of.size graph.now }
        ensures { IfOk result (λ w. IsWalkFrom graph.now (of.is_field_of graph.now marks.now) w) }
    {
        let begins = marked_fields(alloc, graph, marks)?;
        Walk::from_places(alloc, graph, &begins)
    }

    // A walk over the whole graph.
    fn from_places(alloc: Global, graph: &Graph, begins: &[usize]) -> Result<Walk, AllocError>
        requires rising { IsRising begins.now }
        requires within { All (λ p. p < of.places graph.now) begins.now }
        ensures { IfOk result (λ w. (from : ℕ → Bool) →
            ((p : ℕ) → p < of.places graph.now → from p ≡ has p begins.now) →
            IsWalkFrom graph.now from w) }
    {
        let mut walk = Walk::new(alloc, graph)?;
        walk.run(graph, begins, &[], 0)?;
        Ok(walk)
    }

    /// Whether it came to an object.
    pub fn is_seen(&self, index: usize) -> bool
        requires { index < vec_len self.now.steps }
        ensures { result ≡ has_come self.now.steps.items index }
    {
        match self.steps[index] {
            Step::Never => false,
            Step::First(_) | Step::Further(_) => true,
        }
    }

    // Goes from these places to all that they lead to within a part of the graph.
    fn run(
        &mut self,
        graph: &Graph,
        begins: &[usize],
        parts: &[usize],
        part: usize,
    ) -> Result<(), AllocError>
        requires fresh { IsFresh (of.size graph.now) self.old.steps.items self.old.came.items }
        requires rising { IsRising begins.now }
        requires within { All (λ p. p < of.places graph.now) begins.now }
        ensures walked { OnOk result ((from : ℕ → Bool) → ((p : ℕ) → p < of.places graph.now → from p ≡ has p begins.now)
            → HasWalked (holds_in graph.now parts.now part) (of.IsFieldAt graph.now) from (of.size graph.now) self.new.steps.items) }
        ensures listed { OnOk result (AreListed self.new.steps.items self.new.came.items) }
    {
        'begins: for place in begins {
            self.begin(graph, parts, part, *place)?;
        }
        let mut at = 0;
        'objects: while at < self.came.len() {
            let index = self.came[at];
            let fields = graph.fields(index);
            'fields: for place in fields.start..fields.end {
                self.pass(graph, parts, part, place)?;
            }
            at += 1;
        }
        Ok(())
    }

    // Begins with a place.
    fn begin(
        &mut self,
        graph: &Graph,
        parts: &[usize],
        part: usize,
        place: usize,
    ) -> Result<(), AllocError>
        requires long { vec_len self.old.steps ≡ of.size graph.now }
        requires within { place < of.places graph.now }
        ensures steps { OnOk result
            (self.new.steps.items ≡ stepped
            (holds_in graph.now parts.now part place) self.old.steps.items (Step.First place)) }
        ensures came { OnOk result
            (self.new.came.items ≡ joined
            (holds_in graph.now parts.now part place) self.old.steps.items self.old.came.items) }
    {
        let target = target_in(graph, parts, part, place);
        self.come(target, Step::First(place))
    }

    // Goes on by a field of an object that it came to.
    fn pass(
        &mut self,
        graph: &Graph,
        parts: &[usize],
        part: usize,
        place: usize,
    ) -> Result<(), AllocError>
        requires long { vec_len self.old.steps ≡ of.size graph.now }
        requires within { place < of.places graph.now }
        ensures steps { OnOk result
            (self.new.steps.items ≡ stepped
            (holds_in graph.now parts.now part place) self.old.steps.items (Step.Further place)) }
        ensures came { OnOk result
            (self.new.came.items ≡ joined
            (holds_in graph.now parts.now part place) self.old.steps.items self.old.came.items) }
    {
        let target = target_in(graph, parts, part, place);
        self.come(target, Step::Further(place))
    }

    /// The way by which it came to an object.
    pub fn way_to(
        &self,
        alloc: Global,
        graph: &Graph,
        index: usize,
    ) -> Result<Vec<Held>, AllocError>
        requires long { vec_len self.now.steps ≡ of.size graph.now }
        requires came { (way : List ℕ) × CameBy
            (of.IsFieldAt graph.now) self.now.steps.items index way
            × All (λ p. p < of.places graph.now) way }
        requires within { index < of.size graph.now }
        ensures { IfOk result (λ v. (way : List ℕ) → CameBy (of.IsFieldAt graph.now) self.now.steps.items index way
            → length way ≤ of.size graph.now → v.items ≡ map (of.held_at graph.now) (reverse way)) }
    {
        let mut way = Vec::new(alloc);
        let mut step = self.steps[index];
        for _ in 0..graph.len() {
            match step {
                Step::Further(place) => {
                    way.push(graph.held(place))?;
                    step = self.step_before(graph, place);
                }
                Step::First(place) => {
                    way.push(graph.held(place))?;
                    return Ok(reversed(way));
                }
                Step::Never => {
                    return Ok(way);
                }
            }
        }
        Ok(way)
    }

    // How the walk came to the object of which a place is a field.
    fn step_before(&self, graph: &Graph, place: usize) -> Step
        requires long { vec_len self.now.steps ≡ of.size graph.now }
        requires within { place < of.places graph.now }
        ensures { (i : ℕ) → of.IsFieldAt graph.now i place →
            result ≡ slice_index_or self.now.steps.items i Step.Never }
    {
        match graph.source(place) {
            Some(source) => self.steps[source],
            None => Step::Never,
        }
    }

    /// The least way to an object in a cycle from its own fields. The walk has not begun before it, nor after it: one that serves for many
    /// objects costs what it sees, and it sees no more than their components.
    pub fn own_way(
        &mut self,
        alloc: Global,
        graph: &Graph,
        parts: &[usize],
        index: usize,
    ) -> Result<Vec<Held>, AllocError>
        requires fresh { IsFresh (of.size graph.now) self.old.steps.items self.old.came.items }
        requires parts { AreParts graph.now parts.now }
        requires within { index < of.size graph.now }
        requires cyclic { Keeps graph.now index index }
        ensures told { IfOk result
            (λ v. IsToldWay graph.now (of.is_field_at graph.now index) index v.items) }
        ensures fresh { OnOk result
            (IsFresh (of.size graph.now) self.new.steps.items self.new.came.items) }
    {
        let begins = field_places(alloc, graph, index)?;
        self.run(graph, &begins, parts, parts[index])?;
        let way = self.way_to(alloc, graph, index)?;
        self.clear();
        Ok(way)
    }

    // Forgets all that it came to.
    fn clear(&mut self)
        requires { AreListed self.old.steps.items self.old.came.items }
        ensures { IsFresh (vec_len self.old.steps) self.new.steps.items self.new.came.items }
    {
        while let Some(index) = self.came.pop() {
            if index < self.steps.len() {
                self.steps[index] = Step::Never;
            }
        }
    }

    // Comes to an object by a step, if there is one, and unless it came to it before.
    fn come(&mut self, target: Option<usize>, step: Step) -> Result<(), AllocError>
        requires { IfSome target (λ t. t < vec_len self.old.steps) }
        ensures steps { OnOk result
            (self.new.steps.items ≡ stepped target self.old.steps.items step) }
        ensures came { OnOk result
            (self.new.came.items ≡ joined target self.old.steps.items self.old.came.items) }
    {
        match target {
            None => Ok(()),
            Some(index) => self.come_to(index, step),
        }
    }

    fn come_to(&mut self, index: usize, step: Step) -> Result<(), AllocError>
        requires { index < vec_len self.old.steps }
        ensures steps { OnOk result
            (self.new.steps.items
            ≡ (if has_come self.old.steps.items index then self.old.steps.items else slice_set
            self.old.steps.items index step)) }
        ensures came { OnOk result
            (self.new.came.items
            ≡ (if has_come self.old.steps.items index then self.old.came.items else
            self.old.came.items ++ index ∷ [])) }
    {
        if !self.is_seen(index) {
            self.came.push(index)?;
            self.steps[index] = step;
        }
        Ok(())
    }
}

fn reversed(mut way: Vec<Held>) -> Vec<Held>
    ensures { result.items ≡ reverse way.items }
{
    way.reverse();
    way
}
