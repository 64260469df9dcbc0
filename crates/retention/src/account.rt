//! What is told of an object that is there.
ghost use Rattle.std.specs.Prelude.{ℕ, ◌≡◌, ◌<◌, ◌++◌, List, [], ◌∷◌, Option, Bool, true, false, if◌then◌else◌, IfOk, OnOk};
ghost use Rattle.trace_types.specs.Operation.{Operation};
ghost use Rattle.ownership_model.specs.State.{nothing_held};
ghost use Rattle.ownership_model.specs.Step.{end_from};
ghost use Rattle.retention.specs.declared.moves.Loss.{Loss as LossOf};
ghost use Rattle.retention.specs.Losses.{AreLosses};
ghost use Rattle.retention.specs.Told.{IsAccount};
ghost use Rattle.retention.specs.Graph.{size, object_at, alive_at, is_field_of};
ghost use Rattle.retention.specs.Walked.{has_come, IsFresh, IsWalkFrom, IsToldWay};
ghost use Rattle.retention.specs.declared.walk.Step.{Step};
ghost use Rattle.retention.specs.Components.{IsCyclic};
ghost use Rattle.retention.specs.Dating.{is_marked, date_at, AreDated};
ghost use Rattle.retention.specs.RetainingSteps.{IsReady};
ghost use Rattle.retention.specs.Endings.{IsEnding, IsEndOf};
ghost use Rattle.retention.specs.AccountsAt as definition;
ghost use Rattle.retention.specs.AccountsAt.{holders_at, IsWhyAt, RetainsAt, IsAccountAt, AreAccounts};

use crate::ending::Ending;
use crate::graph::Graph;
use crate::leaked_since::leaked_since;
use crate::moves::{Loss, is_weak};
use crate::retained::Retained;
use crate::walk::Walk;
use retention_model::{Account, Held, Why};
use std::alloc::{AllocError, Global};
use trace_types::slots::Slot;

/// Tells one object after another.
#[derive(Drop)]
pub struct Accounts {
    from_cycles: Walk,
    since: Vec<Option<u32>>,
    // A walk from the fields of the object that is told.
    own: Walk,
    retained: Retained,
}

impl Accounts {
    /// Of the objects at the end of a replay, on which strong slots were lost in this order.
    pub fn of(alloc: Global, end: &Ending, losses: &[Loss]) -> Result<Accounts, AllocError>
        requires { IsEnding end.now }
        ensures accounts { IfOk result (λ a. AreAccounts end.now a) }
        ensures dated { IfOk result
            (λ a. AreDated end.now.graph end.now.leaked.items losses.now a.since.items) }
    {
        let graph = &end.graph;
        let from_cycles = end.cycles.walk_from(alloc, graph)?;
        let since = leaked_since(alloc, graph, &end.leaked, losses)?;
        let own = Walk::new(alloc, graph)?;
        let retained = Retained::new(alloc, graph)?;
        Ok(Accounts {
            from_cycles,
            since,
            own,
            retained,
        })
    }

    /// What is told of an object, by where it stands among all.
    pub fn tell(&mut self, alloc: Global, end: &Ending, index: usize) -> Result<Account, AllocError>
        requires ending { IsEnding end.now }
        requires accounts { AreAccounts end.now self.old }
        requires there { index < size end.now.graph }
        ensures account { IfOk result (λ a. (ops : List Operation) (losses : List LossOf) → IsEndOf ops end.now → AreLosses nothing_held ops losses
            → AreDated end.now.graph end.now.leaked.items losses self.old.since.items → IsAccount ops (end_from nothing_held ops) (object_at end.now.graph index) a) }
        ensures accounts { OnOk result (AreAccounts end.now self.new) }
        ensures since { OnOk result (self.new.since ≡ self.old.since) }
    {
        let account = self.tell_at(alloc, end, index)?;
        Ok(account)
    }

    // The same, by the numbers of the graph.
    fn tell_at(&mut self, alloc: Global, end: &Ending, index: usize) -> Result<Account, AllocError>
        requires ending { IsEnding end.now }
        requires accounts { AreAccounts end.now self.old }
        requires there { index < size end.now.graph }
        ensures account { IfOk result
            (λ a. IsAccountAt end.now self.old.from_cycles.steps.items
            (date_at self.old.since.items index) index a) }
        ensures accounts { OnOk result (AreAccounts end.now self.new) }
        ensures since { OnOk result (self.new.since ≡ self.old.since) }
    {
        let graph = &end.graph;
        let since = self.since[index];
        let held = holders(alloc, graph, index, false)?;
        let kept = holders(alloc, graph, index, true)?;
        let why = why(alloc, end, &self.from_cycles, &mut self.own, since, index)?;
        let retained = retains(&mut self.retained, graph, index)?;
        Ok(Account {
            held,
            kept,
            why,
            retained,
        })
    }
}

// The places that name an object, strongly or weakly.
fn holders(
    alloc: Global,
    graph: &Graph,
    index: usize,
    weakly: bool,
) -> Result<Vec<Held>, AllocError>
    requires { index < size graph.now }
    ensures { IfOk result (λ v. v.items ≡ holders_at graph.now weakly index) }
{
    let places = graph.holders(index);
    let mut holders = Vec::new(alloc);
    for place in places {
        push_such(&mut holders, graph.held(*place), weakly)?;
    }
    Ok(holders)
}

fn push_such(holders: &mut Vec<Held>, held: Held, weakly: bool) -> Result<(), AllocError>
    ensures { OnOk result (holders.new.items ≡ holders.old.items
        ++ (if definition.is_such weakly held.slot then held ∷ [] else [])) }
{
    if is_such(held.slot, weakly) {
        holders.push(held)?;
    }
    Ok(())
}

fn is_such(slot: Slot, weakly: bool) -> bool
    ensures { result ≡ definition.is_such weakly slot }
{
    if weakly {
        is_weak(slot)
    } else {
        !is_weak(slot)
    }
}

// Why an object is there, where it has been leaked since this operation, if it leaked.
fn why(
    alloc: Global,
    end: &Ending,
    from_cycles: &Walk,
    own: &mut Walk,
    date: Option<u32>,
    index: usize,
) -> Result<Why, AllocError>
    requires ending { IsEnding end.now }
    requires cycles { IsWalkFrom end.now.graph
        (is_field_of end.now.graph end.now.cycles.marks.items) from_cycles.now }
    requires own { IsFresh (size end.now.graph) own.old.steps.items own.old.came.items }
    requires there { index < size end.now.graph }
    ensures why { IfOk result (λ y. IsWhyAt end.now from_cycles.now.steps.items date index y) }
    ensures own { OnOk result
        (IsFresh (size end.now.graph) own.new.steps.items own.new.came.items) }
{
    if !end.graph.is_alive(index) {
        return Ok(Why::Husk);
    }
    if !end.leaked[index] {
        let why = reached(alloc, end, index)?;
        return Ok(why);
    }
    if end.cycles.cycle_of(index).is_some() {
        let why = in_cycle(alloc, end, own, date, index)?;
        return Ok(why);
    }
    let why = under(alloc, end, from_cycles, date, index)?;
    Ok(why)
}

fn reached(alloc: Global, end: &Ending, index: usize) -> Result<Why, AllocError>
    requires ending { IsEnding end.now }
    requires there { index < size end.now.graph }
    requires alive { alive_at end.now.graph index ≡ true }
    requires kept { is_marked end.now.leaked.items index ≡ false }
    ensures { IfOk result (λ y. (came : List Step) (date : Option ℕ) →
        IsWhyAt end.now came date index y) }
{
    let way = way(alloc, &end.graph, &end.from_roots, index)?;
    Ok(Why::Reached(way))
}

fn in_cycle(
    alloc: Global,
    end: &Ending,
    own: &mut Walk,
    date: Option<u32>,
    index: usize,
) -> Result<Why, AllocError>
    requires ending { IsEnding end.now }
    requires own { IsFresh (size end.now.graph) own.old.steps.items own.old.came.items }
    requires there { index < size end.now.graph }
    requires cyclic { IsCyclic end.now.graph end.now.leaked.items index }
    ensures why { IfOk result (λ y. (came : List Step) → IsWhyAt end.now came date index y) }
    ensures own { OnOk result
        (IsFresh (size end.now.graph) own.new.steps.items own.new.came.items) }
{
    let parts = end.cycles.parts();
    let since = date.unwrap_or(0);
    let way = own.own_way(alloc, &end.graph, parts, index)?;
    let part = parts[index];
    let size = end.cycles.size(part);
    Ok(Why::InCycle(since, way, size))
}

fn under(
    alloc: Global,
    end: &Ending,
    from_cycles: &Walk,
    date: Option<u32>,
    index: usize,
) -> Result<Why, AllocError>
    requires cycles { IsWalkFrom end.now.graph
        (is_field_of end.now.graph end.now.cycles.marks.items) from_cycles.now }
    requires there { index < size end.now.graph }
    requires leaked { is_marked end.now.leaked.items index ≡ true }
    requires apart { IsCyclic end.now.graph end.now.leaked.items index → ⊥ }
    ensures { IfOk result (λ y. IsWhyAt end.now from_cycles.now.steps.items date index y) }
{
    let since = date.unwrap_or(0);
    let way = way(alloc, &end.graph, from_cycles, index)?;
    Ok(Why::Under(since, way))
}

// The least way of a walk to an object; no place where the walk didn't come to it.
fn way(alloc: Global, graph: &Graph, walk: &Walk, index: usize) -> Result<Vec<Held>, AllocError>
    requires walked { (from : ℕ → Bool) × IsWalkFrom graph.now from walk.now }
    requires there { index < size graph.now }
    ensures { IfOk result (λ v. (from : ℕ → Bool) → IsWalkFrom graph.now from walk.now →
        has_come walk.now.steps.items index ≡ true → IsToldWay graph.now from index v.items) }
{
    if !walk.is_seen(index) {
        return Ok(Vec::new(alloc));
    }
    let way = walk.way_to(alloc, graph, index)?;
    Ok(way)
}

// How many objects one retains, where it is alive.
fn retains(
    retained: &mut Retained,
    graph: &Graph,
    index: usize,
) -> Result<Option<usize>, AllocError>
    requires ready { IsReady graph.now retained.old.missing.items retained.old.passed.items }
    requires there { index < size graph.now }
    ensures retained { IfOk result (λ count. RetainsAt graph.now index count) }
    ensures ready { OnOk result
        (IsReady graph.now retained.new.missing.items retained.new.passed.items) }
{
    if !graph.is_alive(index) {
        return Ok(None);
    }
    Ok(Some(retained.count(graph, index)?))
}
