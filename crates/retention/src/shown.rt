//! What a picture shows.
ghost use Rattle.std.specs.Prelude.{ℕ, ◌≡◌, ◌<◌, ◌↔◌, ◌⊎◌, Some, [], true, false, length, replicate, IfOk, IfSome, OnOk, MatchOption};
ghost use Rattle.std.specs.List.{All};
ghost use Rattle.ownership_model.specs.Reach.{has};
ghost use Rattle.retention.specs.Graph.{size, places, alive_at, held_at, IsFieldAt};
ghost use Rattle.retention.specs.Paths.{marked};
ghost use Rattle.retention.specs.Pictured.{IsAskedAt, IsShownAt, HoldsWeaklyAt, AreTheMarked, is_weak_slot};

use crate::filled::falses;
use crate::gather::{gather, join};
use crate::graph::Graph;
use std::alloc::{AllocError, Global};
use trace_types::slots::Slot;

/// Which objects a picture shows: those given, or all that leaked and all husks; what has a weak field that names one of these; and
/// all from a field of which a way leads to one that is shown.
pub fn shown_for(
    alloc: Global,
    graph: &Graph,
    leaked: &[bool],
    given: &[usize],
) -> Result<Vec<bool>, AllocError>
    requires long { length leaked.now ≡ size graph.now }
    requires within { All (λ i. i < size graph.now) given.now }
    ensures long { IfOk result (λ v. length v.items ≡ size graph.now) }
    ensures each { IfOk result (λ v. (i : ℕ) →
        (marked v.items i ≡ true) ↔ IsShownAt graph.now
        (IsAskedAt graph.now leaked.now given.now) i) }
{
    let mut shown = falses(alloc, graph.len())?;
    let mut near = Vec::new(alloc);
    push_asked(graph, leaked, given, &mut near, &mut shown)?;
    push_weak_holders(graph, &mut near, &mut shown)?;
    gather(graph, &mut near, &mut shown)?;
    Ok(shown)
}

// Those given, or all that leaked and all husks.
fn push_asked(
    graph: &Graph,
    leaked: &[bool],
    given: &[usize],
    near: &mut Vec<usize>,
    shown: &mut Vec<bool>,
) -> Result<(), AllocError>
    requires leaked { length leaked.now ≡ size graph.now }
    requires within { All (λ i. i < size graph.now) given.now }
    requires long { length shown.old.items ≡ size graph.now }
    requires marked { AreTheMarked near.old.items shown.old.items }
    requires none { near.old.items ≡ [] }
    ensures marked { OnOk result (AreTheMarked near.new.items shown.new.items) }
    ensures long { OnOk result (length shown.new.items ≡ size graph.now) }
    ensures each { OnOk result
        ((i : ℕ) → (marked shown.new.items i ≡ true) ↔ IsAskedAt graph.now leaked.now given.now i) }
{
    if given.is_empty() {
        return push_of_interest(graph, leaked, near, shown);
    }
    push_given(given, near, shown)
}

fn push_of_interest(
    graph: &Graph,
    leaked: &[bool],
    near: &mut Vec<usize>,
    shown: &mut Vec<bool>,
) -> Result<(), AllocError>
    requires leaked { length leaked.now ≡ size graph.now }
    requires long { length shown.old.items ≡ size graph.now }
    requires marked { AreTheMarked near.old.items shown.old.items }
    requires none { near.old.items ≡ [] }
    ensures marked { OnOk result (AreTheMarked near.new.items shown.new.items) }
    ensures long { OnOk result (length shown.new.items ≡ size graph.now) }
    ensures each { OnOk result
        ((i : ℕ) → (marked shown.new.items i ≡ true) ↔ IsAskedAt graph.now leaked.now [] i) }
{
    for index in 0..graph.len() {
        let one = if_of_interest(graph, leaked, index);
        join(one, near, shown)?;
    }
    Ok(())
}

// An object that leaked, or a husk.
fn if_of_interest(graph: &Graph, leaked: &[bool], index: usize) -> Option<usize>
    requires long { length leaked.now ≡ size graph.now }
    requires within { index < size graph.now }
    ensures { MatchOption result ((marked leaked.now index ≡ true) ⊎ (alive_at graph.now index ≡ false) → ⊥) (λ i.
        (i ≡ index) × ((marked leaked.now index ≡ true) ⊎ (alive_at graph.now index ≡ false))) }
{
    if leaked[index] {
        return Some(index);
    }
    if graph.is_alive(index) {
        return None;
    }
    Some(index)
}

fn push_given(
    given: &[usize],
    near: &mut Vec<usize>,
    shown: &mut Vec<bool>,
) -> Result<(), AllocError>
    requires within { All (λ i. i < length shown.old.items) given.now }
    requires marked { AreTheMarked near.old.items shown.old.items }
    requires none { near.old.items ≡ [] }
    ensures marked { OnOk result (AreTheMarked near.new.items shown.new.items) }
    ensures long { OnOk result (length shown.new.items ≡ length shown.old.items) }
    ensures each { OnOk result ((i : ℕ) → marked shown.new.items i ≡ has i given.now) }
{
    for index in given {
        join(Some(*index), near, shown)?;
    }
    Ok(())
}

// What has a Weak field that names one of those before.
fn push_weak_holders(
    graph: &Graph,
    near: &mut Vec<usize>,
    shown: &mut Vec<bool>,
) -> Result<(), AllocError>
    requires long { length shown.old.items ≡ size graph.now }
    requires marked { AreTheMarked near.old.items shown.old.items }
    ensures marked { OnOk result (AreTheMarked near.new.items shown.new.items) }
    ensures long { OnOk result (length shown.new.items ≡ size graph.now) }
    ensures each { OnOk result
        ((i : ℕ) → (marked shown.new.items i ≡ true) ↔
        ((marked shown.old.items i ≡ true) ⊎
        ((j : ℕ) × (marked shown.old.items j ≡ true) × HoldsWeaklyAt graph.now i j))) }
{
    for at in 0..near.len() {
        let index = near[at];
        for place in graph.holders(index) {
            let source = weak_source(graph, *place);
            join(source, near, shown)?;
        }
    }
    Ok(())
}

// The object of which a place is a field, where it names an object weakly.
fn weak_source(graph: &Graph, place: usize) -> Option<usize>
    requires { place < places graph.now }
    ensures own { IfSome result
        (λ s. (s < size graph.now) × IsFieldAt graph.now s place
        × (is_weak_slot (held_at graph.now place).slot ≡ true)) }
    ensures all { (i : ℕ) → IsFieldAt graph.now i place →
        is_weak_slot (held_at graph.now place).slot ≡ true → result ≡ Some i }
{
    match graph.held(place).slot {
        Slot::Weak(_) => graph.source(place),
        Slot::Nothing | Slot::Strong(_) | Slot::Dangling => None,
    }
}

/// All of them.
pub fn all_shown(alloc: Global, graph: &Graph) -> Result<Vec<bool>, AllocError>
    ensures { IfOk result (λ v. v.items ≡ replicate (size graph.now) true) }
{
    let shown = vec![in alloc; true; graph.len()]?;
    Ok(shown)
}
