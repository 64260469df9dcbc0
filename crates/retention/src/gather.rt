//! What leads to some objects.
ghost use Rattle.std.specs.Prelude.{ℕ, ◌≡◌, ◌<◌, ◌++◌, [], ◌∷◌, Some, true, slice_set, if◌then◌else◌, IfSome, OnOk, vec_len};
ghost use Rattle.std.specs.List.{All};
ghost use Rattle.retention.specs.Graph.{size, places, holds, target_at, IsFieldAt};
ghost use Rattle.retention.specs.Paths.{Points, marked, with_member, with_mark, IsGathered, IsJoined};

use crate::graph::Graph;
use std::alloc::AllocError;

/// Adds to objects, which are marked, all that lead to one of them by what fields hold, up to those that are marked already, and marks them.
pub fn gather(
    graph: &Graph,
    members: &mut Vec<usize>,
    marks: &mut Vec<bool>,
) -> Result<(), AllocError>
    requires long { vec_len marks.old ≡ size graph.now }
    requires within { All (λ i. i < size graph.now) members.old.items }
    requires begun { All (λ i. marked marks.old.items i ≡ true) members.old.items }
    ensures gathered { OnOk result
        (IsGathered (Points graph.now) members.old.items marks.old.items
        members.new.items marks.new.items) }
    ensures within { OnOk result (All (λ i. i < size graph.now) members.new.items) }
{
    let mut at = 0;
    while at < members.len() {
        let member = members[at];
        join_sources(graph, member, members, marks)?;
        at += 1;
    }
    Ok(())
}

// Adds each object a field of which holds this one, unless it is marked, and marks it.
fn join_sources(
    graph: &Graph,
    member: usize,
    members: &mut Vec<usize>,
    marks: &mut Vec<bool>,
) -> Result<(), AllocError>
    requires long { vec_len marks.old ≡ size graph.now }
    requires within { member < size graph.now }
    requires all { All (λ i. i < size graph.now) members.old.items }
    requires begun { All (λ i. marked marks.old.items i ≡ true) members.old.items }
    ensures joined { OnOk result
        (IsJoined (Points graph.now) member members.old.items marks.old.items
        members.new.items marks.new.items) }
    ensures within { OnOk result (All (λ i. i < size graph.now) members.new.items) }
{
    for place in graph.holders(member) {
        let source = strong_source(graph, *place);
        join(source, members, marks)?;
    }
    Ok(())
}

/// Adds an object, if there is one and it is not marked, and marks it.
pub fn join(
    index: Option<usize>,
    members: &mut Vec<usize>,
    marks: &mut Vec<bool>,
) -> Result<(), AllocError>
    requires { IfSome index (λ i. i < vec_len marks.old) }
    ensures members { OnOk result
        (members.new.items ≡ with_member index marks.old.items members.old.items) }
    ensures marks { OnOk result (marks.new.items ≡ with_mark index marks.old.items) }
{
    match index {
        None => Ok(()),
        Some(index) => join_one(index, members, marks),
    }
}

fn join_one(index: usize, members: &mut Vec<usize>, marks: &mut Vec<bool>) -> Result<(), AllocError>
    requires { index < vec_len marks.old }
    ensures members { OnOk result
        (members.new.items
        ≡ (if marked marks.old.items index then members.old.items
        else members.old.items ++ index ∷ [])) }
    ensures marks { OnOk result
        (marks.new.items
        ≡ (if marked marks.old.items index then marks.old.items
        else slice_set marks.old.items index true)) }
{
    if !marks[index] {
        members.push(index)?;
        marks[index] = true;
    }
    Ok(())
}

// The object of which a place is a field, where it holds an object.
fn strong_source(graph: &Graph, place: usize) -> Option<usize>
    requires { place < places graph.now }
    ensures own { IfSome result
        (λ s. (s < size graph.now) × IsFieldAt graph.now s place
        × (holds graph.now place ≡ Some (target_at graph.now place))) }
    ensures all { (i t : ℕ) → IsFieldAt graph.now i place → holds graph.now place ≡ Some t →
        result ≡ Some i }
{
    match graph.strong_target(place) {
        Some(_) => graph.source(place),
        None => None,
    }
}
