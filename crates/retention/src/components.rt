//! The strongly connected components of a graph.
ghost use Rattle.std.specs.Prelude.{ℕ, ◌≡◌, ◌<◌, ◌≤◌, ◌↔◌, List, [], ◌∷◌, true, length, slice_index, slice_set, vec_len, IfOk, OnOk, IsTrue};
ghost use Rattle.std.specs.List.{All};
ghost use Rattle.retention.specs.Graph.{size};
ghost use Rattle.retention.specs.Walked.{Keeps};
ghost use Rattle.retention.specs.Components.{AreParts};
ghost use Rattle.retention.specs.Paths.{Points, IsGathered, IsNamed};

use crate::filled::{falses, zeros};
use crate::gather::gather;
use crate::graph::Graph;
use crate::search::leaving_order;
use std::alloc::{AllocError, Global};

/// The component of each object, by its least object: of the objects that have none, what leads to the one that a search of the graph left last.
pub fn parts_of(alloc: Global, graph: &Graph) -> Result<Vec<usize>, AllocError>
    ensures { IfOk result (λ v. AreParts graph.now v.items) }
{
    let order = leaving_order(alloc, graph)?;
    let mut parts = zeros(alloc, graph.len())?;
    let mut marks = falses(alloc, graph.len())?;
    let mut left = order.len();
    while 0 < left {
        left -= 1;
        let last = order[left];
        if !marks[last] {
            mark_component(alloc, graph, last, &mut marks, &mut parts)?;
        }
    }
    Ok(parts)
}

// Marks all that lead to an object and are not marked, and names their component.
fn mark_component(
    alloc: Global,
    graph: &Graph,
    last: usize,
    marks: &mut Vec<bool>,
    parts: &mut Vec<usize>,
) -> Result<(), AllocError>
    requires marks { vec_len marks.old ≡ size graph.now }
    requires parts { vec_len parts.old ≡ size graph.now }
    requires within { last < size graph.now }
    ensures { OnOk result ((members : List ℕ) × IsGathered (Points graph.now) (last ∷ []) (slice_set marks.old.items last true) members marks.new.items
        × IsNamed members parts.old.items parts.new.items) }
{
    let mut members = list_of(alloc, last)?;
    marks[last] = true;
    gather(graph, &mut members, marks)?;
    name_part(&members, parts);
    Ok(())
}

fn list_of(alloc: Global, index: usize) -> Result<Vec<usize>, AllocError>
    ensures { IfOk result (λ v. v.items ≡ index ∷ []) }
{
    let mut list = Vec::with_capacity(alloc, 1)?;
    list.push(index)?;
    Ok(list)
}

// Gives all members of a component its least one.
fn name_part(members: &[usize], parts: &mut Vec<usize>)
    requires some { 0 < length members.now }
    requires within { All (λ i. i < vec_len parts.old) members.now }
    ensures { IsNamed members.now parts.old.items parts.new.items }
{
    let least = least_of(members);
    for member in members {
        parts[*member] = least;
    }
}

fn least_of(members: &[usize]) -> usize
    requires { 0 < length members.now }
    ensures one { (k : ℕ) × (k < length members.now) × (slice_index members.now k ≡ result) }
    ensures lowest { All (λ i. result ≤ i) members.now }
{
    let mut least = members[0];
    for member in members {
        if *member < least {
            least = *member;
        }
    }
    least
}

/// Whether an object leads to itself: whether one of its fields holds an object of its component.
pub fn is_cyclic(graph: &Graph, parts: &[usize], index: usize) -> bool
    requires parts { AreParts graph.now parts.now }
    requires within { index < size graph.now }
    ensures { IsTrue result ↔ Keeps graph.now index index }
{
    let fields = graph.fields(index);
    for place in fields.start..fields.end {
        if let Some(target) = graph.strong_target(place) {
            if parts[target] == parts[index] {
                return true;
            }
        }
    }
    false
}
