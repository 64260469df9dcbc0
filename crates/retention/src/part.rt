//! A graph within a part of its objects.
ghost use Rattle.std.specs.Prelude.{◌≡◌, ◌<◌, IfSome};
ghost use Rattle.retention.specs.Graph.{places, size};
ghost use Rattle.retention.specs.Walked.{holds_in};

use crate::graph::Graph;

/// The object that a place holds, if it has this entry among the parts. Where there are no entries, all objects are in one part.
pub fn target_in(graph: &Graph, parts: &[usize], part: usize, place: usize) -> Option<usize>
    requires { place < places graph.now }
    ensures value { result ≡ holds_in graph.now parts.now part place }
    ensures within { IfSome result (λ t. t < size graph.now) }
{
    let target = graph.strong_target(place)?;
    match parts.get(target) {
        Some(other) if *other != part => None,
        Some(_) | None => Some(target),
    }
}
