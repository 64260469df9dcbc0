//! The places at which walks begin.
ghost use Rattle.std.specs.Prelude.{◌≡◌, ◌+◌, ◌-◌, ◌<◌, length, filter, IfOk};
ghost use Rattle.std.specs.List.{range_with_len};
ghost use Rattle.retention.specs.Layout.{upto};
ghost use Rattle.retention.specs.Graph.{places, size, start_at, is_field_of, is_field_at};

use crate::graph::Graph;
use std::alloc::{AllocError, Global};

/// The places of handles and cells.
pub fn root_places(alloc: Global, graph: &Graph) -> Result<Vec<usize>, AllocError>
    ensures { IfOk result (λ v. v.items ≡ upto (start_at graph.now 0)) }
{
    let mut begins = Vec::new(alloc);
    for place in 0..graph.roots().end {
        begins.push(place)?;
    }
    Ok(begins)
}

/// The fields of the objects that are marked.
pub fn marked_fields(alloc: Global, graph: &Graph, marks: &[bool]) -> Result<Vec<usize>, AllocError>
    requires { length marks.now ≡ size graph.now }
    ensures { IfOk result (λ v.
        v.items ≡ filter (is_field_of graph.now marks.now) (upto (places graph.now))) }
{
    let mut begins = Vec::new(alloc);
    for place in 0..graph.places() {
        if is_marked(graph, marks, place) {
            begins.push(place)?;
        }
    }
    Ok(begins)
}

// Whether a place is a field of an object that is marked.
fn is_marked(graph: &Graph, marks: &[bool], place: usize) -> bool
    requires long { length marks.now ≡ size graph.now }
    requires within { place < places graph.now }
    ensures { result ≡ is_field_of graph.now marks.now place }
{
    match graph.source(place) {
        Some(source) => marks[source],
        None => false,
    }
}

/// The fields of an object.
pub fn field_places(alloc: Global, graph: &Graph, index: usize) -> Result<Vec<usize>, AllocError>
    requires { index < size graph.now }
    ensures { IfOk result (λ v.
        v.items ≡ range_with_len (start_at graph.now index)
        (start_at graph.now (index + 1) - start_at graph.now index)) }
{
    let fields = graph.fields(index);
    let mut begins = Vec::new(alloc);
    for place in fields.start..fields.end {
        begins.push(place)?;
    }
    Ok(begins)
}
