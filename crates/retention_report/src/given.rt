//! The objects that were given, by where they stand among all.
ghost use Rattle.std.specs.Prelude.{ℕ, ◌≡◌, ◌++◌, ◌<◌, false, length, slice_index_or, IfOk, OnOk};
ghost use Rattle.std.specs.List.{All};
ghost use Rattle.ownership_model.specs.Reach.{has};
ghost use Rattle.retention.specs.Graph.{size};
ghost use Rattle.retention_report.specs.Drawn as definition;
ghost use Rattle.retention_report.specs.Drawn.{index_in, indices_in, listed};

use crate::places::index_of;
use retention::Graph;
use std::alloc::{AllocError, Global};

/// The first of these numbers that is none of an object.
pub fn first_absent(graph: &Graph, objects: &[u32]) -> Option<u32>
    ensures { result ≡ definition.first_absent graph.now.objects.items objects.now }
{
    for object in objects {
        if index_of(graph, *object).is_none() {
            return Some(*object);
        }
    }
    None
}

/// Where the objects with these numbers stand.
pub fn indices_of(alloc: Global, graph: &Graph, objects: &[u32]) -> Result<Vec<usize>, AllocError>
    ensures { IfOk result (λ v. v.items ≡ indices_in graph.now.objects.items objects.now) }
{
    let mut indices = Vec::new(alloc);
    for object in objects {
        push_index(&mut indices, graph, *object)?;
    }
    Ok(indices)
}

fn push_index(indices: &mut Vec<usize>, graph: &Graph, object: u32) -> Result<(), AllocError>
    ensures { OnOk result
        (indices.new.items ≡ indices.old.items
        ++ listed (index_in graph.now.objects.items object)) }
{
    match index_of(graph, object) {
        Some(index) => indices.push(index)?,
        None => {}
    }
    Ok(())
}

/// Marks these of so many objects.
pub fn marks_of(alloc: Global, count: usize, indices: &[usize]) -> Result<Vec<bool>, AllocError>
    requires { All (λ i. i < count) indices.now }
    ensures long { IfOk result (λ v. length v.items ≡ count) }
    ensures each { IfOk result (λ v. (i : ℕ) → slice_index_or v.items i false ≡ has i indices.now) }
{
    let mut marks = vec![in alloc; false; count]?;
    for index in indices {
        marks[*index] = true;
    }
    Ok(marks)
}
