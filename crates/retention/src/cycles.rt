//! The cycles of the objects that leaked: the strongly connected components with a strong slot within.
ghost use Rattle.std.specs.Prelude.{ℕ, ◌≡◌, ◌<◌, ◌↔◌, true, false, length, filter, slice_index, slice_index_or, vec_len, IfOk, IsTrue, MatchOption};
ghost use Rattle.retention.specs.Layout.{upto};
ghost use Rattle.retention.specs.Graph.{size, is_field_of};
ghost use Rattle.retention.specs.Walked.{IsWalkFrom};
ghost use Rattle.retention.specs.Components.{AreParts, IsCyclic, AreCycles, size_of, is_least_of};

use crate::components::{is_cyclic, parts_of};
use crate::filled::zeros;
use crate::graph::Graph;
use crate::walk::Walk;
use std::alloc::{AllocError, Global};

/// Which object is in which cycle.
#[derive(Drop)]
pub struct Cycles {
    // The component of each object, by its least object.
    parts: Vec<usize>,
    // How many objects the component of each least object has.
    sizes: Vec<usize>,
    // Which objects are leaked and in a cycle.
    marks: Vec<bool>,
    // The least object of each such cycle, rising.
    least: Vec<usize>,
}

impl Cycles {
    /// The cycles among the leaked objects, which are told.
    pub fn of(alloc: Global, graph: &Graph, leaked: &[bool]) -> Result<Cycles, AllocError>
        requires { length leaked.now ≡ size graph.now }
        ensures { IfOk result (λ c. AreCycles graph.now leaked.now c) }
    {
        let parts = parts_of(alloc, graph)?;
        let sizes = sizes_of(alloc, &parts)?;
        let marks = marks_of(alloc, graph, leaked, &parts)?;
        let least = least_in_cycles(alloc, &parts, &marks)?;
        Ok(Cycles {
            parts,
            sizes,
            marks,
            least,
        })
    }

    /// The least object of each cycle, rising.
    pub fn least(&self) -> &[usize]
        ensures { result.now ≡ self.now.least.items }
    {
        self.least.as_slice()
    }

    /// The component of each object, by its least object.
    pub fn parts(&self) -> &[usize]
        ensures { result.now ≡ self.now.parts.items }
    {
        self.parts.as_slice()
    }

    /// The least object of the cycle that an object is in.
    pub fn cycle_of(&self, index: usize) -> Option<usize>
        requires marks { index < vec_len self.now.marks }
        requires parts { index < vec_len self.now.parts }
        ensures { MatchOption result (slice_index_or self.now.marks.items index false ≡ false) (λ least.
            (slice_index_or self.now.marks.items index false ≡ true) × (slice_index self.now.parts.items index ≡ least)) }
    {
        if self.marks[index] {
            Some(self.parts[index])
        } else {
            None
        }
    }

    /// How many objects a cycle has, by its least object.
    pub fn size(&self, least: usize) -> usize
        requires { least < vec_len self.now.sizes }
        ensures { result ≡ slice_index self.now.sizes.items least }
    {
        self.sizes[least]
    }

    /// A walk from the fields of all objects in cycles.
    pub fn walk_from(&self, alloc: Global, graph: &Graph) -> Result<Walk, AllocError>
        requires { vec_len self.now.marks ≡ size graph.now }
        ensures { IfOk result (λ w.
            IsWalkFrom graph.now (is_field_of graph.now self.now.marks.items) w) }
    {
        Walk::from_fields(alloc, graph, &self.marks)
    }
}

fn sizes_of(alloc: Global, parts: &[usize]) -> Result<Vec<usize>, AllocError>
    requires { (i : ℕ) → i < length parts.now → slice_index parts.now i < length parts.now }
    ensures long { IfOk result (λ v. length v.items ≡ length parts.now) }
    ensures each { IfOk result
        (λ v. (i : ℕ) → i < length parts.now → slice_index v.items i ≡ size_of parts.now i) }
{
    let mut sizes = zeros(alloc, parts.len())?;
    for part in parts {
        sizes[*part] += 1;
    }
    Ok(sizes)
}

// Which objects are leaked and in a cycle.
fn marks_of(
    alloc: Global,
    graph: &Graph,
    leaked: &[bool],
    parts: &[usize],
) -> Result<Vec<bool>, AllocError>
    requires long { length leaked.now ≡ size graph.now }
    requires parts { AreParts graph.now parts.now }
    ensures long { IfOk result (λ v. vec_len v ≡ size graph.now) }
    ensures each { IfOk result (λ v. (i : ℕ) → i < size graph.now →
        (slice_index_or v.items i false ≡ true) ↔ IsCyclic graph.now leaked.now i) }
{
    let mut marks = Vec::with_capacity(alloc, graph.len())?;
    for index in 0..graph.len() {
        marks.push(leaked[index] && is_cyclic(graph, parts, index))?;
    }
    Ok(marks)
}

// The least object of each component that is a cycle.
fn least_in_cycles(alloc: Global, parts: &[usize], marks: &[bool]) -> Result<Vec<usize>, AllocError>
    requires { length marks.now ≡ length parts.now }
    ensures { IfOk result (λ v.
        v.items ≡ filter (is_least_of parts.now marks.now) (upto (length parts.now))) }
{
    let mut least = Vec::new(alloc);
    for index in 0..parts.len() {
        if is_least(parts, marks, index) {
            least.push(index)?;
        }
    }
    Ok(least)
}

fn is_least(parts: &[usize], marks: &[bool], index: usize) -> bool
    requires long { length marks.now ≡ length parts.now }
    requires within { index < length parts.now }
    ensures { result ≡ is_least_of parts.now marks.now index }
{
    marks[index] && parts[index] == index
}
