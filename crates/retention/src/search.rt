//! The order in which a depth-first search of a graph leaves objects.
ghost use Rattle.std.specs.Prelude.{ℕ, ◌≡◌, ◌<◌, ◌≤◌, ◌+◌, ◌-◌, ◌*◌, ◌++◌, [], ◌∷◌, true, false, length, slice_index, slice_set, sum, vec_len, IfOk, OnOk};
ghost use Rattle.retention.specs.Graph as of;
ghost use Rattle.retention.specs.Paths.{Points, Path, marked, IsLeavingOrder, IsSearching, AreLeft};

use crate::filled::falses;
use crate::graph::Graph;
use std::alloc::{AllocError, Global};

// A search on its way.
#[derive(Drop)]
struct Search {
    // Which objects it has seen.
    seen: Vec<bool>,
    // How many fields of each object it has still to go through.
    left: Vec<usize>,
    // The objects from where it began to where it is.
    path: Vec<usize>,
    // The objects that it has left.
    order: Vec<usize>,
}

/// All objects, in the order in which a depth-first search leaves them.
pub fn leaving_order(alloc: Global, graph: &Graph) -> Result<Vec<usize>, AllocError>
    ensures { IfOk result (λ v. IsLeavingOrder (Points graph.now) (of.size graph.now) v.items) }
{
    let mut search = Search::new(alloc, graph)?;
    for index in 0..graph.len() {
        if !search.seen[index] {
            search.visit(graph, index)?;
        }
    }
    Ok(search.order)
}

impl Search {
    fn new(alloc: Global, graph: &Graph) -> Result<Search, AllocError>
        ensures searching { IfOk result
            (λ s. IsSearching (Points graph.now)
            (of.size graph.now) s.seen.items s.path.items s.order.items) }
        ensures left { IfOk result (λ s. AreLeft graph.now s.seen.items s.left.items) }
        ensures path { IfOk result (λ s. s.path.items ≡ []) }
    {
        let seen = falses(alloc, graph.len())?;
        let left = field_counts(alloc, graph)?;
        Ok(Search {
            seen,
            left,
            path: Vec::new(alloc),
            order: Vec::new(alloc),
        })
    }

    // Sees all that can be come to from an object, and leaves it.
    fn visit(&mut self, graph: &Graph, index: usize) -> Result<(), AllocError>
        requires searching { IsSearching (Points graph.now)
            (of.size graph.now) self.old.seen.items self.old.path.items self.old.order.items }
        requires left { AreLeft graph.now self.old.seen.items self.old.left.items }
        requires path { self.old.path.items ≡ [] }
        requires within { index < of.size graph.now }
        requires unseen { marked self.old.seen.items index ≡ false }
        ensures searching { OnOk result
            (IsSearching (Points graph.now)
            (of.size graph.now) self.new.seen.items self.new.path.items self.new.order.items) }
        ensures left { OnOk result (AreLeft graph.now self.new.seen.items self.new.left.items) }
        ensures path { OnOk result (self.new.path.items ≡ []) }
        ensures still { OnOk result
            ((x : ℕ) → marked self.old.seen.items x ≡ true → marked self.new.seen.items x ≡ true) }
        ensures here { OnOk result (marked self.new.seen.items index ≡ true) }
    {
        self.enter(graph, index)?;
        while let Some(last) = self.path.last().copied() {
            if self.left[last] == 0 {
                self.leave(graph)?;
            } else {
                self.pass(graph, last)?;
            }
        }
        Ok(())
    }

    // Goes on to an object that the last one of the path points to.
    fn enter(&mut self, graph: &Graph, index: usize) -> Result<(), AllocError>
        requires searching { IsSearching (Points graph.now)
            (of.size graph.now) self.old.seen.items self.old.path.items self.old.order.items }
        requires left { AreLeft graph.now self.old.seen.items self.old.left.items }
        requires within { index < of.size graph.now }
        requires unseen { marked self.old.seen.items index ≡ false }
        requires from { (i : ℕ) → i < vec_len self.old.path →
            Path (Points graph.now) (slice_index self.old.path.items i) index }
        ensures searching { OnOk result
            (IsSearching (Points graph.now)
            (of.size graph.now) self.new.seen.items self.new.path.items self.new.order.items) }
        ensures left { OnOk result (AreLeft graph.now self.new.seen.items self.new.left.items) }
        ensures seen { OnOk result
            (self.new.seen.items ≡ slice_set self.old.seen.items index true) }
        ensures path { OnOk result (self.new.path.items ≡ self.old.path.items ++ index ∷ []) }
        ensures same { OnOk result (self.new.left.items ≡ self.old.left.items) }
    {
        self.path.push(index)?;
        self.seen[index] = true;
        Ok(())
    }

    // Goes through the next field of the last object of the path.
    fn pass(&mut self, graph: &Graph, last: usize) -> Result<(), AllocError>
        requires searching { IsSearching (Points graph.now)
            (of.size graph.now) self.old.seen.items self.old.path.items self.old.order.items }
        requires left { AreLeft graph.now self.old.seen.items self.old.left.items }
        requires some { 0 < vec_len self.old.path }
        requires last { slice_index self.old.path.items (vec_len self.old.path - 1) ≡ last }
        requires more { 0 < slice_index self.old.left.items last }
        ensures searching { OnOk result
            (IsSearching (Points graph.now)
            (of.size graph.now) self.new.seen.items self.new.path.items self.new.order.items) }
        ensures left { OnOk result (AreLeft graph.now self.new.seen.items self.new.left.items) }
        ensures less { OnOk result
            (2 * sum self.new.left.items + vec_len self.new.path < 2 * sum
            self.old.left.items + vec_len self.old.path) }
        ensures still { OnOk result
            ((x : ℕ) → marked self.old.seen.items x ≡ true → marked self.new.seen.items x ≡ true) }
    {
        let place = graph.fields(last).end - self.left[last];
        let target = graph.strong_target(place);
        if let Some(target) = target {
            if !self.seen[target] {
                self.enter(graph, target)?;
            }
        }
        self.left[last] -= 1;
        Ok(())
    }

    // Leaves the last object of the path, all of whose fields it went through.
    fn leave(&mut self, graph: &Graph) -> Result<(), AllocError>
        requires searching { IsSearching (Points graph.now)
            (of.size graph.now) self.old.seen.items self.old.path.items self.old.order.items }
        requires left { AreLeft graph.now self.old.seen.items self.old.left.items }
        requires some { 0 < vec_len self.old.path }
        requires none { slice_index self.old.left.items
            (slice_index self.old.path.items (vec_len self.old.path - 1)) ≡ 0 }
        ensures searching { OnOk result
            (IsSearching (Points graph.now)
            (of.size graph.now) self.new.seen.items self.new.path.items self.new.order.items) }
        ensures left { OnOk result (AreLeft graph.now self.new.seen.items self.new.left.items) }
        ensures less { OnOk result
            (2 * sum self.new.left.items + vec_len self.new.path < 2 * sum
            self.old.left.items + vec_len self.old.path) }
        ensures seen { OnOk result (self.new.seen.items ≡ self.old.seen.items) }
    {
        if let Some(last) = self.path.pop() {
            self.order.push(last)?;
        }
        Ok(())
    }
}

// How many fields each object has.
fn field_counts(alloc: Global, graph: &Graph) -> Result<Vec<usize>, AllocError>
    ensures long { IfOk result (λ v. vec_len v ≡ of.size graph.now) }
    ensures all { IfOk result (λ v. (x : ℕ) → x < of.size graph.now →
        of.start_at graph.now x + slice_index v.items x ≡ of.start_at graph.now (x + 1)) }
{
    let mut counts = Vec::with_capacity(alloc, graph.len())?;
    for index in 0..graph.len() {
        let fields = graph.fields(index);
        counts.push(fields.end - fields.start)?;
    }
    Ok(counts)
}
