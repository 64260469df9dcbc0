//! The end of a replay: what is reached, what leaked, and which cycles that forms.
ghost use Rattle.std.specs.Prelude.{ℕ, ◌≡◌, ◌<◌, ◌&&◌, List, false, not, length, count_by, slice_index_or, vec_len, IfOk};
ghost use Rattle.trace_types.specs.Operation.{Operation};
ghost use Rattle.ownership_model.specs.State.{nothing_held};
ghost use Rattle.ownership_model.specs.Step.{end_from};
ghost use Rattle.retention.specs.Graph.{size, alive_at};
ghost use Rattle.retention.specs.Walked.{has_come};
ghost use Rattle.retention.specs.Endings.{IsEnding, IsEndOf};
ghost use Rattle.retention.specs.Ends.{AreTotals};

use crate::cycles::Cycles;
use crate::graph::Graph;
use crate::walk::Walk;
use retention_model::Totals;
use std::alloc::{AllocError, Global};

/// The graph at the end of a replay, with what leads where.
#[derive(Drop)]
pub struct Ending {
    pub graph: Graph,
    /// The least ways from handles and cells.
    pub from_roots: Walk,
    /// Which objects leaked.
    pub leaked: Vec<bool>,
    pub cycles: Cycles,
}

impl Ending {
    /// Of this graph.
    pub fn of(alloc: Global, graph: Graph) -> Result<Ending, AllocError>
        ensures graph { IfOk result (λ e. e.graph ≡ graph) }
        ensures ending { IfOk result (λ e. IsEnding e) }
    {
        let from_roots = Walk::from_roots(alloc, &graph)?;
        let leaked = leaked_in(alloc, &graph, &from_roots)?;
        let cycles = Cycles::of(alloc, &graph, &leaked)?;
        Ok(Ending {
            graph,
            from_roots,
            leaked,
            cycles,
        })
    }

    /// How many objects leaked, how many cycles they form, and how many husks are left.
    pub fn totals(&self) -> Totals
        requires { IsEnding self.now }
        ensures { (ops : List Operation) → IsEndOf ops self.now →
            AreTotals (end_from nothing_held ops) result }
    {
        self.counted()
    }

    fn counted(&self) -> Totals
        ensures leaks { result.leaks ≡ count_by (λ b. b) self.now.leaked.items }
        ensures cycles { result.cycles ≡ length self.now.cycles.least.items }
        ensures husks { result.husks ≡ count_by not self.now.graph.alive.items }
    {
        Totals {
            leaks: self.leaked.iter().filter(|leaked| **leaked).count(),
            cycles: self.cycles.least().len(),
            husks: self.graph.husks(),
        }
    }
}

// Which objects are alive though the walk from the roots didn't come to them.
fn leaked_in(alloc: Global, graph: &Graph, reached: &Walk) -> Result<Vec<bool>, AllocError>
    requires { vec_len reached.now.steps ≡ size graph.now }
    ensures long { IfOk result (λ v. length v.items ≡ size graph.now) }
    ensures each { IfOk result (λ v. (i : ℕ) → i < size graph.now
        → slice_index_or v.items i false ≡ (alive_at graph.now i && not (has_come reached.now.steps.items i))) }
{
    let count = graph.len();
    let mut leaked = Vec::with_capacity(alloc, count)?;
    for index in 0..count {
        leaked.push(is_leaked(graph, reached, index))?;
    }
    Ok(leaked)
}

fn is_leaked(graph: &Graph, reached: &Walk, index: usize) -> bool
    requires there { index < size graph.now }
    requires within { index < vec_len reached.now.steps }
    ensures { result ≡ (alive_at graph.now index && not (has_come reached.now.steps.items index)) }
{
    graph.is_alive(index) && !reached.is_seen(index)
}
