//! What the lines of objects are told from.
ghost use Rattle.std.specs.Prelude.{◌≡◌, List, true, IfOk};
ghost use Rattle.trace_types.specs.Operation.{Operation};
ghost use Rattle.ownership_model.specs.State.{nothing_held};
ghost use Rattle.retention_model.specs.Turns.{AreMarked};
ghost use Rattle.retention_report.specs.Sources.{IsStoryOf, IsToldOf, AreLivesOf};

use retention::{Accounts, Ending, Graph, Lifelines, Named, Story};
use retention_model::Marked;
use std::alloc::{AllocError, Global};

/// The end of a replay, what is told of its objects, and, where they are wanted, their lives.
#[derive(Drop)]
pub struct Told {
    pub end: Ending,
    pub accounts: Accounts,
    pub lines: Option<Lifelines>,
}

impl Told {
    /// Of a replay.
    pub fn of(alloc: Global, story: Story, with_lives: bool) -> Result<Told, AllocError>
        requires { (ops : List Operation) × IsStoryOf with_lives ops story }
        ensures { IfOk result (λ t. (ops : List Operation) → IsStoryOf with_lives ops story →
            IsToldOf with_lives ops t) }
    {
        let Story {
            made,
            events,
            end,
            dates,
            losses,
            marked,
        } = story;
        // what is not asked any more is let go before memory is taken for the graph and the walks
        drop(made);
        drop(events);
        let named = Named::of(alloc, &end, &dates)?;
        drop(end);
        drop(dates);
        let graph = Graph::of(alloc, named)?;
        let ending = Ending::of(alloc, graph)?;
        let accounts = Accounts::of(alloc, &ending, &losses)?;
        let lines = lines_of(marked, with_lives)?;
        Ok(Told {
            end: ending,
            accounts,
            lines,
        })
    }
}

// The lives of objects by the marks of all operations, where they are wanted.
fn lines_of(marked: Vec<Marked>, with_lives: bool) -> Result<Option<Lifelines>, AllocError>
    ensures { IfOk result (λ lines. (ops : List Operation) →
        (with_lives ≡ true → AreMarked nothing_held ops marked.items) →
        AreLivesOf with_lives ops lines) }
{
    if !with_lives {
        return Ok(None);
    }
    let lines = Lifelines::of(marked)?;
    Ok(Some(lines))
}
