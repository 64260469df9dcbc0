//! Since which operation each leaked object has been leaked.
ghost use Rattle.std.specs.Prelude.{◌≡◌, ◌+◌, ◌<◌, List, [], ◌∷◌, length, true, None, replicate, IfOk, OnOk};
ghost use Rattle.retention.specs.declared.moves.Loss.{Loss};
ghost use Rattle.retention.specs.Graph.{size, places, start_at};
ghost use Rattle.retention.specs.Dating.{is_marked, AreDated, AreDistinct, IsClosed, IsDatedFrom};
ghost use Rattle.retention.specs.DatingSteps.{IsDate, IsPlaceDated, AreDatedBefore};

use crate::graph::Graph;
use crate::moves::Loss;
use std::alloc::{AllocError, Global};

/// The operation since which each leaked object has been leaked: the last one by which it, or an object that leads to it, lost a strong
/// slot. None where there is no such.
///
/// The losses are gone through from the last one back, and each dates what it leads to that no later one did: so each object is dated once.
pub fn leaked_since(
    alloc: Global,
    graph: &Graph,
    leaked: &[bool],
    losses: &[Loss],
) -> Result<Vec<Option<u32>>, AllocError>
    requires marks { length leaked.now ≡ size graph.now }
    requires distinct { AreDistinct graph.now }
    ensures long { IfOk result (λ v. length v.items ≡ size graph.now) }
    ensures dated { IfOk result (λ v. AreDated graph.now leaked.now losses.now v.items) }
{
    let mut since = nones(alloc, graph.len())?;
    let mut todo: Vec<usize> = Vec::new(alloc);
    let mut at = losses.len();
    while at > 0 {
        at -= 1;
        let loss = losses[at];
        date_lost(graph, leaked, loss, &mut since, &mut todo)?;
    }
    Ok(since)
}

// Dates by one loss.
fn date_lost(
    graph: &Graph,
    leaked: &[bool],
    loss: Loss,
    since: &mut Vec<Option<u32>>,
    todo: &mut Vec<usize>,
) -> Result<(), AllocError>
    requires marks { length leaked.now ≡ size graph.now }
    requires long { length since.old.items ≡ size graph.now }
    requires closed { IsClosed graph.now leaked.now since.old.items }
    requires empty { todo.old.items ≡ [] }
    requires distinct { AreDistinct graph.now }
    ensures long { OnOk result (length since.new.items ≡ size graph.now) }
    ensures closed { OnOk result (IsClosed graph.now leaked.now since.new.items) }
    ensures empty { OnOk result (todo.new.items ≡ []) }
    ensures dated { OnOk result ((losses : List Loss) →
        AreDated graph.now leaked.now losses since.old.items →
        AreDated graph.now leaked.now (loss ∷ losses) since.new.items) }
{
    let Some(index) = graph.index_of(loss.object) else {
        return Ok(());
    };
    if !leaked[index] {
        return Ok(());
    }
    date_all(graph, leaked, index, loss.id, since, todo)?;
    Ok(())
}

// Dates an object and all that it leads to, where they have no date.
fn date_all(
    graph: &Graph,
    leaked: &[bool],
    index: usize,
    id: u32,
    since: &mut Vec<Option<u32>>,
    todo: &mut Vec<usize>,
) -> Result<(), AllocError>
    requires marks { length leaked.now ≡ size graph.now }
    requires long { length since.old.items ≡ size graph.now }
    requires closed { IsClosed graph.now leaked.now since.old.items }
    requires empty { todo.old.items ≡ [] }
    requires there { index < size graph.now }
    requires marked { is_marked leaked.now index ≡ true }
    ensures dated { OnOk result
        (IsDatedFrom graph.now leaked.now index id since.old.items since.new.items) }
    ensures empty { OnOk result (todo.new.items ≡ []) }
{
    date(index, id, since, todo)?;
    while let Some(source) = todo.pop() {
        date_fields(graph, leaked, source, id, since, todo)?;
    }
    Ok(())
}

// Dates what the fields of an object hold.
fn date_fields(
    graph: &Graph,
    leaked: &[bool],
    source: usize,
    id: u32,
    since: &mut Vec<Option<u32>>,
    todo: &mut Vec<usize>,
) -> Result<(), AllocError>
    requires marks { length leaked.now ≡ size graph.now }
    requires long { length since.old.items ≡ size graph.now }
    requires there { source < size graph.now }
    ensures { OnOk result (AreDatedBefore graph.now leaked.now source id since.old.items
        since.new.items todo.old.items todo.new.items (start_at graph.now (source + 1))) }
{
    let fields = graph.fields(source);
    for place in fields.start..fields.end {
        date_place(graph, leaked, place, id, since, todo)?;
    }
    Ok(())
}

// Dates what a place holds, where that is marked.
fn date_place(
    graph: &Graph,
    leaked: &[bool],
    place: usize,
    id: u32,
    since: &mut Vec<Option<u32>>,
    todo: &mut Vec<usize>,
) -> Result<(), AllocError>
    requires marks { length leaked.now ≡ size graph.now }
    requires long { length since.old.items ≡ size graph.now }
    requires there { place < places graph.now }
    ensures { OnOk result
        (IsPlaceDated graph.now leaked.now place id since.old.items since.new.items
        todo.old.items todo.new.items) }
{
    let Some(target) = graph.strong_target(place) else {
        return Ok(());
    };
    if !leaked[target] {
        return Ok(());
    }
    date(target, id, since, todo)?;
    Ok(())
}

// Dates an object that has no date, which then waits.
fn date(
    index: usize,
    id: u32,
    since: &mut Vec<Option<u32>>,
    todo: &mut Vec<usize>,
) -> Result<(), AllocError>
    requires { index < length since.old.items }
    ensures { OnOk result
        (IsDate index id since.old.items since.new.items todo.old.items todo.new.items) }
{
    let old = since[index];
    if old.is_some() {
        return Ok(());
    }
    since[index] = Some(id);
    todo.push(index)?;
    Ok(())
}

// So many objects without a date.
fn nones(alloc: Global, count: usize) -> Result<Vec<Option<u32>>, AllocError>
    ensures { IfOk result (λ v. v.items ≡ replicate count None) }
{
    let nones = vec![in alloc; None; count]?;
    Ok(nones)
}
