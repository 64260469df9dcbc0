//! The objects that stand for what is left at the end.
ghost use Rattle.std.specs.Prelude.{ℕ, ◌≡◌, ◌<◌, ◌++◌, ◌∷◌, [], List, if◌then◌else◌, IfOk, OnOk};
ghost use Rattle.trace_types.specs.Operation.{Operation};
ghost use Rattle.ownership_model.specs.State.{nothing_held};
ghost use Rattle.ownership_model.specs.Step.{end_from};
ghost use Rattle.retention.specs.Graph.{size, object_at};
ghost use Rattle.retention.specs.Components.{is_least_of};
ghost use Rattle.retention.specs.Endings as definition;
ghost use Rattle.retention.specs.Endings.{IsEnding, IsEndOf};
ghost use Rattle.retention.specs.Ends.{AreAll, IsOfNote};

use crate::ending::Ending;
use std::alloc::{AllocError, Global};

/// Of each cycle its least object, and each husk, rising.
pub fn objects_of_note(alloc: Global, end: &Ending) -> Result<Vec<u32>, AllocError>
    requires { IsEnding end.now }
    ensures { IfOk result (λ v. (ops : List Operation) → IsEndOf ops end.now →
        AreAll (end_from nothing_held ops) (IsOfNote (end_from nothing_held ops)) v.items) }
{
    let count = end.graph.len();
    let mut noted = Vec::new(alloc);
    for index in 0..count {
        push_noted(&mut noted, end, index)?;
    }
    Ok(noted)
}

// Adds an object, if it is of note.
fn push_noted(noted: &mut Vec<u32>, end: &Ending, index: usize) -> Result<(), AllocError>
    requires ending { IsEnding end.now }
    requires there { index < size end.now.graph }
    ensures { OnOk result (noted.new.items ≡ noted.old.items
        ++ (if definition.is_noted end.now index then object_at end.now.graph index ∷ [] else [])) }
{
    if is_noted(end, index) {
        noted.push(end.graph.object(index))?;
    }
    Ok(())
}

// Whether an object stands for a cycle, or is a husk.
fn is_noted(end: &Ending, index: usize) -> bool
    requires ending { IsEnding end.now }
    requires there { index < size end.now.graph }
    ensures { result ≡ definition.is_noted end.now index }
{
    stands_for_cycle(end, index) || !end.graph.is_alive(index)
}

// Whether an object is the least of its cycle.
fn stands_for_cycle(end: &Ending, index: usize) -> bool
    requires ending { IsEnding end.now }
    requires there { index < size end.now.graph }
    ensures { result ≡ is_least_of end.now.cycles.parts.items end.now.cycles.marks.items index }
{
    match end.cycles.cycle_of(index) {
        Some(least) => least == index,
        None => false,
    }
}
