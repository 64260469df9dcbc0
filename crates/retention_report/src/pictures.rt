//! The text of `picture`: the end of a trace as a graph in DOT.
ghost use Rattle.std.specs.Prelude.{◌≡◌, ◌++◌, ◌<◌, List, length, string_bytes, IfOk, OnOk};
ghost use Rattle.std.specs.List.{All};
ghost use Rattle.ownership_model.specs.State.{nothing_held};
ghost use Rattle.ownership_model.specs.Step.{end_from};
ghost use Rattle.trace_types.specs.Trace.{IsTrace};
ghost use Rattle.trace_types.specs.Operation.{Operation};
ghost use Rattle.retention_model.specs.declared.totals.Totals.{Totals};
ghost use Rattle.retention.specs.Graph.{size};
ghost use Rattle.retention.specs.Endings.{IsEnding, IsEndOf};
ghost use Rattle.retention.specs.Ends.{AreTotals};
ghost use Rattle.retention_report.specs.Pictured.{Pictures};
ghost use Rattle.retention_report.specs.Drawn.{IsNamedAtEnd, AreShownAt, IsDrawnText, drawn_text};

use crate::answer::{Answer, no_object};
use crate::drawing::{push_edges, push_objects, push_roots};
use crate::given::{first_absent, indices_of, marks_of};
use object_heap::Heap;
use retention::{Ending, Graph, Named, Story, all_shown, shown_for, tell};
use retention_text::push_head;
use std::alloc::{AllocError, Global};
use trace_types::ops::Op;

/// The graph of the objects with these numbers, or where there are none of all that leaked and all husks, and of what leads to them; with
/// all, of every object. Those with the numbers stand out.
pub fn picture(
    alloc: Global,
    ops: &[Op],
    objects: &[u32],
    with_all: bool,
) -> Result<Answer, AllocError>
    requires { IsTrace ops.now }
    ensures { IfOk result (λ a.
        Pictures with_all ops.now objects.now (string_bytes a.text) a.is_missing) }
{
    let story = tell(alloc, ops, false)?;
    let Story {
        end: heap,
        dates,
        ..
    } = story;
    let named = Named::of(alloc, &heap, &dates)?;
    drop(dates);
    let end = end_of(alloc, named)?;
    match first_absent(&end.graph, objects) {
        Some(object) => {
            let answer = no_object(alloc, object)?;
            Ok(answer)
        }
        None => {
            let text = text_of(alloc, &heap, &end, objects, with_all)?;
            Ok(Answer {
                text,
                is_missing: false,
            })
        }
    }
}

// The end of a replay as a graph.
fn end_of(alloc: Global, named: Named) -> Result<Ending, AllocError>
    ensures ending { IfOk result (λ e. IsEnding e) }
    ensures of { IfOk result (λ e. (ops : List Operation) → IsNamedAtEnd ops named → IsEndOf ops e) }
{
    let graph = Graph::of(alloc, named)?;
    let end = Ending::of(alloc, graph)?;
    Ok(end)
}

// The text, by the graph.
fn text_of(
    alloc: Global,
    heap: &Heap,
    end: &Ending,
    objects: &[u32],
    with_all: bool,
) -> Result<String, AllocError>
    requires { IsEnding end.now }
    ensures { IfOk result (λ s.
        IsDrawnText with_all heap.now end.now objects.now (string_bytes s)) }
{
    let indices = indices_of(alloc, &end.graph, objects)?;
    let given = marks_of(alloc, end.graph.len(), &indices)?;
    let shown = shown_in(alloc, end, &indices, with_all)?;
    let mut text = String::new(alloc);
    push_drawing(&mut text, heap, end, &shown, &given)?;
    Ok(text)
}

// What is shown.
fn shown_in(
    alloc: Global,
    end: &Ending,
    indices: &[usize],
    with_all: bool,
) -> Result<Vec<bool>, AllocError>
    requires ending { IsEnding end.now }
    requires within { All (λ i. i < size end.now.graph) indices.now }
    ensures long { IfOk result (λ v. length v.items ≡ size end.now.graph) }
    ensures each { IfOk result (λ v. AreShownAt with_all end.now indices.now v.items) }
{
    if with_all {
        all_shown(alloc, &end.graph)
    } else {
        shown_for(alloc, &end.graph, &end.leaked, indices)
    }
}

// The whole.
fn push_drawing(
    text: &mut String,
    heap: &Heap,
    end: &Ending,
    shown: &[bool],
    given: &[bool],
) -> Result<(), AllocError>
    requires ending { IsEnding end.now }
    requires shown { length shown.now ≡ size end.now.graph }
    requires given { length given.now ≡ size end.now.graph }
    ensures { OnOk result ((t : Totals) × ((ops : List Operation) → IsEndOf ops end.now → AreTotals (end_from nothing_held ops) t)
        × (string_bytes text.new ≡ string_bytes text.old ++ drawn_text end.now heap.now shown.now given.now t)) }
{
    let totals = end.totals();
    push_head(text, totals)?;
    push_roots(text, &end.graph, shown)?;
    push_objects(text, end, heap, shown, given)?;
    push_edges(text, end, shown)?;
    text.push_str("}\n")?;
    Ok(())
}
