//! What of the end of a trace a picture draws.
ghost use Rattle.std.specs.Prelude.{◌≡◌, ◌++◌, ◌<◌, length, string_bytes, IfSome, OnOk};
ghost use Rattle.retention.specs.Graph.{size, object_at};
ghost use Rattle.retention.specs.Endings.{IsEnding};
ghost use Rattle.retention_report.specs.Drawn.{roots_text, objects_text, edges_text, object_of, edge_of, other_text, is_marked_in, if_so};
ghost use Rattle.retention_report.specs.Drawn as definition;

use crate::places::{drawn_root, index_of, is_drawn, is_last, later};
use object_heap::Heap;
use retention::{Ending, Graph, is_weak};
use retention_model::{Held, Place};
use retention_text::{Look, push_object, push_root, push_slot};
use std::alloc::AllocError;

/// Adds the handles and cells with a drawn place, each once.
pub fn push_roots(text: &mut String, graph: &Graph, shown: &[bool]) -> Result<(), AllocError>
    requires { length shown.now ≡ size graph.now }
    ensures { OnOk result
        (string_bytes text.new ≡ string_bytes text.old ++ roots_text graph.now shown.now) }
{
    let mut last = None;
    for place in 0..graph.places() {
        let root = drawn_root(graph, shown, graph.held(place));
        push_other_root(text, last, root)?;
        last = later(last, root);
    }
    Ok(())
}

// A root that isn't the one that came last.
fn push_other_root(
    text: &mut String,
    last: Option<Place>,
    root: Option<Place>,
) -> Result<(), AllocError>
    ensures { OnOk result (string_bytes text.new ≡ string_bytes text.old ++ other_text last root) }
{
    match root {
        Some(root) => {
            if is_last(last, root) {
                Ok(())
            } else {
                push_root(text, root)
            }
        }
        None => Ok(()),
    }
}

/// Adds the shown objects; those given stand out.
pub fn push_objects(
    text: &mut String,
    end: &Ending,
    heap: &Heap,
    shown: &[bool],
    given: &[bool],
) -> Result<(), AllocError>
    requires ending { IsEnding end.now }
    requires shown { length shown.now ≡ size end.now.graph }
    requires given { length given.now ≡ size end.now.graph }
    ensures { OnOk result
        (string_bytes text.new ≡ string_bytes text.old
        ++ objects_text end.now heap.now shown.now given.now) }
{
    for index in 0..end.graph.len() {
        push_if_shown(text, end, heap, shown, given, index)?;
    }
    Ok(())
}

fn push_if_shown(
    text: &mut String,
    end: &Ending,
    heap: &Heap,
    shown: &[bool],
    given: &[bool],
    index: usize,
) -> Result<(), AllocError>
    requires ending { IsEnding end.now }
    requires shown { length shown.now ≡ size end.now.graph }
    requires given { length given.now ≡ size end.now.graph }
    requires within { index < size end.now.graph }
    ensures { OnOk result (string_bytes text.new ≡ string_bytes text.old
        ++ if_so (is_marked_in end.now.graph.objects.items shown.now (object_at end.now.graph index)) (object_of end.now heap.now given.now (object_at end.now.graph index))) }
{
    if shown[index] {
        let look = Look {
            is_leaked: end.leaked[index],
            is_husk: !end.graph.is_alive(index),
            is_given: given[index],
        };
        push_object(text, heap.counts(end.graph.object(index)), look)
    } else {
        Ok(())
    }
}

/// Adds the drawn slots, in the order of places.
pub fn push_edges(text: &mut String, end: &Ending, shown: &[bool]) -> Result<(), AllocError>
    requires ending { IsEnding end.now }
    requires shown { length shown.now ≡ size end.now.graph }
    ensures { OnOk result
        (string_bytes text.new ≡ string_bytes text.old ++ edges_text end.now shown.now) }
{
    for place in 0..end.graph.places() {
        push_if_drawn(text, end, shown, end.graph.held(place))?;
    }
    Ok(())
}

fn push_if_drawn(
    text: &mut String,
    end: &Ending,
    shown: &[bool],
    held: Held,
) -> Result<(), AllocError>
    requires ending { IsEnding end.now }
    requires shown { length shown.now ≡ size end.now.graph }
    ensures { OnOk result (string_bytes text.new ≡ string_bytes text.old ++ if_so
        (definition.is_drawn end.now.graph.objects.items shown.now held) (edge_of end.now held)) }
{
    if is_drawn(&end.graph, shown, held) {
        push_edge(text, end, held)
    } else {
        Ok(())
    }
}

fn push_edge(text: &mut String, end: &Ending, held: Held) -> Result<(), AllocError>
    requires { IsEnding end.now }
    ensures { OnOk result (string_bytes text.new ≡ string_bytes text.old ++ edge_of end.now held) }
{
    match held.slot.object() {
        Some(object) => push_slot(
            text,
            held,
            object,
            is_weak(held.slot),
            is_bold(end, held.place, object),
        ),
        None => Ok(()),
    }
}

// Whether a field of an object in a cycle names one of the same cycle.
fn is_bold(end: &Ending, place: Place, object: u32) -> bool
    requires { IsEnding end.now }
    ensures { result ≡ definition.is_bold_in end.now place object }
{
    match place {
        Place::Handle(_, _) | Place::Cell(_) => false,
        Place::Field(source, _) => is_joined(end, source, object),
    }
}

// Whether two objects are in one cycle.
fn is_joined(end: &Ending, first: u32, second: u32) -> bool
    requires { IsEnding end.now }
    ensures { result ≡ definition.is_joined end.now first second }
{
    match (cycle_at(end, first), cycle_at(end, second)) {
        (Some(one), Some(other)) => one == other,
        (Some(_), None) | (None, _) => false,
    }
}

// The least object of the cycle that an object is in.
fn cycle_at(end: &Ending, object: u32) -> Option<usize>
    requires { IsEnding end.now }
    ensures { result ≡ definition.cycle_at end.now.cycles
        (definition.index_in end.now.graph.objects.items object) }
{
    match index_of(&end.graph, object) {
        Some(index) => end.cycles.cycle_of(index),
        None => None,
    }
}
