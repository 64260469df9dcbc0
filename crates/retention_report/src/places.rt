//! Which places a picture draws, and which roots those are in.
ghost use Rattle.std.specs.Prelude.{◌≡◌, ◌<◌, [], length, if◌then◌else◌, IfSome};
ghost use Rattle.retention.specs.Graph.{size};
ghost use Rattle.retention_report.specs.Pictured as picture;
ghost use Rattle.retention_report.specs.Drawn as definition;
ghost use Rattle.retention_report.specs.Drawn.{index_in, is_marked_in, listed};
ghost use Rattle.trace_types.specs.Slots.{named_by};

use retention::Graph;
use retention_model::{Held, Place};
use trace_types::slots::Slot;

/// The handle or cell of a place, where that is drawn.
pub fn drawn_root(graph: &Graph, shown: &[bool], held: Held) -> Option<Place>
    requires { length shown.now ≡ size graph.now }
    ensures { listed result ≡
        (if definition.is_drawn graph.now.objects.items shown.now held
        then picture.roots_of held.place else []) }
{
    if is_drawn(graph, shown, held) {
        root_of(held.place)
    } else {
        None
    }
}

fn root_of(place: Place) -> Option<Place>
    ensures { listed result ≡ picture.roots_of place }
{
    match place {
        Place::Handle(handle, _) => Some(Place::Handle(handle, None)),
        Place::Cell(_) => Some(place),
        Place::Field(_, _) => None,
    }
}

/// Whether a root is the one that came last.
pub fn is_last(last: Option<Place>, root: Place) -> bool
    ensures { result ≡ definition.is_last last root }
{
    match last {
        Some(last) => is_root_at(last, root),
        None => false,
    }
}

fn is_root_at(last: Place, root: Place) -> bool
    ensures { result ≡ picture.is_root_at last root }
{
    match (last, root) {
        (Place::Handle(one, _), Place::Handle(other, _)) => one == other,
        (Place::Cell(one), Place::Cell(other)) => one == other,
        (Place::Handle(_, _), Place::Cell(_) | Place::Field(_, _)) => false,
        (Place::Cell(_), Place::Handle(_, _) | Place::Field(_, _)) => false,
        (Place::Field(_, _), _) => false,
    }
}

/// The root that came last, with this one, if it is one.
pub fn later(last: Option<Place>, root: Option<Place>) -> Option<Place>
    ensures { result ≡ definition.later last root }
{
    match root {
        Some(_) => root,
        None => last,
    }
}

/// Whether a place is one of a root or of a shown object, and names a shown one.
pub fn is_drawn(graph: &Graph, shown: &[bool], held: Held) -> bool
    requires { length shown.now ≡ size graph.now }
    ensures { result ≡ definition.is_drawn graph.now.objects.items shown.now held }
{
    stands_in_shown(graph, shown, held.place) && names_shown(graph, shown, held.slot)
}

fn stands_in_shown(graph: &Graph, shown: &[bool], place: Place) -> bool
    requires { length shown.now ≡ size graph.now }
    ensures { result ≡ picture.stands_in_shown
        (is_marked_in graph.now.objects.items shown.now) place }
{
    match place {
        Place::Handle(_, _) | Place::Cell(_) => true,
        Place::Field(object, _) => is_shown(graph, shown, object),
    }
}

fn names_shown(graph: &Graph, shown: &[bool], slot: Slot) -> bool
    requires { length shown.now ≡ size graph.now }
    ensures { result ≡ picture.names_shown (is_marked_in graph.now.objects.items shown.now)
        (named_by slot) }
{
    match slot.object() {
        Some(object) => is_shown(graph, shown, object),
        None => false,
    }
}

fn is_shown(graph: &Graph, shown: &[bool], object: u32) -> bool
    requires { length shown.now ≡ size graph.now }
    ensures { result ≡ is_marked_in graph.now.objects.items shown.now object }
{
    match index_of(graph, object) {
        Some(index) => shown[index],
        None => false,
    }
}

/// Where an object with this number stands, if it is there.
pub fn index_of(graph: &Graph, object: u32) -> Option<usize>
    ensures value { result ≡ index_in graph.now.objects.items object }
    ensures within { IfSome result (λ i. i < size graph.now) }
{
    graph.index_of(object)
}
