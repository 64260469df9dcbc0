//! The end of a replay as a graph: objects, the places that name them, and which object each names.
ghost use Rattle.std.specs.Prelude.{length};
ghost use Rattle.retention.specs.Layout.{AreLaid, AreLaid-prop};

use crate::layout::{holders_of, sources_of, targets_of};
use crate::named::Named;
use retention_model::Held;
use std::alloc::{AllocError, Global};
use std::ops::Range;
use trace_types::sequence::Sequence;
use trace_types::slots::Slot;

/// The objects at the end, and each place that names one. Objects go by where they stand among them, places by where they stand in
/// the order of places: those of handles and cells, the roots, and then, object by object, those of fields.
#[derive(Drop)]
pub struct Graph {
    objects: Vec<u32>,
    // Whether the value of each lives.
    alive: Vec<bool>,
    held: Vec<Held>,
    // Which object each place names; that none is there would be the number of all objects.
    targets: Vec<usize>,
    // Of which object each place is a field; those of roots say nothing.
    sources: Vec<usize>,
    // Where the fields of each object begin; the last entry stands behind those of the last one.
    starts: Vec<usize>,
    // The places that name each object.
    holders: Vec<Sequence<usize>>,
    ghost laid: { AreLaid objects.items alive.items (length held.items) targets.items sources.items starts.items holders.items } by { AreLaid-prop
        objects.items alive.items (length held.items) targets.items sources.items starts.items holders.items },
}

impl Graph {
    ghost use Rattle.std.specs.Prelude.{ℕ, ◌≡◌, ◌+◌, ◌<◌, ◌≤◌, false, not, nat_lt, slice_index, if◌then◌else◌, IfOk, IfSome, MatchOption};
    ghost use Rattle.std.specs.List.{count_by};
    ghost use Rattle.ownership_model.specs.Reach.{has};
    ghost use Rattle.retention_model.specs.declared.place.Place.{Place};
    ghost use Rattle.retention.specs.Layout.{naming};
    ghost use Rattle.retention.specs.Graph as of;
    ghost use Rattle.ownership_model.specs.State.{State};
    ghost use Rattle.retention.specs.Named.{IsNamedOf};

    /// The graph of the objects at the end and what names them.
    pub fn of(alloc: Global, named: Named) -> Result<Graph, AllocError>
        ensures { IfOk result (λ g. (m : State) (since : Place → ℕ) → IsNamedOf m since named →
            of.IsGraphOf m since g) }
    {
        let Named {
            objects,
            alive,
            held,
            starts,
        } = named;
        let sources = sources_of(alloc, &starts)?;
        let targets = targets_of(alloc, &objects, &held)?;
        let holders = holders_of(alloc, objects.len(), &targets)?;
        Ok(Graph {
            objects,
            alive,
            held,
            targets,
            sources,
            starts,
            holders,
        })
    }

    /// How many objects there are.
    pub fn len(&self) -> usize
        ensures { result ≡ of.size self.now }
    {
        self.objects.len()
    }

    /// How many places name an object.
    pub fn places(&self) -> usize
        ensures { result ≡ of.places self.now }
    {
        self.held.len()
    }

    /// The number of an object.
    pub fn object(&self, index: usize) -> u32
        requires { index < of.size self.now }
        ensures { result ≡ of.object_at self.now index }
    {
        self.objects[index]
    }

    /// Where an object with this number stands, if it is there.
    pub fn index_of(&self, object: u32) -> Option<usize>
        ensures { MatchOption result (has object self.now.objects.items ≡ false)
            (λ i. (i < of.size self.now) × (of.object_at self.now i ≡ object)) }
    {
        match self.objects.binary_search(&object) {
            Ok(index) => Some(index),
            Err(_) => None,
        }
    }

    /// Whether the value of an object lives.
    pub fn is_alive(&self, index: usize) -> bool
        requires { index < of.size self.now }
        ensures { result ≡ of.alive_at self.now index }
    {
        self.alive[index]
    }

    /// How many husks there are.
    pub fn husks(&self) -> usize
        ensures { result ≡ count_by not self.now.alive.items }
    {
        self.alive.iter().filter(|alive| !**alive).count()
    }

    /// A place that names an object, with what it holds.
    pub fn held(&self, place: usize) -> Held
        requires { place < of.places self.now }
        ensures { result ≡ of.held_at self.now place }
    {
        self.held[place]
    }

    /// The object that a place holds: that of a strong slot.
    pub fn strong_target(&self, place: usize) -> Option<usize>
        requires { place < of.places self.now }
        ensures value { result ≡ of.holds self.now place }
        ensures within { IfSome result (λ t. t < of.size self.now) }
    {
        match self.held[place].slot {
            Slot::Strong(_) => self.target(place),
            Slot::Nothing | Slot::Weak(_) | Slot::Dangling => None,
        }
    }

    // The object that a place names.
    fn target(&self, place: usize) -> Option<usize>
        requires { place < of.places self.now }
        ensures value { result ≡
            (if nat_lt (of.target_at self.now place) (of.size self.now) then Some
            (of.target_at self.now place) else None) }
        ensures within { IfSome result (λ t. t < of.size self.now) }
    {
        let target = self.targets[place];
        if target < self.objects.len() {
            Some(target)
        } else {
            None
        }
    }

    /// The object of whose fields a place is one.
    pub fn source(&self, place: usize) -> Option<usize>
        requires { place < of.places self.now }
        ensures own { MatchOption result (place < of.start_at self.now 0)
            (λ i. (i < of.size self.now) × of.IsFieldAt self.now i place) }
        ensures field { (i : ℕ) → of.IsFieldAt self.now i place → result ≡ Some i }
        ensures value { result ≡
            (if nat_lt place (of.start_at self.now 0) then None else Some
            (slice_index self.now.sources.items place)) }
    {
        if place < self.starts[0] {
            None
        } else {
            Some(self.sources[place])
        }
    }

    /// The places of handles and cells that name an object.
    pub fn roots(&self) -> Range<usize>
        ensures start { result.start ≡ 0 }
        ensures end { result.end ≡ of.start_at self.now 0 }
        ensures within { result.end ≤ of.places self.now }
    {
        0..self.starts[0]
    }

    /// The fields of an object that name one.
    pub fn fields(&self, index: usize) -> Range<usize>
        requires { index < of.size self.now }
        ensures start { result.start ≡ of.start_at self.now index }
        ensures end { result.end ≡ of.start_at self.now (index + 1) }
        ensures rising { result.start ≤ result.end }
        ensures within { result.end ≤ of.places self.now }
    {
        self.starts[index]..self.starts[index + 1]
    }

    /// The places that name an object, in order.
    pub fn holders(&self, index: usize) -> &[usize]
        requires { index < of.size self.now }
        ensures { result.now ≡ naming self.now.targets.items index }
    {
        self.holders[index].as_slice()
    }
}
