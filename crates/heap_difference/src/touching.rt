//! Whether operations touch a key of a set, by the keys that were told of them and by what they and their outcomes name.
ghost use Rattle.std.specs.Prelude.{◌≡◌, ◌↔◌, ◌++◌, ◌∷◌, [], IsTrue, length, map, flat_map, option_to_list};
ghost use Rattle.std.specs.List.{list_any};
ghost use Rattle.ownership_model.specs.declared.key.Key.TheVariants as key;
ghost use Rattle.ownership_model.specs.View.{members, held_fields};
ghost use Rattle.ownership_model.specs.Footprint.{scope_keys, named_keys};
ghost use Rattle.ownership_model.specs.Touched.{event_object, counted};
ghost use Rattle.heap_difference.specs.KeySets.{is_among, set_of, meet};
ghost use Rattle.heap_difference.specs.Naming.{op_keys, outcome_keys, with_names};

use crate::key_set::KeySet;
use crate::naming::object_of;
use ownership_model::Key;
use trace_types::kinds::{Field, Kind};
use trace_types::ops::Op;
use trace_types::outcomes::{Counts, Event, Outcome};

impl KeySet {
    /// Whether any key is in the set of those that were told of operations, and that these and their outcomes name. Each is looked up in
    /// the set, until one is there.
    pub fn touches_all(&self, told: &[Key], ops: &[Op], outcomes: &[Outcome]) -> bool
        ensures { result ≡ meet self.now (set_of (with_names told.now ops.now outcomes.now)) }
    {
        if self.touches(told) {
            return true;
        }
        if self.touches_names(ops) {
            return true;
        }
        self.touches_outcomes(outcomes)
    }

    // Whether operations name a key of the set. They name no object, so where the set has nothing else they aren't looked at.
    fn touches_names(&self, ops: &[Op]) -> bool
        ensures { result ≡ list_any (is_among self.now) (flat_map op_keys ops.now) }
    {
        !self.has_objects_alone() && self.touches_ops(ops)
    }

    // Whether it has no handle, no cell and no label.
    fn has_objects_alone(&self) -> bool
        ensures { IsTrue result ↔ ((length self.now.handles ≡ 0) × ((length self.now.cells ≡ 0)
            × (length self.now.labels ≡ 0))) }
    {
        self.handles.len() == 0 && self.cells.len() == 0 && self.labels.len() == 0
    }

    fn touches_ops(&self, ops: &[Op]) -> bool
        ensures { result ≡ list_any (is_among self.now) (flat_map op_keys ops.now) }
    {
        for op in ops {
            if self.touches_op(op) {
                return true;
            }
        }
        false
    }

    #[inline(always)]
    fn touches_op(&self, op: &Op) -> bool
        ensures { result ≡ list_any (is_among self.now) (op_keys op.now) }
    {
        self.touches_kind(op.thread(), op.kind())
    }

    fn touches_outcomes(&self, outcomes: &[Outcome]) -> bool
        ensures { result ≡ list_any (is_among self.now) (flat_map outcome_keys outcomes.now) }
    {
        for outcome in outcomes {
            if self.touches_outcome(outcome) {
                return true;
            }
        }
        false
    }

    #[inline(always)]
    fn touches_outcome(&self, outcome: &Outcome) -> bool
        ensures { result ≡ list_any (is_among self.now) (outcome_keys outcome.now) }
    {
        self.touches_events(outcome.events.as_slice()) || self.touches_counted(outcome.counts)
    }

    #[inline(always)]
    fn touches_events(&self, events: &[Event]) -> bool
        ensures { result ≡ list_any (is_among self.now)
            (map key.Object (map event_object events.now)) }
    {
        for event in events {
            if self.objects.has(object_of(*event)) {
                return true;
            }
        }
        false
    }

    #[inline(always)]
    fn touches_counted(&self, counts: Option<Counts>) -> bool
        ensures { result ≡ list_any (is_among self.now) (map key.Object (counted counts)) }
    {
        match counts {
            Some(counts) => self.objects.has(counts.object),
            None => false,
        }
    }

    // Whether an operation of this label and kind names a key of the set.
    #[inline(always)]
    fn touches_kind(&self, label: u32, kind: &Kind) -> bool
        ensures { result ≡ list_any (is_among self.now)
            (scope_keys label kind.now ++ named_keys (members [] kind.now)) }
    {
        match kind {
            Kind::New { to, fields } | Kind::NewCyclic { to, fields } => {
                self.touches_new(*to, fields.as_slice())
            }
            Kind::WeakNew { to: h }
            | Kind::Null { to: h }
            | Kind::Drop { h }
            | Kind::TryUnwrap { h }
            | Kind::IntoInner { h }
            | Kind::GetMut { h }
            | Kind::MakeMut { h }
            | Kind::Counts { h } => self.handles.has(*h),
            Kind::NewFrom { from: a, to: b }
            | Kind::Clone { from: a, to: b }
            | Kind::Downgrade { from: a, to: b }
            | Kind::Upgrade { from: a, to: b }
            | Kind::PtrEq { a, b }
            | Kind::Set {
                h: a,
                i: _,
                from: b,
            }
            | Kind::Take { h: a, i: _, to: b }
            | Kind::Get { h: a, i: _, to: b } => self.touches_pair(*a, *b),
            Kind::CellNew { c, from: h } | Kind::CellLoad { c, to: h } => {
                self.touches_placed(*h, *c)
            }
            Kind::CellSwap { c, from, to } => self.touches_swapped(*c, *from, *to),
            Kind::CellCas {
                c,
                expected,
                desired,
            } => self.touches_exchanged(*c, *expected, *desired),
            Kind::CellDrop { c } => self.cells.has(*c),
            Kind::ScopeEnd => self.labels.has(label),
        }
    }

    #[inline(always)]
    fn touches_pair(&self, first: u32, second: u32) -> bool
        ensures { result ≡ list_any (is_among self.now)
            (key.Handle first ∷ key.Handle second ∷ []) }
    {
        self.handles.has(first) || self.handles.has(second)
    }

    #[inline(always)]
    fn touches_placed(&self, handle: u32, cell: u32) -> bool
        ensures { result ≡ list_any (is_among self.now)
            (key.Handle handle ∷ key.Cell cell ∷ []) }
    {
        self.handles.has(handle) || self.cells.has(cell)
    }

    #[inline(always)]
    fn touches_swapped(&self, cell: u32, from: u32, to: Option<u32>) -> bool
        ensures { result ≡ list_any (is_among self.now)
            (key.Handle from ∷ (map key.Handle (option_to_list to) ++ key.Cell cell ∷ [])) }
    {
        match to {
            Some(to) => self.touches_exchanged(cell, from, to),
            None => self.touches_placed(from, cell),
        }
    }

    #[inline(always)]
    fn touches_exchanged(&self, cell: u32, first: u32, second: u32) -> bool
        ensures { result ≡ list_any (is_among self.now)
            (key.Handle first ∷ key.Handle second ∷ key.Cell cell ∷ []) }
    {
        self.handles.has(first) || self.handles.has(second) || self.cells.has(cell)
    }

    fn touches_new(&self, to: u32, fields: &[Field]) -> bool
        ensures { result ≡ list_any (is_among self.now)
            (key.Handle to ∷ (map key.Handle (held_fields fields.now) ++ [])) }
    {
        self.handles.has(to) || self.touches_fields(fields)
    }

    // Whether a handle among the fields of a new object is in the set.
    fn touches_fields(&self, fields: &[Field]) -> bool
        ensures { result ≡ list_any (is_among self.now)
            (map key.Handle (held_fields fields.now)) }
    {
        for field in fields {
            if self.touches_field(*field) {
                return true;
            }
        }
        false
    }

    #[inline(always)]
    fn touches_field(&self, field: Field) -> bool
        ensures { result ≡ list_any (is_among self.now)
            (map key.Handle (held_fields (field ∷ []))) }
    {
        match field {
            Field::Held(h) => self.handles.has(h),
            Field::Null | Field::Me => false,
        }
    }
}
