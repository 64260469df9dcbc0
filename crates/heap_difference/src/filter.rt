//! Which keys may be in a set, by one bit for many of them.
ghost use Rattle.std.specs.Prelude.{◌≡◌, ◌+◌, ◌%◌, ◌++◌, ◌∷◌, ◌<◌, ◌≤◌, ℕ, [], true, false, map, flat_map, option_to_list};
ghost use Rattle.ownership_model.specs.declared.key.Key.{Key};
ghost use Rattle.ownership_model.specs.declared.key.Key.TheVariants as key;
ghost use Rattle.ownership_model.specs.Reach.{has};
ghost use Rattle.ownership_model.specs.View.{members, held_fields};
ghost use Rattle.ownership_model.specs.Footprint.{scope_keys, named_keys};
ghost use Rattle.ownership_model.specs.Touched.{event_object, counted};
ghost use Rattle.heap_difference.specs.KeySets.{is_among};
ghost use Rattle.heap_difference.specs.Naming.{op_keys, outcome_keys, with_names};
ghost use Rattle.heap_difference.specs.Filters.{class_of, class_bit, may_have, HasPutIn, HasKeys};

use crate::key_set::KeySet;
use crate::naming::object_of;
use crate::numbers::Numbers;
use ownership_model::Key;
use std::marker::Model;
use trace_types::kinds::{Field, Kind};
use trace_types::ops::Op;
use trace_types::outcomes::{Counts, Event, Outcome};

/// A set of keys as one bit for each of 2,048 classes of keys: it has each key that was put in, and others of its class. Contracts see the words in which
/// the bits stand.
#[derive(Drop)]
pub struct Filter {
    words: [u64; 32],
}

impl Model for Filter {
    ghost use Rattle.std.specs.Prelude.{List, ℕ};

    ghost Value = { List ℕ };

    ghost view = { λ f. f.words };
}

impl Filter {
    // No key.
    fn none() -> Filter {
        Filter { words: [0; 32] }
    }

    /// The keys that were told of operations, and all that these and their outcomes name. They are gone through once.
    pub fn of(told: &[Key], ops: &[Op], outcomes: &[Outcome]) -> Filter
        ensures { HasKeys result (with_names told.now ops.now outcomes.now) }
    {
        let mut filter = Filter::none();
        filter.put_all(told);
        filter.put_ops(ops);
        filter.put_outcomes(outcomes);
        filter
    }

    /// The keys of a set.
    pub fn of_set(keys: &KeySet) -> Filter
        ensures { (x : Key) → is_among keys.now x ≡ true → may_have result x ≡ true }
    {
        let mut filter = Filter::none();
        filter.put_numbers(&keys.handles, 0, 1024);
        filter.put_numbers(&keys.objects, 1024, 1024);
        filter.put_numbers(&keys.cells, 512, 512);
        filter.put_numbers(&keys.labels, 0, 512);
        filter
    }

    /// Whether both may have a key in common.
    pub fn may_meet(&self, other: &Filter) -> bool
        ensures { result ≡ false → (x : Key) → may_have self.now x ≡ true →
            may_have other.now x ≡ false }
    {
        for i in 0..32 {
            if self.words[i] & other.words[i] != 0 {
                return true;
            }
        }
        false
    }

    fn put_all(&mut self, keys: &[Key])
        ensures { HasPutIn self.old self.new keys.now }
    {
        for key in keys {
            self.put(*key);
        }
    }

    #[inline(always)]
    fn put(&mut self, key: Key)
        ensures { HasPutIn self.old self.new (key ∷ []) }
    {
        self.put_class(class_of(key));
    }

    // What operations name.
    fn put_ops(&mut self, ops: &[Op])
        ensures { HasPutIn self.old self.new (flat_map op_keys ops.now) }
    {
        for op in ops {
            self.put_op(op);
        }
    }

    #[inline(always)]
    fn put_op(&mut self, op: &Op)
        ensures { HasPutIn self.old self.new (op_keys op.now) }
    {
        self.put_kind(op.thread(), op.kind());
    }

    // What outcomes name.
    fn put_outcomes(&mut self, outcomes: &[Outcome])
        ensures { HasPutIn self.old self.new (flat_map outcome_keys outcomes.now) }
    {
        for outcome in outcomes {
            self.put_outcome(outcome);
        }
    }

    fn put_outcome(&mut self, outcome: &Outcome)
        ensures { HasPutIn self.old self.new (outcome_keys outcome.now) }
    {
        self.put_events(outcome.events.as_slice());
        self.put_counted(outcome.counts);
    }

    fn put_events(&mut self, events: &[Event])
        ensures { HasPutIn self.old self.new (map key.Object (map event_object events.now)) }
    {
        for event in events {
            self.put_event(*event);
        }
    }

    #[inline(always)]
    fn put_event(&mut self, event: Event)
        ensures { HasPutIn self.old self.new (key.Object (event_object event) ∷ []) }
    {
        self.put(Key::Object(object_of(event)));
    }

    #[inline(always)]
    fn put_counted(&mut self, counts: Option<Counts>)
        ensures { HasPutIn self.old self.new (map key.Object (counted counts)) }
    {
        if let Some(counts) = counts {
            self.put(Key::Object(counts.object));
        }
    }

    // What an operation of this label and kind names.
    #[inline(always)]
    fn put_kind(&mut self, label: u32, kind: &Kind)
        ensures { HasPutIn self.old self.new
            (scope_keys label kind.now ++ named_keys (members [] kind.now)) }
    {
        match kind {
            Kind::New { to, fields } | Kind::NewCyclic { to, fields } => {
                self.put_new(*to, fields.as_slice());
            }
            Kind::WeakNew { to: h }
            | Kind::Null { to: h }
            | Kind::Drop { h }
            | Kind::TryUnwrap { h }
            | Kind::IntoInner { h }
            | Kind::GetMut { h }
            | Kind::MakeMut { h }
            | Kind::Counts { h } => self.put(Key::Handle(*h)),
            Kind::NewFrom { from: a, to: b }
            | Kind::Clone { from: a, to: b }
            | Kind::Downgrade { from: a, to: b }
            | Kind::Upgrade { from: a, to: b }
            | Kind::PtrEq { a, b }
            | Kind::Set {
                h: a,
                i: _,
                from: b,
            }
            | Kind::Take { h: a, i: _, to: b }
            | Kind::Get { h: a, i: _, to: b } => self.put_pair(*a, *b),
            Kind::CellNew { c, from: h } | Kind::CellLoad { c, to: h } => self.put_placed(*h, *c),
            Kind::CellSwap { c, from, to } => self.put_swapped(*c, *from, *to),
            Kind::CellCas {
                c,
                expected,
                desired,
            } => self.put_exchanged(*c, *expected, *desired),
            Kind::CellDrop { c } => self.put(Key::Cell(*c)),
            Kind::ScopeEnd => self.put(Key::Scope(label)),
        }
    }

    #[inline(always)]
    fn put_pair(&mut self, first: u32, second: u32)
        ensures { HasPutIn self.old self.new (key.Handle first ∷ key.Handle second ∷ []) }
    {
        self.put(Key::Handle(first));
        self.put(Key::Handle(second));
    }

    #[inline(always)]
    fn put_placed(&mut self, handle: u32, cell: u32)
        ensures { HasPutIn self.old self.new (key.Handle handle ∷ key.Cell cell ∷ []) }
    {
        self.put(Key::Handle(handle));
        self.put(Key::Cell(cell));
    }

    #[inline(always)]
    fn put_swapped(&mut self, cell: u32, from: u32, to: Option<u32>)
        ensures { HasPutIn self.old self.new
            (key.Handle from ∷ (map key.Handle (option_to_list to) ++ key.Cell cell ∷ [])) }
    {
        match to {
            Some(to) => self.put_exchanged(cell, from, to),
            None => self.put_placed(from, cell),
        }
    }

    #[inline(always)]
    fn put_exchanged(&mut self, cell: u32, first: u32, second: u32)
        ensures { HasPutIn self.old self.new
            (key.Handle first ∷ key.Handle second ∷ key.Cell cell ∷ []) }
    {
        self.put(Key::Handle(first));
        self.put_placed(second, cell);
    }

    fn put_new(&mut self, to: u32, fields: &[Field])
        ensures { HasPutIn self.old self.new
            (key.Handle to ∷ (map key.Handle (held_fields fields.now) ++ [])) }
    {
        self.put(Key::Handle(to));
        self.put_fields(fields);
    }

    // The handles among the fields of a new object.
    fn put_fields(&mut self, fields: &[Field])
        ensures { HasPutIn self.old self.new (map key.Handle (held_fields fields.now)) }
    {
        for field in fields {
            self.put_field(*field);
        }
    }

    #[inline(always)]
    fn put_field(&mut self, field: Field)
        ensures { HasPutIn self.old self.new (map key.Handle (held_fields (field ∷ []))) }
    {
        match field {
            Field::Held(h) => self.put(Key::Handle(h)),
            Field::Null | Field::Me => {}
        }
    }

    // Puts in the numbers of keys of one kind, whose classes are so many from a first one on.
    fn put_numbers(&mut self, numbers: &Numbers, first: u32, count: u32)
        requires some { 0 < count }
        requires within { first + count ≤ 2048 }
        ensures each { (q : ℕ) → has q numbers.now ≡ true →
            class_bit self.new (first + q % count) ≡ 1 }
        ensures stays { (c : ℕ) → class_bit self.old c ≡ 1 → class_bit self.new c ≡ 1 }
    {
        for number in numbers.as_slice() {
            self.put_class(first + *number % count);
        }
    }

    #[inline(always)]
    fn put_class(&mut self, class: u32)
        requires { class < 2048 }
        ensures set { class_bit self.new class ≡ 1 }
        ensures stays { (c : ℕ) → class_bit self.old c ≡ 1 → class_bit self.new c ≡ 1 }
    {
        self.words[(class / 64) as usize] |= 1u64 << (class % 64);
    }
}

// The class of a key.
#[inline(always)]
fn class_of(key: Key) -> u32
    ensures class { result ≡ class_of key }
    ensures within { result < 2048 }
{
    match key {
        Key::Handle(number) => number % 1024,
        Key::Object(number) => 1024 + number % 1024,
        Key::Cell(number) => 512 + number % 512,
        Key::Scope(number) => number % 512,
    }
}
