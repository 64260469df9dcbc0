//! What stands in a heap at some keys, kept to be laid over older heaps.
ghost use Rattle.std.specs.Prelude.{◌≡◌, ◌↔◌, ◌&&◌, ◌||◌, ℕ, Bool, List, [], not, flat_map, is_some, true, false, IfOk, OnOk, IfSome, IsTrue};
ghost use Rattle.std.specs.List.{AllByRecursion};
ghost use Rattle.std.specs.Option.{option_copied};
ghost use Rattle.trace_types.specs.Operation.{Operation};
ghost use Rattle.ownership_model.specs.declared.key.Key.{Key};
ghost use Rattle.ownership_model.specs.Near.{is_object_of};
ghost use Rattle.ownership_model.specs.Reach.{has};
ghost use Rattle.ownership_model.specs.State.{State};
ghost use Rattle.heap_difference.specs.KeySets.{handles_alone, is_among, set_of, meet};
ghost use Rattle.heap_difference.specs.Naming.{with_names, with_sets, outcome_keys};
ghost use Rattle.heap_difference.specs.Filters.{HasKeys};
ghost use Rattle.heap_difference.specs.Alikes.{is_alike, AreOfAlikes, AreShifts, IsSmall};
ghost use Rattle.heap_difference.specs.Puts.{ArePuts, AreUndersApart, DoUndersStay, unders};
ghost use Rattle.heap_difference.specs.Layers.{IsLayer, with_layer, IsLaidBy, CanBeLaidBy, Covers};
ghost use Rattle.heap_difference.specs.Recounted.{told_or};
ghost use Rattle.heap_difference.specs.Holders.{IsCountedIn, IsNoMoreCounted};
ghost use Rattle.heap_difference.specs.Passing.{IsUnderWay, IsFirmlyApart, MayBePassed, MustBePassed};

use crate::alikes::Alikes;
use crate::endings::may_end_under;
use crate::filter::Filter;
use crate::holders::Holders;
use crate::key_set::KeySet;
use crate::laying::laid;
use crate::numbers::Numbers;
use crate::puts::{puts_of, unders_of};
use crate::recounted::recounted;
use crate::shifts::is_shifted;
use object_heap::{Heap, Put};
use ownership_model::Key;
use std::alloc::{AllocError, Global};
use std::marker::Model;
use trace_types::ops::Op;
use trace_types::outcomes::Outcome;
use trace_types::sequence::Sequence;

/// What stands in a heap at some keys. Contracts see the keys, the heap's state, its handles among the keys with where they stand, and of the objects
/// those that are alike in the heap beside it: how their counts differ, and what those of their fields hold that differ.
///
/// It is made once, and can be laid over an older heap of another run for as long as the two runs do the same and touch none of it, but for objects that
/// are alike.
#[derive(Drop)]
pub struct Layer {
    keys: KeySet,
    from: Heap,
    puts: Vec<Put>,
    alikes: Alikes,
    // the keys without the objects that are alike
    firm: KeySet,
    // the keys, and the handles just under those that are put in, as bits
    filter: Filter,
    // the firm keys, and these handles
    avoided: KeySet,
    // these as bits
    avoided_filter: Filter,
}

impl Model for Layer {
    ghost use Rattle.std.specs.Prelude.{◌≡◌, ◌&&◌, ◌||◌, not, true};
    ghost use Rattle.ownership_model.specs.declared.key.Key.{Key};
    ghost use Rattle.ownership_model.specs.Near.{is_object_of};
    ghost use Rattle.ownership_model.specs.Reach.{has};
    ghost use Rattle.heap_difference.specs.KeySets.{handles_alone, is_among};
    ghost use Rattle.heap_difference.specs.Alikes.{is_alike};
    ghost use Rattle.heap_difference.specs.Filters.{may_have};
    ghost use Rattle.heap_difference.specs.Puts.{ArePuts, unders};
    ghost use Rattle.heap_difference.specs.Laid.{IsWhole};
    ghost use Rattle.heap_difference.specs.Layers.{LayerView, layer_code};

    ghost Value = { LayerView };

    ghost coded = { layer_code };

    ghost view = { λ l. record {
      keys = l.keys;
      firm = l.firm.objects;
      from = l.from;
      puts = l.puts.items;
      shifts = l.alikes.shifts.items;
      fields = l.alikes.fields.items;
    } };

    ghost invariant = { λ l. ArePuts (λ h. has h l.keys.handles) l.from l.puts.items
        × IsWhole l.keys l.firm.objects l.alikes.shifts.items l.alikes.fields.items
        × ((x : Key) → is_among l.firm x
        ≡ (is_among l.keys x && not (is_object_of (is_alike l.alikes.shifts.items) x)))
        × ((x : Key) → (is_among l.keys x || is_among (handles_alone (unders l.puts.items)) x)
        ≡ true → may_have l.filter x ≡ true)
        × ((x : Key) → is_among l.avoided x
        ≡ (is_among l.firm x || is_among (handles_alone (unders l.puts.items)) x))
        × ((x : Key) → is_among l.avoided x ≡ true → may_have l.avoided_filter x ≡ true) };
}

impl Layer {
    /// What stands in a heap at these keys. Of the objects among them some are alike in the heap beside it.
    ///
    /// The work is that of the keys, and of the way from each handle down its scope past others of them.
    pub fn of(alloc: Global, heap: &Heap, keys: KeySet, alikes: Alikes) -> Result<Layer, AllocError>
        requires inside { (o : ℕ) → is_alike alikes.shifts.items o ≡ true →
            has o keys.objects ≡ true }
        requires own { AreOfAlikes alikes.shifts.items alikes.fields.items }
        requires small { AllByRecursion IsSmall alikes.shifts.items }
        ensures keys { IfOk result (λ l. l.keys ≡ keys) }
        ensures from { IfOk result (λ l. l.from ≡ heap.now) }
        ensures puts { IfOk result (λ l. ArePuts (λ h. has h l.keys.handles) l.from l.puts) }
        ensures shifts { IfOk result (λ l. l.shifts ≡ alikes.shifts.items) }
        ensures fields { IfOk result (λ l. l.fields ≡ alikes.fields.items) }
        ensures layer { IfOk result IsLayer }
    {
        let puts = puts_of(alloc, heap, &keys.handles)?;
        let all = avoided_of(alloc, &keys, &puts)?;
        let filter = Filter::of_set(&all);
        let firm = firm_of(alloc, &keys, &alikes)?;
        let avoided = avoided_of(alloc, &firm, &puts)?;
        let avoided_filter = Filter::of_set(&avoided);
        let from = heap.share()?;
        Ok(Layer {
            keys,
            from,
            puts,
            alikes,
            firm,
            filter,
            avoided,
            avoided_filter,
        })
    }

    /// The keys.
    pub fn keys(&self) -> &KeySet
        ensures { result.now ≡ self.now.keys }
    {
        &self.keys
    }

    /// Whether all that another layer lays is laid by this one: it has its keys; what is firm there is firm here; and a field that is laid there is laid
    /// here, or its object is firm.
    pub fn covers(&self, other: &Layer) -> bool
        ensures { IsTrue result ↔ Covers self.now other.now }
    {
        self.keys.has_all(&other.keys)
            && self.firm.has_all(&other.firm)
            && self.alikes.cover(&other.alikes)
    }

    /// An older heap with it laid over.
    ///
    /// The work is that of the layer. What the old heap alone holds is changed in place.
    pub fn laid(&self, alloc: Global, old: Heap) -> Result<Heap, AllocError>
        requires { CanBeLaidBy self.now old }
        ensures { IfOk result (λ h. h ≡ with_layer self.now old) }
    {
        old.show_sound();
        let fields = self.alikes.fields.as_slice();
        let firm = &self.firm.objects;
        laid(alloc, old, &self.from, &self.keys, firm, &self.puts, fields)
    }

    /// The objects that are named strongly less often in its heap than in the one beside it.
    pub fn holders(&self, alloc: Global) -> Result<Holders, AllocError>
        ensures way { (old : State) → IsLaidBy self.now old self.now.from →
            AreShifts self.now.shifts old self.now.from →
            IfOk result (λ h. IsUnderWay self.now h old self.now.from) }
        ensures none { IfOk result (λ h. h.counted.items ≡ []) }
    {
        Holders::of(alloc, &self.alikes.shifts, &self.from)
    }

    // Whether a filter tells that whatever keys it has are none of these keys, and no handle just under one that is put in. If not, that says nothing.
    fn is_apart_by(&self, filter: Option<&Filter>) -> bool
        ensures { IsTrue result → (keys : List Key) →
            IfSome (option_copied filter.entry) (λ f. HasKeys f keys) → (meet self.now.keys (set_of keys) ≡ false)
            × AreUndersApart (set_of keys) self.now.puts }
    {
        match filter {
            None => false,
            Some(filter) => !filter.may_meet(&self.filter),
        }
    }

    // Whether a filter tells that whatever keys it has are none of the firm ones, and no handle just under one that is put in. If not, that says nothing.
    fn is_firmly_apart_by(&self, filter: Option<&Filter>) -> bool
        ensures { IsTrue result → (keys : List Key) → (ops : List Operation) →
            IfSome (option_copied filter.entry) (λ f. HasKeys f keys) →
            IsFirmlyApart self.now (set_of keys) ops }
    {
        match filter {
            None => false,
            Some(filter) => !filter.may_meet(&self.avoided_filter),
        }
    }

    // Whether operations touch none of the firm keys, and either none of the handles just under those that are put in, or may end none of these by what
    // they name: by the keys that were told of them, and by those that they and their outcomes name. Each is looked up until one is there, if the
    // filter that has them doesn't tell.
    fn is_firmly_apart(
        &self,
        filter: Option<&Filter>,
        told: &[Key],
        ops: &[Op],
        outcomes: &[Outcome],
    ) -> bool
        requires { IfSome (option_copied filter) (λ f.
            HasKeys f (with_names told.now ops.now outcomes.now)) }
        ensures { IsTrue result ↔ IsFirmlyApart self.now
            (set_of (with_names told.now ops.now outcomes.now)) ops.now }
    {
        if self.is_firmly_apart_by(filter) {
            return true;
        }
        if !self.avoided.touches_all(told, ops, outcomes) {
            return true;
        }
        !self.firm.touches_all(told, ops, outcomes) && !may_end_under(&self.puts, ops)
    }

    /// Whether operations may be passed: of the keys they touch only objects that are alike, read of these only what is the same in both heaps, and leave
    /// them alive; of the handles just under those that are put in they touch none, or may end none. Then they come with their outcomes in the
    /// new run, if these are others. Where all that is so, and each object that has fewer Arcs is named by one that stands where none of them may set
    /// anything, they are passed.
    pub fn passed(
        &self,
        alloc: Global,
        holders: &mut Holders,
        filter: Option<&Filter>,
        told: &[Key],
        ops: &[Op],
        outcomes: &[Outcome],
    ) -> Result<Option<Option<Sequence<Outcome>>>, AllocError>
        requires { IfSome (option_copied filter) (λ f.
            HasKeys f (with_names told.now ops.now outcomes.now)) }
        ensures passed { IfOk result (λ o. IfSome o (λ others. MayBePassed self.now holders.old holders.new
            (set_of (with_names told.now ops.now outcomes.now)) ops.now outcomes.now
            (told_or outcomes.now others))) }
        ensures names { IfOk result (λ o. IfSome o (λ others.
            flat_map outcome_keys (told_or outcomes.now others)
            ≡ flat_map outcome_keys outcomes.now)) }
        ensures must { (t : Key → Bool) → IsCountedIn t self.now.from holders.old →
            MustBePassed self.now holders.old
            (set_of (with_names told.now ops.now outcomes.now))
            (set_of (with_sets told.now ops.now outcomes.now)) ops.now outcomes.now →
            IfOk result (λ o. is_some o ≡ true) }
        ensures no_more { OnOk result (IsNoMoreCounted
            (set_of (with_sets told.now ops.now outcomes.now)) holders.old holders.new) }
    {
        if self.is_apart_by(filter) {
            return Ok(Some(None));
        }
        if !self.is_firmly_apart(filter, told, ops, outcomes) {
            return Ok(None);
        }
        if self.alikes.is_empty() {
            return Ok(Some(None));
        }
        if !self.alikes.are_blind(ops, outcomes) {
            return Ok(None);
        }
        if !holders.pass(alloc, &self.from, told, ops, outcomes)? {
            return Ok(None);
        }
        Ok(Some(recounted(alloc, &self.alikes.shifts, outcomes)?))
    }
}

// The keys without objects that are alike.
fn firm_of(alloc: Global, keys: &KeySet, alikes: &Alikes) -> Result<KeySet, AllocError>
    ensures { IfOk result (λ d. (x : Key) → is_among d x
        ≡ (is_among keys.now x && not (is_object_of (is_alike alikes.now.shifts.items) x))) }
{
    let none = Numbers::none(alloc);
    Ok(KeySet {
        handles: keys.handles.joined(alloc, &none)?,
        cells: keys.cells.joined(alloc, &none)?,
        objects: firm_objects(alloc, &keys.objects, alikes)?,
        labels: keys.labels.joined(alloc, &none)?,
    })
}

fn firm_objects(alloc: Global, objects: &Numbers, alikes: &Alikes) -> Result<Numbers, AllocError>
    ensures { IfOk result (λ n. (o : ℕ) → has o n
        ≡ (has o objects.now && not (is_alike alikes.now.shifts.items o))) }
{
    let mut firm = Vec::new(alloc);
    for object in objects.as_slice() {
        if !is_shifted(&alikes.shifts, *object) {
            firm.push(*object)?;
        }
    }
    Ok(Numbers::of(firm))
}

// The keys, and the handles just under those that are put in.
fn avoided_of(alloc: Global, keys: &KeySet, puts: &[Put]) -> Result<KeySet, AllocError>
    ensures { IfOk result (λ d. (x : Key) → is_among d x
        ≡ (is_among keys.now x || is_among (handles_alone (unders puts.now)) x)) }
{
    let unders = KeySet {
        handles: unders_of(alloc, puts)?,
        cells: Numbers::none(alloc),
        objects: Numbers::none(alloc),
        labels: Numbers::none(alloc),
    };
    keys.joined(alloc, &unders)
}
