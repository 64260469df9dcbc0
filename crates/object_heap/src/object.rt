//! What is kept for an object of a heap.
ghost use Rattle.std.specs.Prelude.{◌≡◌, ◌↔◌, IfOk, IsTrue, Some, None};
ghost use Rattle.std.specs.Option.{option_copied, option_map};
ghost use Rattle.std.specs.Bool.{IsFalse};
ghost use Rattle.std.specs.Arc.{arc_value};
ghost use Rattle.object_heap.specs.TableView.{kept_at, kept_of};

use crate::counters::{Counters, NOTHING};
use std::alloc::{AllocError, Global};
use std::marker::Model;
use std::sync::Arc;
use trace_types::same::Same;
use trace_types::slots::Entry;

/// What stands for an object, if anything does, and its counters. Contracts see the two.
///
/// A copy with other counters shares what stands, so that no field is copied where a count changes.
#[derive(Drop)]
pub struct Object {
    pub(crate) entry: Option<Arc<Entry>>,
    pub(crate) counters: Counters,
}

impl Model for Object {
    ghost use Rattle.std.specs.Option.{option_map};
    ghost use Rattle.std.specs.Arc.{arc_value};
    ghost use Rattle.object_heap.specs.TableView.{Kept, kept_code};

    ghost Value = { Kept };

    ghost coded = { kept_code };

    ghost view = { λ o. (option_map arc_value o.entry, o.counters) };
}

impl Object {
    /// An object that stands. Takes memory for what stands.
    pub fn standing(alloc: Global, entry: Entry, counters: Counters) -> Result<Object, AllocError>
        ensures { IfOk result (λ x. x ≡ (Some entry, counters)) }
    {
        Ok(Object {
            entry: Some(Arc::new(alloc, entry)?),
            counters,
        })
    }

    /// An object for which nothing stands.
    pub fn named(counters: Counters) -> Object
        ensures { result ≡ (None, counters) }
    {
        Object {
            entry: None,
            counters,
        }
    }

    /// The same once more. Takes no memory, and fails only where what stands has as many owners as can be counted.
    pub fn share(&self) -> Result<Object, AllocError>
        ensures { IfOk result (λ x. x ≡ self.now) }
    {
        Ok(Object {
            entry: self.share_entry()?,
            counters: self.counters,
        })
    }

    /// The same with other counters.
    pub fn with_counters(self, counters: Counters) -> Object
        ensures { result ≡ (self.0, counters) }
    {
        let Object { entry, counters: _ } = self;
        Object { entry, counters }
    }

    /// What stands for it.
    pub fn entry(&self) -> Option<&Entry>
        ensures { option_copied result ≡ self.now.0 }
    {
        match &self.entry {
            Some(entry) => Some(&**entry),
            None => None,
        }
    }

    // What stands for it once more.
    fn share_entry(&self) -> Result<Option<Arc<Entry>>, AllocError>
        ensures { IfOk result (λ e. option_map arc_value e ≡ self.now.0) }
    {
        match &self.entry {
            Some(entry) => Ok(Some(Arc::try_clone(entry)?)),
            None => Ok(None),
        }
    }

    /// Whether something stands for it, or something names it.
    pub fn is_needed(&self) -> bool
        ensures kept { IsTrue result → kept_of self.now.0 self.now.1 ≡ Some self.now }
        ensures not_kept { IsFalse result → kept_of self.now.0 self.now.1 ≡ None }
    {
        self.entry.is_some() || !self.counters.are_zero()
    }

    /// How often it is named.
    pub fn counters(&self) -> Counters
        ensures { result ≡ self.now.1 }
    {
        self.counters
    }
}

/// The counters of an object; zeros where nothing is kept for it.
pub fn counters_of(kept: Option<&Object>) -> Counters
    ensures { result ≡ (kept_at (option_copied kept.entry)).1 }
{
    match kept {
        Some(kept) => kept.counters(),
        None => NOTHING,
    }
}

/// What stands for an object, if anything is kept for it.
pub fn entry_of(kept: Option<&Object>) -> Option<&Entry>
    ensures { option_copied result ≡ (kept_at (option_copied kept.entry)).0 }
{
    kept?.entry()
}

/// What is kept for an object once more, and nothing where nothing is.
pub fn share_of(kept: Option<&Object>) -> Result<Object, AllocError>
    ensures { IfOk result (λ x. x ≡ kept_at (option_copied kept.entry)) }
{
    match kept {
        Some(kept) => kept.share(),
        None => Ok(Object::named(NOTHING)),
    }
}

impl Same for Object {
    fn same(&self, other: &Object) -> bool {
        self.counters == other.counters && same_entry(self.entry(), other.entry())
    }
}

/// Whether the same stands in both places.
pub fn same_entry(one: Option<&Entry>, another: Option<&Entry>) -> bool
    ensures { IsTrue result ↔ (option_copied one.entry ≡ option_copied another.entry) }
{
    match (one, another) {
        (Some(a), Some(b)) => a.same(b),
        (None, None) => true,
        (Some(_), None) | (None, Some(_)) => false,
    }
}

/// Whether the same is kept for an object in both places. Where nothing is, nothing stands and nothing names it.
pub fn same_kept(one: Option<&Object>, another: Option<&Object>) -> bool
    ensures { IsTrue result ↔ (kept_at (option_copied one.entry)
        ≡ kept_at (option_copied another.entry)) }
{
    counters_of(one) == counters_of(another) && same_entry(entry_of(one), entry_of(another))
}
