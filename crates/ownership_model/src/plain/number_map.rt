//! A finite map from numbers, as a list sorted by number.
ghost use Rattle.std.specs.Prelude.{◌≡◌, OnOk, OnErr, IsTrue, not, ◌==◌, filter};
ghost use Rattle.std.specs.Option.{option_copied};
ghost use Rattle.std.specs.List as List;
ghost use Rattle.std.specs.Ordering.{nat_cmp};
ghost use Rattle.std.specs.FinMap as map;
ghost use Rattle.std.specs.FinMap.Entries.{find, put, is_sorted};
ghost use Rattle.ownership_model.specs.Places.{place_from};

use std::alloc::{AllocError, Global};
use std::marker::Model;

/// A value for some numbers. Contracts see a finite map.
#[derive(Drop)]
pub struct NumberMap<V> {
    items: Vec<(u32, V)>,
}

impl<V> Model for NumberMap<V> {
    ghost use Rattle.std.specs.Prelude.{IsTrue};
    ghost use Rattle.std.specs.Ordering.{nat_cmp};
    ghost use Rattle.std.specs.FinMap as map;
    ghost use Rattle.std.specs.Coded.{coded_ℕ};
    ghost use Rattle.std.specs.FinMap.Entries.{is_sorted};

    ghost Value = { map.FinMap nat_cmp V };

    ghost coded = { map.code coded_ℕ V.code };

    ghost view = { λ t. map.from_sorted t.items.items };

    ghost invariant = { λ t. IsTrue (is_sorted nat_cmp t.items.items) };
}

#[tactic(auto, using(crate::proofs::NumberMapLemmas::maps))]
impl<V> NumberMap<V> {
    /// Takes no memory.
    pub fn empty(alloc: Global) -> Self
        ensures { result ≡ map.empty }
    {
        NumberMap {
            items: Vec::new(alloc),
        }
    }

    /// All numbers with their values, rising.
    pub fn entries(&self) -> &[(u32, V)]
        ensures { result.now ≡ map.entries self.now }
    {
        self.items.as_slice()
    }

    /// The value of a number, if it has one. The list is walked.
    pub fn get(&self, key: u32) -> Option<&V>
        ensures { option_copied result ≡ map.get self.now key }
    {
        find_in(&self.items, key)
    }
}

#[tactic(auto, using(crate::proofs::NumberMapLemmas::maps))]
impl<V: Drop> NumberMap<V> {
    /// Sets the value of a number, or leaves the map as it is.
    pub(crate) fn insert(&mut self, key: u32, value: V) -> Result<(), AllocError>
        ensures ok { OnOk result (self.new ≡ map.insert self.old key value) }
        ensures err { OnErr result (self.new ≡ self.old) }
    {
        put_in(&mut self.items, key, value)
    }

    /// The number has no value any more.
    pub(crate) fn remove(&mut self, key: u32)
        ensures { self.new ≡ map.remove self.old key }
    {
        cut_in(&mut self.items, key);
    }
}

#[tactic(auto, using(crate::proofs::NumberMapLemmas::cuts))]
fn cut_in<V: Drop>(items: &mut Vec<(u32, V)>, key: u32)
    requires { IsTrue (is_sorted nat_cmp items.old.items) }
    ensures { items.new.items ≡ filter (λ e. not (e.0 == key)) items.old.items }
{
    if let Some(place) = place_in(items, key) {
        if items[place].0 == key {
            items.remove(place);
        }
    }
}

#[tactic(auto, using(crate::proofs::NumberMapLemmas::places))]
fn find_in<V>(items: &[(u32, V)], key: u32) -> Option<&V>
    ensures { option_copied result ≡ find nat_cmp key items.now }
{
    match entry_in(items, key) {
        Some(entry) => Some(&entry.1),
        None => None,
    }
}

fn entry_in<V>(items: &[(u32, V)], key: u32) -> Option<&(u32, V)>
    ensures { option_copied result ≡ List.find (λ e. e.0 == key) items.now }
{
    items.iter().find(|entry| entry.0 == key)
}

// The first place with a number that is not below.
fn place_in<V>(items: &[(u32, V)], key: u32) -> Option<usize>
    ensures { result ≡ place_from key 0 items.now }
{
    items.iter().position(|entry| key <= entry.0)
}

#[tactic(auto, using(crate::proofs::NumberMapLemmas::places))]
fn put_in<V: Drop>(items: &mut Vec<(u32, V)>, key: u32, value: V) -> Result<(), AllocError>
    ensures ok { OnOk result (items.new.items ≡ put nat_cmp key value items.old.items) }
    ensures err { OnErr result (items.new.items ≡ items.old.items) }
{
    match place_in(items, key) {
        None => Ok(items.push((key, value))?),
        Some(place) => {
            if items[place].0 == key {
                items[place] = (key, value);
                Ok(())
            } else {
                Ok(items.insert(place, (key, value))?)
            }
        }
    }
}
