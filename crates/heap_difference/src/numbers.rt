//! Sets of numbers.
ghost use Rattle.std.specs.Prelude.{◌≡◌, ◌≤◌, ◌||◌, ◌↔◌, [], ℕ, true, IfOk, IsTrue, length, drop};
ghost use Rattle.std.specs.List.Sorted.{IsStrictlyIncreasing};
ghost use Rattle.ownership_model.specs.Reach.{has};
ghost use Rattle.heap_difference.specs.KeySets.{first_number, lesser_of, without_first};

use std::alloc::{AllocError, Global};
use std::marker::Model;

/// A set of numbers. Contracts see them as a list, which rises.
#[derive(Drop)]
pub struct Numbers {
    items: Vec<u32>,
}

impl Model for Numbers {
    ghost use Rattle.std.specs.Prelude.{List, ℕ};
    ghost use Rattle.std.specs.Coded.{coded_list, coded_ℕ};
    ghost use Rattle.std.specs.List.Sorted.{IsStrictlyIncreasing};

    ghost Value = { List ℕ };

    ghost coded = { coded_list coded_ℕ };

    ghost view = { λ n. n.items.items };

    ghost invariant = { λ n. IsStrictlyIncreasing n.items.items };
}

impl Numbers {
    /// No number. Takes no memory.
    pub fn none(alloc: Global) -> Numbers
        ensures { result ≡ [] }
    {
        Numbers {
            items: Vec::new(alloc),
        }
    }

    /// The numbers of a list, which may come in any order and more than once. Takes no memory.
    pub fn of(list: Vec<u32>) -> Numbers
        ensures { (q : ℕ) → has q result ≡ has q list.items }
    {
        let mut items = list;
        items.sort_unstable();
        items.dedup();
        Numbers { items }
    }

    /// The numbers, rising.
    pub fn as_slice(&self) -> &[u32]
        ensures { result.now ≡ self.now }
    {
        self.items.as_slice()
    }

    /// How many they are.
    pub fn len(&self) -> usize
        ensures { result ≡ length self.now }
    {
        self.items.len()
    }

    /// Whether the number is one of them. For one below the first or above the last that takes two looks, and else the work grows with the
    /// logarithm of their count.
    #[inline(always)]
    pub fn has(&self, number: u32) -> bool
        ensures { result ≡ has number self.now }
    {
        let len = self.items.len();
        if len == 0 || number < self.items[0] || number > self.items[len - 1] {
            return false;
        }
        self.is_there(number)
    }

    // Whether the number is one of them, by a search among all.
    fn is_there(&self, number: u32) -> bool
        ensures { result ≡ has number self.now }
    {
        self.items.binary_search(&number).is_ok()
    }

    /// Whether all numbers of another set are in this one. Each is looked up, until one isn't there.
    pub fn has_all(&self, other: &Numbers) -> bool
        ensures { IsTrue result ↔ ((q : ℕ) → has q other.now ≡ true → has q self.now ≡ true) }
    {
        for number in other.as_slice() {
            if !self.has(*number) {
                return false;
            }
        }
        true
    }

    /// The numbers of both. Both sets are gone through once.
    pub fn joined(&self, alloc: Global, other: &Numbers) -> Result<Numbers, AllocError>
        ensures { IfOk result (λ n. (q : ℕ) → has q n ≡ (has q self.now || has q other.now)) }
    {
        Ok(Numbers {
            items: merged(alloc, &self.items, &other.items)?,
        })
    }
}

// The numbers of both lists, each once, rising. Both lists are gone through once.
fn merged(alloc: Global, a: &[u32], b: &[u32]) -> Result<Vec<u32>, AllocError>
    requires a { IsStrictlyIncreasing a.now }
    requires b { IsStrictlyIncreasing b.now }
    ensures rise { IfOk result (λ v. IsStrictlyIncreasing v.items) }
    ensures both { IfOk result (λ v. (q : ℕ) → has q v.items ≡ (has q a.now || has q b.now)) }
{
    let mut all = Vec::with_capacity(alloc, a.len().max(b.len()))?;
    let mut i = 0;
    let mut j = 0;
    while let Some(number) = lesser(number_at(a, i), number_at(b, j)) {
        all.push(number)?;
        i = after(a, i, number);
        j = after(b, j, number);
    }
    Ok(all)
}

// The lesser of two numbers, or the one that is there.
fn lesser(first: Option<u32>, second: Option<u32>) -> Option<u32>
    ensures { result ≡ lesser_of first second }
{
    match (first, second) {
        (Some(one), Some(other)) => Some(one.min(other)),
        (Some(one), None) => Some(one),
        (None, other) => other,
    }
}

// The number at a place, if the list goes so far.
fn number_at(numbers: &[u32], place: usize) -> Option<u32>
    ensures { result ≡ first_number (drop place numbers.now) }
{
    numbers.get(place).copied()
}

// The place after this one where the number stands here, and this one where another does or none.
fn after(numbers: &[u32], place: usize, number: u32) -> usize
    requires { place ≤ length numbers.now }
    ensures within { result ≤ length numbers.now }
    ensures rest { drop result numbers.now ≡ without_first number (drop place numbers.now) }
{
    if place < numbers.len() && numbers[place] == number {
        place + 1
    } else {
        place
    }
}
