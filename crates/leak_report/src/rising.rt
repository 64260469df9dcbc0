//! Distinct numbers, rising: a list while they come so, as in a recorded trace, and a set once one doesn't rise.
ghost use Rattle.std.specs.Prelude.{◌≡◌, ◌++◌, [], ◌∷◌, IfOk, OnOk, IsTrue, fold};
ghost use Rattle.std.specs.Ordering.{nat_cmp};
ghost use Rattle.std.specs.BTreeSet.{insert_key};
ghost use Rattle.std.specs.List.Sorted.{IsStrictlySortedBy};

use std::alloc::{AllocError, Global};
use std::collections::BTreeSet;
use std::marker::Model;

/// Distinct numbers. Contracts see the list of them, rising.
#[derive(Drop)]
pub struct Rising {
    list: Vec<u32>,
    // All of them, once one came that didn't rise.
    set: Option<BTreeSet<u32>>,
}

impl Model for Rising {
    ghost use Rattle.std.specs.Prelude.{ℕ, List};
    ghost use Rattle.std.specs.Option.{option_map_or};
    ghost use Rattle.std.specs.Ordering.{nat_cmp};
    ghost use Rattle.std.specs.BTreeSet.{keys};
    ghost use Rattle.std.specs.List.Sorted.{IsStrictlySortedBy};

    ghost Value = { List ℕ };

    ghost view = { λ r. option_map_or keys r.set r.list.items };

    ghost invariant = { λ r. IsStrictlySortedBy nat_cmp r.list.items };
}

impl Rising {
    /// No number. Takes no memory.
    pub fn new(alloc: Global) -> Rising
        ensures { result ≡ [] }
    {
        Rising {
            list: Vec::new(alloc),
            set: None,
        }
    }

    /// Adds a number, unless it is there.
    pub fn insert(&mut self, number: u32) -> Result<(), AllocError>
        ensures { OnOk result (self.new ≡ insert_key nat_cmp self.old number) }
    {
        if let Some(set) = &mut self.set {
            set.insert(number)?;
            return Ok(());
        }
        if are_below(&self.list, number) {
            self.list.push(number)?;
            return Ok(());
        }
        let mut set = set_of(*self.list.allocator(), &self.list)?;
        set.insert(number)?;
        self.set = Some(set);
        Ok(())
    }

    /// The list of the numbers.
    pub fn into_vec(self) -> Result<Vec<u32>, AllocError>
        ensures value { IfOk result (λ v. v.items ≡ self) }
        ensures rising { IfOk result (λ v. IsStrictlySortedBy nat_cmp v.items) }
    {
        let Rising { list, set } = self;
        match set {
            Some(set) => set.into_iter().collect(*list.allocator()),
            None => Ok(list),
        }
    }
}

/// These numbers, rising, each once.
pub fn in_order(alloc: Global, numbers: &[u32]) -> Result<Vec<u32>, AllocError>
    ensures value { IfOk result (λ v. v.items ≡ fold (insert_key nat_cmp) [] numbers.now) }
    ensures rising { IfOk result (λ v. IsStrictlySortedBy nat_cmp v.items) }
{
    let mut all = Rising::new(alloc);
    for number in numbers {
        all.insert(*number)?;
    }
    all.into_vec()
}

// Whether the number is greater than all of the rising ones.
fn are_below(numbers: &[u32], number: u32) -> bool
    requires { IsStrictlySortedBy nat_cmp numbers.now }
    ensures { IsTrue result → IsStrictlySortedBy nat_cmp (numbers.now ++ number ∷ []) }
{
    match numbers.last() {
        Some(last) => *last < number,
        None => true,
    }
}

// The set of rising numbers.
fn set_of(alloc: Global, numbers: &[u32]) -> Result<BTreeSet<u32>, AllocError>
    requires { IsStrictlySortedBy nat_cmp numbers.now }
    ensures { IfOk result (λ set. set.keys ≡ numbers.now) }
{
    let mut set = BTreeSet::new(alloc);
    for number in numbers {
        set.insert(*number)?;
    }
    Ok(set)
}
