//! The root: one entry alone, or a tree with as many levels as the keys need that came into it.
ghost use Rattle.std.specs.Prelude.{◌≡◌, ℕ, ◌<◌, ◌≤◌, ◌*◌, ◌^◌, ◌↔◌, OnOk, OnErr, Some, None, IfSome, IfOk, IsTrue, is_some, false, unwrap_or};
ghost use Rattle.std.specs.Bool.{IsFalse};
ghost use Rattle.std.specs.Option.{option_copied, option_map, IfNone};
ghost use Rattle.std.specs.Arc.{arc_value};
ghost use Rattle.share_tree.specs.Entries.{keys_from};
ghost use Rattle.share_tree.specs.Levels.{branch_at, root_at, height_of, HasRoom};
ghost use Rattle.share_tree.specs.Walk.{IsNowhereFrom, IsFirstFrom};
ghost use Rattle.share_tree.specs.Digits.{updated, nowhere, below, child_at, AgreesBelow};

use crate::change::{Change, Insert, Remove, Set};
use crate::child::Child;
use crate::leaf::{Leaf, put_in, update_in};
use crate::leaf_node::LeafNode;
use crate::level::Level;
use crate::node::{Node, over};
use crate::question::{FirstFrom, Get, Keys, Question};
use crate::update::Update;
use std::alloc::{AllocError, Global};
use std::sync::Arc;
use trace_types::same::Same;

// A level for each hexadecimal digit of a key, the high one first.
type TwoLevels<V> = Node<LeafNode<V>>;

type FiveLevels<V> = Node<Node<Node<TwoLevels<V>>>>;

type EightLevels<V> = Node<Node<Node<FiveLevels<V>>>>;

/// An entry alone, or a tree of so many levels.
#[derive(Drop)]
pub enum Root<V: Drop> {
    One(u32, Arc<Leaf<V>>),
    Two(Child<TwoLevels<V>>),
    Five(Child<FiveLevels<V>>),
    Eight(Child<EightLevels<V>>),
}

impl<V: Drop> Root<V> {
    /// No entry.
    pub fn empty() -> Self
        ensures { (q : ℕ) → root_at result q ≡ None }
    {
        Root::Two(Child::none())
    }

    // Whether it is seen at once that there is no entry.
    fn is_none(&self) -> bool
        ensures { IsTrue result → (q : ℕ) → root_at self.now q ≡ None }
    {
        match self {
            Root::One(_, _) => false,
            Root::Two(child) => child.is_none(),
            Root::Five(child) => child.is_none(),
            Root::Eight(child) => child.is_none(),
        }
    }

    /// The same root once more.
    pub fn share(&self) -> Result<Self, AllocError>
        ensures { IfOk result (λ r. (q : ℕ) → root_at r q ≡ root_at self.now q) }
    {
        match self {
            Root::One(only, leaf) => Ok(Root::One(*only, Arc::try_clone(leaf)?)),
            Root::Two(child) => Ok(Root::Two(child.share()?)),
            Root::Five(child) => Ok(Root::Five(child.share()?)),
            Root::Eight(child) => Ok(Root::Eight(child.share()?)),
        }
    }

    // The answer of a tree. Its levels are told apart here for all that is asked, and in `change` for all that is changed, since each
    // function that names the types of all trees is long to prove.
    #[inline(always)]
    fn ask<'a, Q: Question<'a, V>>(&'a self, question: Q) -> Q::Answer
        requires { 0 < height_of self.now }
        ensures { Q.says question (root_at self.now) result }
    {
        match self {
            Root::One(_, _) => unreachable!(),
            Root::Two(child) => question.ask(child),
            Root::Five(child) => question.ask(child),
            Root::Eight(child) => question.ask(child),
        }
    }

    // A tree changed at one key, in place where nobody else holds the level, and the answer.
    #[inline(always)]
    fn change<A: Change<V>>(&mut self, alloc: Global, change: A) -> Result<bool, AllocError>
        requires tall { 0 < height_of self.old }
        requires able { A.can change (16 ^ height_of self.old) (root_at self.old (A.key change)) }
        ensures answer { IfOk result (λ b. b ≡ A.answer change (root_at self.old (A.key change))) }
        ensures ok { OnOk result ((q : ℕ) → root_at self.new q
            ≡ updated (root_at self.old) (A.key change)
            (A.to change (root_at self.old (A.key change))) q) }
        ensures err { OnErr result ((q : ℕ) → root_at self.new q ≡ root_at self.old q) }
    {
        match self {
            Root::One(_, _) => unreachable!(),
            Root::Two(child) => change.change(alloc, child),
            Root::Five(child) => change.change(alloc, child),
            Root::Eight(child) => change.change(alloc, child),
        }
    }

    /// The value at a key.
    pub fn get(&self, key: u32) -> Option<&V>
        ensures { option_copied result ≡ root_at self.now key }
    {
        match self {
            Root::One(only, leaf) => {
                if *only == key {
                    Some(leaf.value())
                } else {
                    None
                }
            }
            _ => self.ask(Get { key }),
        }
    }

    /// The entry with the least key from `key` on.
    pub fn first_from(&self, key: u32) -> Option<(u32, &V)>
        ensures none { IfNone result (IsNowhereFrom (root_at self.now) key (2 ^ 32)) }
        ensures within { IfSome result (λ e. e.0 < 2 ^ 32) }
        ensures first { IfSome result (λ e. IsFirstFrom (root_at self.now) key e.0 e.1.now) }
    {
        match self {
            Root::One(only, leaf) => {
                if key <= *only {
                    Some((*only, leaf.value()))
                } else {
                    None
                }
            }
            _ => self.ask(FirstFrom { key }),
        }
    }

    /// One more entry, in place where nobody else holds the level. It says whether the key was there.
    pub fn insert(&mut self, alloc: Global, key: u32, value: V) -> Result<bool, AllocError>
        ensures was { IfOk result (λ was. was ≡ is_some (root_at self.old key)) }
        ensures ok { OnOk result ((q : ℕ) → root_at self.new q
            ≡ updated (root_at self.old) key (Some value) q) }
        ensures err { OnErr result ((q : ℕ) → root_at self.new q ≡ root_at self.old q) }
    {
        if self.is_none() || !self.has_room(key) {
            return self.insert_anew(alloc, key, value);
        }
        self.put(alloc, key, value)
    }

    // As `insert`, where there is no entry, or no room for the key.
    #[inline(never)]
    fn insert_anew(&mut self, alloc: Global, key: u32, value: V) -> Result<bool, AllocError>
        ensures was { IfOk result (λ was. was ≡ is_some (root_at self.old key)) }
        ensures ok { OnOk result ((q : ℕ) → root_at self.new q
            ≡ updated (root_at self.old) key (Some value) q) }
        ensures err { OnErr result ((q : ℕ) → root_at self.new q ≡ root_at self.old q) }
    {
        if self.is_none() {
            *self = Root::One(key, Leaf::of(alloc, value)?);
            return Ok(false);
        }
        self.make_room(alloc, key)?;
        self.put(alloc, key, value)
    }

    // One more entry, for which there is room.
    #[inline(always)]
    fn put(&mut self, alloc: Global, key: u32, value: V) -> Result<bool, AllocError>
        requires { HasRoom key self.old }
        ensures was { IfOk result (λ was. was ≡ is_some (root_at self.old key)) }
        ensures ok { OnOk result ((q : ℕ) → root_at self.new q
            ≡ updated (root_at self.old) key (Some value) q) }
        ensures err { OnErr result ((q : ℕ) → root_at self.new q ≡ root_at self.old q) }
    {
        match self {
            Root::One(_, leaf) => {
                put_in(alloc, leaf, value)?;
                Ok(true)
            }
            _ => self.change(alloc, Insert { key, value }),
        }
    }

    // The same entries, in a form that has room for the key.
    fn make_room(&mut self, alloc: Global, key: u32) -> Result<(), AllocError>
        ensures room { OnOk result (HasRoom key self.new) }
        ensures same { (q : ℕ) → root_at self.new q ≡ root_at self.old q }
    {
        while !self.has_room(key) {
            *self = self.grown(alloc)?;
        }
        Ok(())
    }

    fn has_room(&self, key: u32) -> bool
        ensures room { IsTrue result → HasRoom key self.now }
        ensures can_grow { IsFalse result → height_of self.now < 8 }
    {
        match self {
            Root::One(only, _) => *only == key,
            Root::Two(_) => key < 256,
            Root::Five(_) => key < 1_048_576,
            Root::Eight(_) => true,
        }
    }

    // The same entries under more levels. The nodes that are there are shared.
    fn grown(&self, alloc: Global) -> Result<Self, AllocError>
        requires { height_of self.now < 8 }
        ensures same { IfOk result (λ r. (q : ℕ) → root_at r q ≡ root_at self.now q) }
        ensures taller { IfOk result (λ r. height_of self.now < height_of r) }
    {
        match self {
            Root::One(only, leaf) => tree_of(alloc, *only, Arc::try_clone(leaf)?),
            Root::Two(child) => Ok(Root::Five(three_over(alloc, child.share()?)?)),
            Root::Five(child) => Ok(Root::Eight(three_over(alloc, child.share()?)?)),
            Root::Eight(_) => unreachable!(),
        }
    }

    /// Changes the value of a key, in place where nobody else holds the level, and gives the answer; false where the key isn't there.
    pub fn update<F: Update<V>>(
        &mut self,
        alloc: Global,
        key: u32,
        how: &F,
    ) -> Result<bool, AllocError>
        requires { IfSome (root_at self.old key) (F.can how.now) }
        ensures answer { IfOk result
            (λ b. b ≡ unwrap_or (option_map (F.answer how.now) (root_at self.old key)) false) }
        ensures ok { OnOk result ((q : ℕ) → root_at self.new q
            ≡ updated (root_at self.old) key (option_map (F.to how.now) (root_at self.old key)) q) }
        ensures err { OnErr result ((q : ℕ) → root_at self.new q ≡ root_at self.old q) }
    {
        match self {
            Root::One(only, leaf) => {
                if *only != key {
                    return Ok(false);
                }
                update_in(alloc, leaf, how)
            }
            _ => self.change(alloc, Set { key, how }),
        }
    }

    /// Takes out an entry, in place where nobody else holds the level.
    pub fn remove(&mut self, alloc: Global, key: u32) -> Result<(), AllocError>
        ensures ok { OnOk result ((q : ℕ) → root_at self.new q
            ≡ updated (root_at self.old) key None q) }
        ensures err { OnErr result ((q : ℕ) → root_at self.new q ≡ root_at self.old q) }
    {
        match self {
            Root::One(only, _) => {
                if *only == key {
                    *self = Root::empty();
                }
                Ok(())
            }
            _ => {
                self.change(alloc, Remove { key })?;
                Ok(())
            }
        }
    }

    /// The keys that are there, in rising order.
    pub fn keys(&self, alloc: Global) -> Result<Vec<u32>, AllocError>
        ensures { IfOk result (λ v. v.items ≡ keys_from (root_at self.now) 0 (2 ^ 32)) }
    {
        match self {
            Root::One(only, _) => {
                let mut keys = Vec::new(alloc);
                keys.push(*only)?;
                Ok(keys)
            }
            _ => self.ask(Keys { alloc }),
        }
    }

    /// Whether both have the same entries, of whatever form they are.
    pub fn same(&self, other: &Self) -> bool
    where
        V: Same,
        ensures { IsTrue result ↔ AgreesBelow (2 ^ 32) (root_at self.now) (root_at other.now) }
    {
        match (self, other) {
            (Root::Two(a), Root::Two(b)) => same::<V, TwoLevels<V>>(a, b),
            (Root::Five(a), Root::Five(b)) => same::<V, FiveLevels<V>>(a, b),
            (Root::Eight(a), Root::Eight(b)) => same::<V, EightLevels<V>>(a, b),
            _ => same_walk(self, other),
        }
    }

    // Whether the entry with the least key from `from` on is this one.
    fn goes_on_with(&self, from: u32, key: u32, value: &V) -> bool
    where
        V: Same,
        ensures { IsTrue result ↔ IsFirstFrom (root_at self.now) from key value.now }
    {
        match self.first_from(from) {
            None => false,
            Some((next, its)) => next == key && its.same(value),
        }
    }
}

// A tree with this entry alone, of as few levels as its key allows.
fn tree_of<V: Drop>(alloc: Global, key: u32, leaf: Arc<Leaf<V>>) -> Result<Root<V>, AllocError>
    ensures same { IfOk result (λ r. (q : ℕ) →
        root_at r q ≡ updated nowhere key (Some (arc_value leaf).value) q) }
    ensures tall { IfOk result (λ r. 0 < height_of r) }
{
    if key < 256 {
        let level = TwoLevels::around(alloc, key, leaf)?;
        return Ok(Root::Two(Child::of(level)));
    }
    if key < 1_048_576 {
        let level = FiveLevels::around(alloc, key, leaf)?;
        return Ok(Root::Five(Child::of(level)));
    }
    let level = EightLevels::around(alloc, key, leaf)?;
    Ok(Root::Eight(Child::of(level)))
}

// The child under three levels more.
fn three_over<V: Drop, C: Level<V>>(
    alloc: Global,
    child: Child<C>,
) -> Result<Child<Node<Node<Node<C>>>>, AllocError>
    ensures { IfOk result (λ c. (q : ℕ) →
        below (16 * (16 * (16 * C.SPAN)))
        (child_at (branch_at (branch_at (branch_at C.at C.SPAN) (16 * C.SPAN))
        (16 * (16 * C.SPAN))) c) q ≡ below C.SPAN (child_at C.at child) q) }
{
    let one = over::<V, C>(alloc, child)?;
    let two = over::<V, Node<C>>(alloc, one)?;
    over::<V, Node<Node<C>>>(alloc, two)
}

// Whether both have the same entries: they are gone through side by side.
fn same_walk<V: Same + Drop>(a: &Root<V>, b: &Root<V>) -> bool
    ensures { IsTrue result ↔ AgreesBelow (2 ^ 32) (root_at a.now) (root_at b.now) }
{
    let mut from = 0;
    while let Some((key, value)) = a.first_from(from) {
        if !b.goes_on_with(from, key, value) {
            return false;
        }
        let Some(next) = key.checked_add(1) else {
            return true;
        };
        from = next;
    }
    b.first_from(from).is_none()
}

// Whether two children have the same entries, as maps from all keys.
fn same<V: Same, C: Level<V>>(child: &Child<C>, other: &Child<C>) -> bool
    requires { C.SPAN ≤ 2 ^ 32 }
    ensures { IsTrue result ↔ AgreesBelow (2 ^ 32) (below C.SPAN (child_at C.at child.now))
        (below C.SPAN (child_at C.at other.now)) }
{
    child.same::<V>(other)
}
