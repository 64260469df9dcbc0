//! The level over the leaves: sixteen places, each with a leaf or with none.
ghost use Rattle.std.specs.Prelude.{◌≡◌, ℕ, ◌<◌, ◌≤◌, ◌++◌, OnOk, OnErr, IfOk, IfSome, Some, None, length, nat_eq, slice_index_or, if◌then◌else◌};
ghost use Rattle.std.specs.Option.{option_copied, IfNone};
ghost use Rattle.std.specs.Arc.{arc_value};
ghost use Rattle.std.proofs.Common.{arith};
ghost use Rattle.share_tree.specs.Digits.{updated, nowhere, child_of, HasChild};
ghost use Rattle.share_tree.specs.LeafNodes.{values_of};

use crate::leaf::{Leaf, put_in, update_in};
use crate::level::Level;
use crate::update::Update;
use std::alloc::{AllocError, Global};
use std::marker::Model;
use std::sync::Arc;
use trace_types::same::Same;

// Stands for no leaf.
const NONE: u8 = 255;

// How many places there are.
const PLACES: usize = 16;

/// The leaves that are there, in any order, and of each place where its leaf stands among them. The leaves lie apart, so that few of them
/// take little memory, and a copy as well. Contracts see the values, by their places.
#[derive(Drop)]
pub struct LeafNode<V> {
    order: [u8; 16],
    leaves: Vec<Arc<Leaf<V>>>,
}

impl<V> Model for LeafNode<V> {
    ghost use Rattle.std.specs.Prelude.{List, Option, length};
    ghost use Rattle.std.specs.Coded.{coded_list, coded_option};
    ghost use Rattle.share_tree.specs.LeafNodes.{IsOrder, values_of, places_of};

    ghost Value = { List (Option V) };

    ghost coded = { coded_list (coded_option V.code) };

    ghost view = { λ t. places_of t.order (values_of t.leaves.items) };

    ghost invariant = { λ t. IsOrder t.order (length t.leaves.items) };
}

// Where the leaf of a place stands among so many leaves, if it has one.
#[inline(always)]
fn stand_of(order: &[u8; 16], leaves: usize, place: u32) -> Option<usize>
    requires { place < 16 }
    ensures within { IfSome result (λ at. at < leaves) }
    ensures stands { IfSome result (λ at. at ≡ slice_index_or order.now place 255) }
    ensures none { IfNone result (leaves ≤ slice_index_or order.now place 255) }
{
    let at = order[place as usize] as usize;
    if at < leaves { Some(at) } else { None }
}

impl<V: Drop> LeafNode<V> {
    // The value of a place.
    #[inline(always)]
    fn value(&self, place: u32) -> Option<&V>
        requires { place < 16 }
        ensures { option_copied result ≡ child_of self.now place }
    {
        match stand_of(&self.order, self.leaves.len(), place) {
            None => None,
            Some(at) => Some(self.leaves[at].value()),
        }
    }

    // A leaf for a place that has none.
    #[inline(never)]
    fn add(&mut self, place: u32, leaf: Arc<Leaf<V>>) -> Result<(), AllocError>
        requires within { place < 16 }
        requires none { child_of self.old place ≡ None }
        ensures ok { OnOk result ((q : ℕ) → child_of self.new q
            ≡ updated (child_of self.old) place (Some (arc_value leaf).value) q) }
        ensures err { OnErr result (self.new ≡ self.old) }
    {
        let len = self.leaves.len();
        make_room(&mut self.leaves)?;
        self.leaves.push(leaf)?;
        self.order[place as usize] = len as u8;
        Ok(())
    }

    // Lets the leaf of a place go, if there is one. The last leaf comes to stand where it stood.
    fn take_out(&mut self, place: u32)
        requires { place < 16 }
        ensures { (q : ℕ) → child_of self.new q ≡ updated (child_of self.old) place None q }
    {
        let len = self.leaves.len();
        let Some(at) = stand_of(&self.order, len, place) else {
            return;
        };
        let mut order = renamed(self.order, (len - 1) as u8, at as u8);
        order[place as usize] = NONE;
        self.order = order;
        let _gone = self.leaves.swap_remove(at);
    }

    // A copy in which a place has this leaf, and the other leaves are shared.
    fn copied_with(&self, alloc: Global, place: u32, leaf: Arc<Leaf<V>>) -> Result<Self, AllocError>
        requires { place < 16 }
        ensures { IfOk result (λ t. (q : ℕ) → child_of t q
            ≡ updated (child_of self.now) place (Some (arc_value leaf).value) q) }
    {
        let len = self.leaves.len();
        let Some(at) = stand_of(&self.order, len, place) else {
            let mut copy = self.copied(alloc, 1)?;
            copy.add(place, leaf)?;
            return Ok(copy);
        };
        let mut leaves = Vec::with_capacity(alloc, len)?;
        push_shares(&mut leaves, &self.leaves[..at])?;
        leaves.push(leaf)?;
        push_shares(&mut leaves, &self.leaves[at + 1..])?;
        Ok(LeafNode {
            order: self.order,
            leaves,
        })
    }
    // A copy, with room for so many leaves more. The leaves are shared.
    fn copied(&self, alloc: Global, more: usize) -> Result<Self, AllocError>
        requires { more ≤ 1 }
        ensures { IfOk result (λ t. t ≡ self.now) }
    {
        let mut leaves = Vec::with_capacity(alloc, self.leaves.len() + more)?;
        push_shares(&mut leaves, &self.leaves)?;
        Ok(LeafNode {
            order: self.order,
            leaves,
        })
    }
}

// Room for one leaf more, where there is none: for twice as many, and for no more than there are places.
fn make_room<V: Drop>(leaves: &mut Vec<Arc<Leaf<V>>>) -> Result<(), AllocError>
    ensures { leaves.new.items ≡ leaves.old.items }
{
    let len = leaves.len();
    if len == leaves.capacity() {
        leaves.reserve_exact(len.min(PLACES.saturating_sub(len)))?;
    }
    Ok(())
}

// Adds shares of these leaves.
fn push_shares<V: Drop>(
    leaves: &mut Vec<Arc<Leaf<V>>>,
    shared: &[Arc<Leaf<V>>],
) -> Result<(), AllocError>
    ensures { OnOk result (values_of leaves.new.items ≡ values_of leaves.old.items
        ++ values_of shared.now) }
{
    for leaf in shared {
        leaves.push(Arc::try_clone(leaf)?)?;
    }
    Ok(())
}

// The order, with `to` wherever `from` stands.
fn renamed(order: [u8; 16], from: u8, to: u8) -> [u8; 16]
    ensures long { length result ≡ 16 }
    ensures each { (p : ℕ) → p < 16 → slice_index_or result p 255
        ≡ (if nat_eq (slice_index_or order p 255) from then to else slice_index_or order p 255) }
{
    let mut renamed = order;
    for i in 0..16 {
        renamed[i] = if order[i] == from { to } else { order[i] };
    }
    renamed
}

// A node with one leaf, and room for fifteen more.
fn leaf_node_of<V: Drop>(
    alloc: Global,
    place: u32,
    leaf: Arc<Leaf<V>>,
) -> Result<Arc<LeafNode<V>>, AllocError>
    requires { place < 16 }
    ensures { IfOk result (λ t. (q : ℕ) → child_of (arc_value t) q
        ≡ updated nowhere place (Some (arc_value leaf).value) q) }
{
    let mut node = LeafNode {
        order: [NONE; 16],
        leaves: Vec::with_capacity(alloc, PLACES)?,
    };
    node.add(place, leaf)?;
    Ok(Arc::new(alloc, node)?)
}

impl<V: Drop> Level<V> for LeafNode<V> {
    ghost SPAN = { 16 };

    ghost at = { child_of };

    ghost HasRest = { HasChild };

    fn span() -> u64 {
        16
    }

    fn get(&self, key: u32) -> Option<&V> {
        self.value(key)
    }

    fn around(alloc: Global, key: u32, leaf: Arc<Leaf<V>>) -> Result<Arc<Self>, AllocError>
        requires { key < 16 }
        ensures { IfOk result (λ t. (q : ℕ) → child_of (arc_value t) q
            ≡ updated nowhere key (Some (arc_value leaf).value) q) }
    {
        leaf_node_of(alloc, key, leaf)
    }

    fn with(&self, alloc: Global, key: u32, value: V) -> Result<Arc<Self>, AllocError> {
        let leaf = Leaf::of(alloc, value)?;
        let copy = self.copied_with(alloc, key, leaf)?;
        Ok(Arc::new(alloc, copy)?)
    }

    fn without(&self, alloc: Global, key: u32) -> Result<Option<Arc<Self>>, AllocError> {
        let mut copy = self.copied(alloc, 0)?;
        copy.take_out(key);
        if copy.leaves.is_empty() {
            return Ok(None);
        }
        Ok(Some(Arc::new(alloc, copy)?))
    }

    #[inline(always)]
    fn insert(&mut self, alloc: Global, key: u32, value: V) -> Result<bool, AllocError> {
        if let Some(at) = stand_of(&self.order, self.leaves.len(), key) {
            put_in(alloc, &mut self.leaves[at], value)?;
            return Ok(true);
        }
        let leaf = Leaf::of(alloc, value)?;
        self.add(key, leaf)?;
        Ok(false)
    }

    #[inline(always)]
    fn update<F: Update<V>>(
        &mut self,
        alloc: Global,
        key: u32,
        how: &F,
    ) -> Result<bool, AllocError> {
        let Some(at) = stand_of(&self.order, self.leaves.len(), key) else {
            return Ok(false);
        };
        let answer = update_in(alloc, &mut self.leaves[at], how)?;
        Ok(answer)
    }

    #[inline(always)]
    fn remove(&mut self, _alloc: Global, key: u32) -> Result<bool, AllocError> {
        self.take_out(key);
        Ok(self.leaves.is_empty())
    }

    fn first_from(&self, key: u32) -> Option<(u32, &V)> {
        for i in key..16 {
            if let Some(value) = self.value(i) {
                return Some((i, value));
            }
        }
        None
    }

    fn push_keys(&self, base: u32, keys: &mut Vec<u32>) -> Result<(), AllocError> {
        for i in 0..16 {
            if let Some(_) = self.value(i) {
                keys.push(base + i)?;
            }
        }
        Ok(())
    }

    fn is_empty(&self) -> bool {
        for i in 0..16 {
            if let Some(_) = self.value(i) {
                return false;
            }
        }
        true
    }

    fn same(&self, other: &Self) -> bool
    where
        V: Same,
    {
        for i in 0..16 {
            match (self.value(i), other.value(i)) {
                (Some(a), Some(b)) => if !a.same(b) {
                    return false;
                },
                (None, None) => {}
                _ => return false,
            }
        }
        true
    }

    ghost positive = { Prim.omega arith };
}
