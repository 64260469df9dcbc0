//! A child of a node: a level of the tree, or none.
ghost use Rattle.std.specs.Prelude.{◌≡◌, ℕ, ◌<◌, ◌≤◌, ◌^◌, ◌↔◌, ◌+◌, ◌++◌, OnOk, OnErr, Some, None, IfSome, IfOk, IsTrue, is_some, false, unwrap_or};
ghost use Rattle.std.specs.Option.{option_copied, option_map, IfNone};
ghost use Rattle.std.specs.Arc.{arc_value};
ghost use Rattle.share_tree.specs.Entries.{keys_from, moved};
ghost use Rattle.share_tree.specs.Walk.{IsNowhereFrom, IsFirstFrom};
ghost use Rattle.share_tree.specs.Digits.{updated, nowhere, child_at, AgreesBelow};

use crate::leaf::Leaf;
use crate::level::Level;
use crate::path_copy::{insert_in, remove_from, update_in};
use crate::update::Update;
use std::alloc::{AllocError, Global};
use std::marker::Model;
use std::sync::Arc;
use trace_types::same::Same;

/// A level that others may share, or none, which has no entry. Contracts see the level, if there is one.
#[derive(Drop)]
pub struct Child<C> {
    level: Option<Arc<C>>,
}

impl<C> Model for Child<C> {
    ghost use Rattle.std.specs.Prelude.{Option};
    ghost use Rattle.std.specs.Option.{option_map};
    ghost use Rattle.std.specs.Coded.{coded_option};
    ghost use Rattle.std.specs.Arc.{arc_value};

    ghost Value = { Option C };

    ghost coded = { coded_option C.code };

    ghost view = { λ c. option_map arc_value c.level };
}

impl<C> Child<C> {
    /// No child.
    pub fn none() -> Self
        ensures { result ≡ None }
    {
        Child { level: None }
    }

    /// A level as a child.
    pub fn of(level: Arc<C>) -> Self
        ensures { result ≡ Some (arc_value level) }
    {
        Child { level: Some(level) }
    }

    /// The level, if there is one.
    pub fn level(self) -> Option<Arc<C>>
        ensures { option_map arc_value result ≡ self }
    {
        self.level
    }

    /// Whether there is none.
    pub fn is_none(&self) -> bool
        ensures { IsTrue result ↔ (self.now ≡ None) }
    {
        self.level.is_none()
    }
}

impl<C: Drop> Child<C> {
    /// The same child once more.
    pub fn share(&self) -> Result<Self, AllocError>
        ensures { IfOk result (λ c. c ≡ self.now) }
    {
        match &self.level {
            None => Ok(Child { level: None }),
            Some(level) => Ok(Child {
                level: Some(Arc::try_clone(level)?),
            }),
        }
    }

    /// The value at a key.
    pub fn get<V>(&self, key: u32) -> Option<&V>
    where
        C: Level<V>,
        requires fits { C.SPAN ≤ 2 ^ 32 }
        requires within { key < C.SPAN }
        ensures { option_copied result ≡ child_at C.at self.now key }
    {
        match &self.level {
            None => None,
            Some(level) => level.get(key),
        }
    }

    /// The entry with the least key from `key` on.
    pub fn first_from<V>(&self, key: u32) -> Option<(u32, &V)>
    where
        C: Level<V>,
        requires fits { C.SPAN ≤ 2 ^ 32 }
        requires within { key < C.SPAN }
        ensures none { IfNone result (IsNowhereFrom (child_at C.at self.now) key C.SPAN) }
        ensures within { IfSome result (λ e. e.0 < C.SPAN) }
        ensures first { IfSome result (λ e. IsFirstFrom (child_at C.at self.now) key e.0 e.1.now) }
    {
        match &self.level {
            None => None,
            Some(level) => level.first_from(key),
        }
    }

    /// The child with one more entry, which is of it alone where there is none.
    pub fn with<V: Drop>(&self, alloc: Global, key: u32, value: V) -> Result<Self, AllocError>
    where
        C: Level<V>,
        requires fits { C.SPAN ≤ 2 ^ 32 }
        requires within { key < C.SPAN }
        ensures { IfOk result (λ c. (q : ℕ) → child_at C.at c q
            ≡ updated (child_at C.at self.now) key (Some value) q) }
    {
        let level = match &self.level {
            None => C::around(alloc, key, Leaf::of(alloc, value)?)?,
            Some(level) => level.with(alloc, key, value)?,
        };
        Ok(Child { level: Some(level) })
    }

    /// The child without an entry, or none where nothing is left of it.
    pub fn without<V>(&self, alloc: Global, key: u32) -> Result<Self, AllocError>
    where
        C: Level<V>,
        requires fits { C.SPAN ≤ 2 ^ 32 }
        requires within { key < C.SPAN }
        ensures { IfOk result (λ c. (q : ℕ) → child_at C.at c q
            ≡ updated (child_at C.at self.now) key None q) }
    {
        match &self.level {
            None => Ok(Child { level: None }),
            Some(level) => Ok(Child {
                level: level.without(alloc, key)?,
            }),
        }
    }

    /// One more entry, in place where nobody else holds the level. It says whether the key was there.
    #[inline(always)]
    pub fn insert<V: Drop>(&mut self, alloc: Global, key: u32, value: V) -> Result<bool, AllocError>
    where
        C: Level<V>,
        requires fits { C.SPAN ≤ 2 ^ 32 }
        requires within { key < C.SPAN }
        ensures was { IfOk result (λ was. was ≡ is_some (child_at C.at self.old key)) }
        ensures ok { OnOk result ((q : ℕ) → child_at C.at self.new q
            ≡ updated (child_at C.at self.old) key (Some value) q) }
        ensures err { OnErr result ((q : ℕ) → child_at C.at self.new q ≡ child_at C.at self.old q) }
    {
        match &mut self.level {
            None => {
                self.begin(alloc, key, value)?;
                Ok(false)
            }
            Some(level) => insert_in(alloc, level, key, value),
        }
    }

    // A level with one entry alone, where there is none.
    #[inline(never)]
    fn begin<V: Drop>(&mut self, alloc: Global, key: u32, value: V) -> Result<(), AllocError>
    where
        C: Level<V>,
        requires fits { C.SPAN ≤ 2 ^ 32 }
        requires within { key < C.SPAN }
        ensures ok { OnOk result ((q : ℕ) → child_at C.at self.new q
            ≡ updated nowhere key (Some value) q) }
        ensures err { OnErr result (self.new ≡ self.old) }
    {
        self.level = Some(C::around(alloc, key, Leaf::of(alloc, value)?)?);
        Ok(())
    }

    /// Changes the value of a key, in place where nobody else holds the level, and gives the answer; false where the key isn't there.
    #[inline(always)]
    pub fn update<V: Drop, F: Update<V>>(
        &mut self,
        alloc: Global,
        key: u32,
        how: &F,
    ) -> Result<bool, AllocError>
    where
        C: Level<V>,
        requires fits { C.SPAN ≤ 2 ^ 32 }
        requires within { key < C.SPAN }
        requires able { IfSome (child_at C.at self.old key) (F.can how.now) }
        ensures answer { IfOk result
            (λ b. b ≡ unwrap_or (option_map (F.answer how.now)
            (child_at C.at self.old key)) false) }
        ensures ok { OnOk result ((q : ℕ) → child_at C.at self.new q
            ≡ updated (child_at C.at self.old) key
            (option_map (F.to how.now) (child_at C.at self.old key)) q) }
        ensures err { OnErr result ((q : ℕ) → child_at C.at self.new q ≡ child_at C.at self.old q) }
    {
        match &mut self.level {
            None => Ok(false),
            Some(level) => update_in(alloc, level, key, how),
        }
    }

    /// Takes out an entry, in place where nobody else holds the level. None is left where nothing is left of it.
    #[inline(always)]
    pub fn remove<V>(&mut self, alloc: Global, key: u32) -> Result<(), AllocError>
    where
        C: Level<V>,
        requires fits { C.SPAN ≤ 2 ^ 32 }
        requires within { key < C.SPAN }
        ensures ok { OnOk result ((q : ℕ) → child_at C.at self.new q
            ≡ updated (child_at C.at self.old) key None q) }
        ensures err { OnErr result ((q : ℕ) → child_at C.at self.new q ≡ child_at C.at self.old q) }
    {
        match &mut self.level {
            None => Ok(()),
            Some(level) => {
                if remove_from::<V, C>(alloc, level, key)? {
                    self.end();
                }
                Ok(())
            }
        }
    }

    // No level any more. What is let go is held by value, so it stands apart.
    #[inline(never)]
    fn end(&mut self)
        ensures { self.new ≡ None }
    {
        self.level = None;
    }

    /// Adds the keys that are there, each plus `base`, in rising order.
    pub fn push_keys<V>(&self, base: u32, keys: &mut Vec<u32>) -> Result<(), AllocError>
    where
        C: Level<V>,
        requires { base + C.SPAN ≤ 2 ^ 32 }
        ensures { OnOk result (keys.new.items ≡ keys.old.items
            ++ keys_from (moved (child_at C.at self.now) base) base C.SPAN) }
    {
        match &self.level {
            None => Ok(()),
            Some(level) => level.push_keys(base, keys),
        }
    }

    /// Whether there is no entry.
    pub fn is_empty<V>(&self) -> bool
    where
        C: Level<V>,
        ensures { IsTrue result ↔ AgreesBelow C.SPAN (child_at C.at self.now) nowhere }
    {
        match &self.level {
            None => true,
            Some(level) => level.is_empty(),
        }
    }

    /// Whether both have the same entries.
    pub fn same<V: Same>(&self, other: &Self) -> bool
    where
        C: Level<V>,
        ensures { IsTrue result ↔ AgreesBelow C.SPAN (child_at C.at self.now)
            (child_at C.at other.now) }
    {
        match (&self.level, &other.level) {
            (Some(a), Some(b)) => a.same(b),
            (Some(a), None) => a.is_empty(),
            (None, Some(b)) => b.is_empty(),
            (None, None) => true,
        }
    }
}
