//! A level changed at one key: where it stands if nobody else holds it, and else by a copy of the key's path.
ghost use Rattle.std.specs.Prelude.{◌≡◌, ℕ, ◌<◌, ◌≤◌, ◌^◌, OnOk, OnErr, None, Some, IfSome, IfOk, IsTrue, is_some, false, unwrap_or};
ghost use Rattle.std.specs.Bool.{IsFalse};
ghost use Rattle.std.specs.Option.{option_map};
ghost use Rattle.std.specs.Arc.{arc_value};
ghost use Rattle.share_tree.specs.Digits.{updated};

use crate::level::Level;
use crate::update::Update;
use std::alloc::{AllocError, Global};
use std::sync::Arc;

/// One more entry in a level, changed where nobody else holds it. It says whether the key was there.
#[inline(always)]
pub fn insert_in<V, C: Level<V>>(
    alloc: Global,
    level: &mut Arc<C>,
    key: u32,
    value: V,
) -> Result<bool, AllocError>
    requires fits { C.SPAN ≤ 2 ^ 32 }
    requires within { key < C.SPAN }
    ensures was { IfOk result (λ was. was ≡ is_some (C.at (arc_value level.old) key)) }
    ensures ok { OnOk result ((q : ℕ) → C.at (arc_value level.new) q
        ≡ updated (C.at (arc_value level.old)) key (Some value) q) }
    ensures err { OnErr result ((q : ℕ) →
        C.at (arc_value level.new) q ≡ C.at (arc_value level.old) q) }
{
    if let Some(own) = Arc::get_mut(level) {
        return own.insert(alloc, key, value);
    }
    insert_in_copy(alloc, level, key, value)
}

// As `insert_in`, in a copy of the level. A copy is held by value while it is made, so it stands apart.
#[inline(never)]
fn insert_in_copy<V, C: Level<V>>(
    alloc: Global,
    level: &mut Arc<C>,
    key: u32,
    value: V,
) -> Result<bool, AllocError>
    requires fits { C.SPAN ≤ 2 ^ 32 }
    requires within { key < C.SPAN }
    ensures was { IfOk result (λ was. was ≡ is_some (C.at (arc_value level.old) key)) }
    ensures ok { OnOk result ((q : ℕ) → C.at (arc_value level.new) q
        ≡ updated (C.at (arc_value level.old)) key (Some value) q) }
    ensures err { OnErr result ((q : ℕ) →
        C.at (arc_value level.new) q ≡ C.at (arc_value level.old) q) }
{
    let was = level.get(key).is_some();
    *level = level.with(alloc, key, value)?;
    Ok(was)
}

/// The value of a key changed in a level, in place where nobody else holds it, and the answer; false where the key isn't there.
#[inline(always)]
pub fn update_in<V: Drop, C: Level<V>, F: Update<V>>(
    alloc: Global,
    level: &mut Arc<C>,
    key: u32,
    how: &F,
) -> Result<bool, AllocError>
    requires fits { C.SPAN ≤ 2 ^ 32 }
    requires within { key < C.SPAN }
    requires able { IfSome (C.at (arc_value level.old) key) (F.can how.now) }
    ensures answer { IfOk result
        (λ b. b ≡ unwrap_or (option_map (F.answer how.now)
        (C.at (arc_value level.old) key)) false) }
    ensures ok { OnOk result ((q : ℕ) → C.at (arc_value level.new) q
        ≡ updated (C.at (arc_value level.old)) key
        (option_map (F.to how.now) (C.at (arc_value level.old) key)) q) }
    ensures err { OnErr result ((q : ℕ) →
        C.at (arc_value level.new) q ≡ C.at (arc_value level.old) q) }
{
    if let Some(own) = Arc::get_mut(level) {
        return own.update(alloc, key, how);
    }
    update_in_copy(alloc, level, key, how)
}

// As `update_in`, in a copy of the level.
#[inline(never)]
fn update_in_copy<V: Drop, C: Level<V>, F: Update<V>>(
    alloc: Global,
    level: &mut Arc<C>,
    key: u32,
    how: &F,
) -> Result<bool, AllocError>
    requires fits { C.SPAN ≤ 2 ^ 32 }
    requires within { key < C.SPAN }
    requires able { IfSome (C.at (arc_value level.old) key) (F.can how.now) }
    ensures answer { IfOk result
        (λ b. b ≡ unwrap_or (option_map (F.answer how.now)
        (C.at (arc_value level.old) key)) false) }
    ensures ok { OnOk result ((q : ℕ) → C.at (arc_value level.new) q
        ≡ updated (C.at (arc_value level.old)) key
        (option_map (F.to how.now) (C.at (arc_value level.old) key)) q) }
    ensures err { OnErr result ((q : ℕ) →
        C.at (arc_value level.new) q ≡ C.at (arc_value level.old) q) }
{
    let Some(value) = level.get(key) else {
        return Ok(false);
    };
    let (value, answer) = how.updated(alloc, value)?;
    *level = level.with(alloc, key, value)?;
    Ok(answer)
}

/// A level without an entry, changed where nobody else holds it. It says whether nothing is left.
#[inline(always)]
pub fn remove_from<V, C: Level<V>>(
    alloc: Global,
    level: &mut Arc<C>,
    key: u32,
) -> Result<bool, AllocError>
    requires fits { C.SPAN ≤ 2 ^ 32 }
    requires within { key < C.SPAN }
    ensures rest { IfOk result (λ last. IsFalse last → (q : ℕ) →
        C.at (arc_value level.new) q ≡ updated (C.at (arc_value level.old)) key None q) }
    ensures last { IfOk result (λ last. IsTrue last → (q : ℕ) →
        updated (C.at (arc_value level.old)) key None q ≡ None) }
    ensures err { OnErr result ((q : ℕ) →
        C.at (arc_value level.new) q ≡ C.at (arc_value level.old) q) }
{
    if let Some(own) = Arc::get_mut(level) {
        return own.remove(alloc, key);
    }
    remove_from_copy::<V, C>(alloc, level, key)
}

// As `remove_from`, in a copy of the level.
#[inline(never)]
fn remove_from_copy<V, C: Level<V>>(
    alloc: Global,
    level: &mut Arc<C>,
    key: u32,
) -> Result<bool, AllocError>
    requires fits { C.SPAN ≤ 2 ^ 32 }
    requires within { key < C.SPAN }
    ensures rest { IfOk result (λ last. IsFalse last → (q : ℕ) →
        C.at (arc_value level.new) q ≡ updated (C.at (arc_value level.old)) key None q) }
    ensures last { IfOk result (λ last. IsTrue last → (q : ℕ) →
        updated (C.at (arc_value level.old)) key None q ≡ None) }
    ensures err { OnErr result ((q : ℕ) →
        C.at (arc_value level.new) q ≡ C.at (arc_value level.old) q) }
{
    match level.without(alloc, key)? {
        None => Ok(true),
        Some(rest) => {
            *level = rest;
            Ok(false)
        }
    }
}
