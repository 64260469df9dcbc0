//! What is changed in a tree, whatever its levels: what the map has at one key.
ghost use Rattle.std.specs.Prelude.{◌≡◌, ℕ, ◌<◌, ◌≤◌, ◌^◌, ⊤, Bool, Option, Some, None, OnOk, OnErr, IfSome, IfOk, is_some, false, unwrap_or};
ghost use Rattle.std.specs.Option.{option_map};
ghost use Rattle.share_tree.specs.Digits.{updated, below, child_at};

use crate::child::Child;
use crate::level::Level;
use crate::update::Update;
use std::alloc::{AllocError, Global};

/// A change of a map at one key. Contracts see what becomes of what the map has there.
pub trait Change<V> {
    ghost key: { Self → ℕ };

    // It can be made in a map of the keys below a span that has this there.
    ghost can: { Self → ℕ → Option V → Type 0 };

    ghost to: { Self → Option V → Option V };

    // What it answers of what was there.
    ghost answer: { Self → Option V → Bool };

    // Makes it in a child, in place where nobody else holds the level.
    fn change<C: Level<V>>(self, alloc: Global, child: &mut Child<C>) -> Result<bool, AllocError>
        requires fits { C.SPAN ≤ 2 ^ 32 }
        requires able { can self C.SPAN (below C.SPAN (child_at C.at child.old) (key self)) }
        ensures answer { IfOk result
            (λ b. b ≡ answer self (below C.SPAN (child_at C.at child.old) (key self))) }
        ensures ok { OnOk result ((q : ℕ) → below C.SPAN (child_at C.at child.new) q
            ≡ updated (below C.SPAN (child_at C.at child.old)) (key self)
            (to self (below C.SPAN (child_at C.at child.old) (key self))) q) }
        ensures err { OnErr result ((q : ℕ) →
            below C.SPAN (child_at C.at child.new) q ≡ below C.SPAN (child_at C.at child.old) q) };
}

/// One more entry. It says whether the key was there.
pub struct Insert<V> {
    pub key: u32,
    pub value: V,
}

impl<V: Drop> Change<V> for Insert<V> {
    ghost key = { λ insert. insert.key };

    ghost can = { λ insert span _. insert.key < span };

    ghost to = { λ insert _. Some insert.value };

    ghost answer = { λ _ was. is_some was };

    #[inline(always)]
    fn change<C: Level<V>>(self, alloc: Global, child: &mut Child<C>) -> Result<bool, AllocError> {
        let Insert { key, value } = self;
        child.insert(alloc, key, value)
    }
}

/// The value of a key changed, and the answer; false where the key isn't there.
#[derive(Drop)]
pub struct Set<'a, F> {
    pub key: u32,
    pub how: &'a F,
}

impl<'a, V: Drop, F: Update<V>> Change<V> for Set<'a, F> {
    ghost key = { λ set. set.key };

    ghost can = { λ set _ was. IfSome was (F.can set.how.now) };

    ghost to = { λ set was. option_map (F.to set.how.now) was };

    ghost answer = { λ set was. unwrap_or (option_map (F.answer set.how.now) was) false };

    #[inline(always)]
    fn change<C: Level<V>>(self, alloc: Global, child: &mut Child<C>) -> Result<bool, AllocError> {
        if self.key as u64 >= C::span() {
            return Ok(false);
        }
        child.update(alloc, self.key, self.how)
    }
}

/// An entry taken out.
#[derive(Drop)]
pub struct Remove {
    pub key: u32,
}

impl<V> Change<V> for Remove {
    ghost key = { λ remove. remove.key };

    ghost can = { λ _ _ _. ⊤ };

    ghost to = { λ _ _. None };

    ghost answer = { λ _ _. false };

    #[inline(always)]
    fn change<C: Level<V>>(self, alloc: Global, child: &mut Child<C>) -> Result<bool, AllocError> {
        if self.key as u64 >= C::span() {
            return Ok(false);
        }
        child.remove::<V>(alloc, self.key)?;
        Ok(false)
    }
}
