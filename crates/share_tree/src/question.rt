//! What a tree is asked, whatever its levels. A child is asked as a map from all keys: from its span on it has nothing.
ghost use Rattle.std.specs.Prelude.{◌≡◌, ℕ, ◌<◌, ◌≤◌, ◌^◌, Option, IfSome, IfOk};
ghost use Rattle.std.specs.Option.{option_copied, IfNone};
ghost use Rattle.share_tree.specs.Entries.{keys_from};
ghost use Rattle.share_tree.specs.Walk.{IsNowhereFrom, IsFirstFrom};
ghost use Rattle.share_tree.specs.Digits.{below, child_at};

use crate::child::Child;
use crate::level::Level;
use std::alloc::{AllocError, Global};

/// A question of a map. Contracts see what an answer says of what the map has at each key.
pub trait Question<'a, V> {
    type Answer;

    ghost says: { Self → (ℕ → Option V) → Self.Answer → Type 0 };

    fn ask<C: Level<V>>(self, child: &'a Child<C>) -> Self::Answer
        requires { C.SPAN ≤ 2 ^ 32 }
        ensures { says self (below C.SPAN (child_at C.at child.now)) result };
}

/// The value at a key.
#[derive(Drop)]
pub struct Get {
    pub key: u32,
}

impl<'a, V: 'a> Question<'a, V> for Get {
    type Answer = Option<&'a V>;

    ghost says = { λ get f found. option_copied found ≡ f get.key };

    #[inline(always)]
    fn ask<C: Level<V>>(self, child: &'a Child<C>) -> Option<&'a V> {
        if self.key as u64 >= C::span() {
            return None;
        }
        child.get(self.key)
    }
}

/// The entry with the least key from `key` on.
#[derive(Drop)]
pub struct FirstFrom {
    pub key: u32,
}

impl<'a, V: 'a> Question<'a, V> for FirstFrom {
    type Answer = Option<(u32, &'a V)>;

    ghost says = { λ first f found. IfNone found (IsNowhereFrom f first.key (2 ^ 32)) × IfSome found (λ e. e.0 < 2 ^ 32) × IfSome found (λ e. IsFirstFrom f first.key e.0 e.1.now) };

    #[inline(always)]
    fn ask<C: Level<V>>(self, child: &'a Child<C>) -> Option<(u32, &'a V)> {
        if self.key as u64 >= C::span() {
            return None;
        }
        child.first_from(self.key)
    }
}

/// The keys that are there, in rising order.
#[derive(Drop)]
pub struct Keys {
    pub alloc: Global,
}

impl<'a, V> Question<'a, V> for Keys {
    type Answer = Result<Vec<u32>, AllocError>;

    ghost says = { λ _ f keys. IfOk keys (λ v. v.items ≡ keys_from f 0 (2 ^ 32)) };

    fn ask<C: Level<V>>(self, child: &'a Child<C>) -> Result<Vec<u32>, AllocError> {
        let mut keys = Vec::new(self.alloc);
        child.push_keys::<V>(0, &mut keys)?;
        Ok(keys)
    }
}
