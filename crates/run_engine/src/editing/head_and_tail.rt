//! What two traces have in common at their heads and tails.
ghost use Rattle.std.specs.Prelude.{◌≡◌, ℕ, ◌+◌, ◌-◌, ◌<◌, ◌≤◌, length, take, drop};
ghost use Rattle.run_engine.specs.HeadAndTail.{IsHead, IsTail};

use crate::editing::listing::Listing;

/// The length of the longest common prefix.
pub fn head(ops: &Listing) -> usize
    ensures { IsHead ops.now.base ops.now.ops result }
{
    let few = ops.base_len().min(ops.len());
    let mut at = 0;
    while at < few {
        let more = alike_from(ops, at);
        if more == 0 {
            return at;
        }
        at += more;
    }
    few
}

// How many operations from a place on are known to be those of the base there: none only where the first differs.
fn alike_from(ops: &Listing, at: usize) -> usize
    requires base { at < length ops.now.base }
    requires ops { at < length ops.now.ops }
    ensures base_within { at + result ≤ length ops.now.base }
    ensures within { at + result ≤ length ops.now.ops }
    ensures same { take result (drop at ops.now.base) ≡ take result (drop at ops.now.ops) }
    ensures none { result ≡ 0 → (n : ℕ) → take n ops.now.base ≡ take n ops.now.ops → n ≤ at }
{
    if let Some(alike) = ops.alike(at) {
        if alike.from == alike.at {
            return alike.len - (at - alike.at);
        }
    }
    let mine = ops.base_at(at);
    let other = ops.at(at);
    if mine.same(other) { 1 } else { 0 }
}

/// The length of the longest common suffix of what stands after the head.
pub fn tail(ops: &Listing, head: usize) -> usize
    requires base_within { head ≤ length ops.now.base }
    requires within { head ≤ length ops.now.ops }
    ensures { IsTail ops.now.base ops.now.ops head result }
{
    let few = (ops.base_len() - head).min(ops.len() - head);
    let mut n = 0;
    while n < few {
        let more = alike_before(ops, n);
        if more == 0 {
            return n;
        }
        n += more.min(few - n);
    }
    few
}

// How many operations before the last n are known to be those of the base there: none only where the last differs.
fn alike_before(ops: &Listing, n: usize) -> usize
    requires base { n < length ops.now.base }
    requires ops { n < length ops.now.ops }
    ensures same { (k : ℕ) → k ≤ result →
        drop (length ops.now.base - n) ops.now.base ≡ drop (length ops.now.ops - n) ops.now.ops →
        drop (length ops.now.base - (n + k)) ops.now.base
        ≡ drop (length ops.now.ops - (n + k)) ops.now.ops }
    ensures none { result ≡ 0 → (k : ℕ) → k ≤ length ops.now.base → k ≤ length ops.now.ops →
        drop (length ops.now.base - k) ops.now.base ≡ drop (length ops.now.ops - k) ops.now.ops →
        k ≤ n }
{
    let at = ops.len() - 1 - n;
    let there = ops.base_len() - 1 - n;
    if let Some(alike) = ops.alike(at) {
        let before = at - alike.at;
        if alike.from + before == there {
            return before + 1;
        }
    }
    let mine = ops.base_at(there);
    let other = ops.at(at);
    if mine.same(other) { 1 } else { 0 }
}
