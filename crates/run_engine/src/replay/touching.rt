//! The names of a replay's checkpoints are touched on a shelf.
ghost use Rattle.std.specs.Prelude.{◌≡◌, ◌+◌, ◌^◌, ◌<◌, ◌≤◌, ◌∷◌, [], IfSome, OnOk, Some, length, take, drop, option_to_list};
ghost use Rattle.std.specs.Ordering.{nat_cmp};
ghost use Rattle.std.specs.BTreeSet.{contains};
ghost use Rattle.run_engine.specs.GivenUp.{name_at, names_at};
ghost use Rattle.run_engine.specs.Segments.{trace_of};
ghost use Rattle.run_engine.specs.inner.Onward.{begins, cuts, AreAnswered};

use crate::editing::listing::Listing;
use crate::replay::prefix::STRIDE;
use crate::segments::blocks::Segments;
use crate::segments::names::add_name;
use mark_shelf::MarkShelf;
use std::alloc::AllocError;
use std::collections::BTreeSet;

/// Touches the names of the inner checkpoints at the cuts from one position on below another, in order, and adds those that are answered.
pub fn touch_ahead(
    ops: &Listing,
    from: usize,
    to: usize,
    shelf: &mut MarkShelf,
    answered: &mut BTreeSet<u32>,
) -> Result<(), AllocError>
    requires order { from ≤ to }
    ensures answered { OnOk result
        (AreAnswered shelf.old shelf.new (names_at ops.now.ops (cuts from to))
        (contains nat_cmp answered.old) (contains nat_cmp answered.new)) }
{
    let mut at = from;
    while at < to {
        touch_at(ops, at, shelf, answered)?;
        at += (to - at).min(STRIDE);
    }
    Ok(())
}

/// Touches the names of the inner checkpoints with which segments begin, whose operations stand from a position on, in order, and adds those that
/// are answered. The number of the last operation of a segment is kept beside it, so that only the first name is looked up.
pub fn touch_each(
    ops: &Listing,
    from: usize,
    segments: &Segments,
    shelf: &mut MarkShelf,
    answered: &mut BTreeSet<u32>,
) -> Result<(), AllocError>
    requires fits { from + length (trace_of segments.now) < 2 ^ 64 }
    requires within { from ≤ length ops.now.ops }
    requires there { take (length (trace_of segments.now)) (drop from ops.now.ops)
        ≡ trace_of segments.now }
    ensures answered { OnOk result
        (AreAnswered shelf.old shelf.new (names_at ops.now.ops (begins from segments.now))
        (contains nat_cmp answered.old) (contains nat_cmp answered.new)) }
{
    let mut at = from;
    let mut before = None;
    for i in 0..segments.len() {
        touch_behind(ops, at, before, shelf, answered)?;
        let segment = segments.at(i);
        before = segment.last_id();
        at += segment.ops().len();
    }
    Ok(())
}

/// Touches the name of the checkpoint at a position, if it is an inner one, and adds the name that is answered.
pub fn touch_at(
    ops: &Listing,
    at: usize,
    shelf: &mut MarkShelf,
    answered: &mut BTreeSet<u32>,
) -> Result<(), AllocError>
    ensures answered { OnOk result
        (AreAnswered shelf.old shelf.new (names_at ops.now.ops (at ∷ []))
        (contains nat_cmp answered.old) (contains nat_cmp answered.new)) }
{
    touch_behind(ops, at, None, shelf, answered)
}

// As `touch_at`, where the number of the operation before the position may be known.
fn touch_behind(
    ops: &Listing,
    at: usize,
    before: Option<u32>,
    shelf: &mut MarkShelf,
    answered: &mut BTreeSet<u32>,
) -> Result<(), AllocError>
    requires { IfSome before (λ id. name_at ops.now.ops at ≡ Some id) }
    ensures answered { OnOk result
        (AreAnswered shelf.old shelf.new (names_at ops.now.ops (at ∷ []))
        (contains nat_cmp answered.old) (contains nat_cmp answered.new)) }
{
    if let Some(name) = name_behind(ops, at, before) {
        add_name(answered, shelf.touch(name))?;
    }
    Ok(())
}

// The name of the inner checkpoint at a position, where the number of the operation before that may be known.
fn name_behind(ops: &Listing, at: usize, before: Option<u32>) -> Option<u32>
    requires { IfSome before (λ id. name_at ops.now.ops at ≡ Some id) }
    ensures { option_to_list result ≡ names_at ops.now.ops (at ∷ []) }
{
    let Some(id) = before else {
        return inner_name(ops, at);
    };
    if at < ops.len() { Some(id) } else { None }
}

/// The name of the inner checkpoint at a position: none stands at the beginning or at the end.
pub fn inner_name(ops: &Listing, at: usize) -> Option<u32>
    ensures { option_to_list result ≡ names_at ops.now.ops (at ∷ []) }
{
    if at == 0 || at >= ops.len() {
        return None;
    }
    let op = ops.at(at - 1);
    Some(op.id())
}
