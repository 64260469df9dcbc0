//! The names of checkpoints: each is the number of the operation before it.
ghost use Rattle.std.specs.Prelude.{◌≡◌, ◌++◌, ◌<◌, ℕ, List, None, OnOk, true, length, option_to_list, if◌then◌else◌};
ghost use Rattle.std.specs.Ordering.{nat_cmp};
ghost use Rattle.std.specs.BTreeSet.{contains};
ghost use Rattle.run_engine.specs.inner.Onward.{AreNames};
ghost use Rattle.run_engine.specs.inner.Cleared.{is_named, cleared};
ghost use Rattle.run_engine.specs.Segments.{without_mark};

use crate::segments::blocks::Segments;
use std::alloc::AllocError;
use std::collections::BTreeSet;

/// Adds a name to a set, if there is one.
pub fn add_name(names: &mut BTreeSet<u32>, name: Option<u32>) -> Result<(), AllocError>
    ensures names { (first : List ℕ) → AreNames (contains nat_cmp names.old) first →
        OnOk result (AreNames (contains nat_cmp names.new) (first ++ option_to_list name)) }
    ensures rise { (id : ℕ) → contains nat_cmp names.old id ≡ true →
        contains nat_cmp names.new id ≡ true }
{
    if let Some(id) = name {
        names.insert(id)?;
    }
    Ok(())
}

/// Gives up the checkpoints whose names are in the set, in one pass: no segment is looked at where there is no name.
pub fn clear_named(segments: &mut Segments, names: &BTreeSet<u32>)
    ensures { segments.new ≡ cleared (contains nat_cmp names.now) None segments.old }
{
    if names.is_empty() {
        return;
    }
    let mut before = None;
    for i in 0..segments.len() {
        clear_if(segments, i, is_among(before, names));
        before = segments.at(i).last_id();
    }
}

/// Whether there is a name, and it is in the set.
pub fn is_among(name: Option<u32>, names: &BTreeSet<u32>) -> bool
    ensures { result ≡ is_named (contains nat_cmp names.now) name }
{
    match name {
        None => false,
        Some(id) => names.contains(&id),
    }
}

// Gives up a segment's checkpoint where it is to go.
fn clear_if(segments: &mut Segments, i: usize, goes: bool)
    requires { i < length segments.old }
    ensures { segments.new ≡ (if goes then without_mark segments.old i else segments.old) }
{
    if goes {
        let _ = segments.clear_mark(i);
    }
}
