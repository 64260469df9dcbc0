//! Maps of what remains, put together: the first shares its nodes with the result, and the work is that of the second.
ghost use Rattle.std.specs.Prelude.{◌≡◌, ◌==◌, ℕ, None, is_some, if◌then◌else◌, IfOk, OnOk};
ghost use Rattle.std.specs.FinMap as map;
ghost use Rattle.ownership_model.specs.Patch.{or_else};

use ownership_model::remaining::Remaining;
use share_tree::ShareTree;
use std::alloc::{AllocError, Global};

/// The first map, and what the second has beside it.
pub fn with_missing(
    alloc: Global,
    first: &ShareTree<Remaining>,
    second: &ShareTree<Remaining>,
) -> Result<ShareTree<Remaining>, AllocError>
    ensures { IfOk result (λ t. (q : ℕ) →
        map.get t q ≡ or_else (map.get first.now q) (map.get second.now q)) }
{
    let mut all = first.share()?;
    let objects = second.keys(alloc)?;
    for object in &objects {
        if !first.contains_key(*object) {
            put_copy(alloc, &mut all, *object, second)?;
        }
    }
    Ok(all)
}

/// The first map without all that the second has something for.
pub fn without_all(
    alloc: Global,
    first: &ShareTree<Remaining>,
    second: &ShareTree<Remaining>,
) -> Result<ShareTree<Remaining>, AllocError>
    ensures { IfOk result (λ t. (q : ℕ) →
        map.get t q ≡ (if is_some (map.get second.now q) then None else map.get first.now q)) }
{
    let mut rest = first.share()?;
    let objects = second.keys(alloc)?;
    for object in &objects {
        rest.remove(alloc, *object)?;
    }
    Ok(rest)
}

/// The second map, and what the first has beside it.
pub fn replaced_by(
    alloc: Global,
    first: &ShareTree<Remaining>,
    second: &ShareTree<Remaining>,
) -> Result<ShareTree<Remaining>, AllocError>
    ensures { IfOk result (λ t. (q : ℕ) →
        map.get t q ≡ or_else (map.get second.now q) (map.get first.now q)) }
{
    let mut all = first.share()?;
    let objects = second.keys(alloc)?;
    for object in &objects {
        put_copy(alloc, &mut all, *object, second)?;
    }
    Ok(all)
}

// Puts a copy of what another map has for an object in its place, if there is anything.
fn put_copy(
    alloc: Global,
    all: &mut ShareTree<Remaining>,
    object: u32,
    from: &ShareTree<Remaining>,
) -> Result<(), AllocError>
    ensures { OnOk result ((q : ℕ) →
        map.get all.new q ≡ or_else (if object == q then map.get from.now q else None) (map.get all.old q)) }
{
    match from.get(object) {
        Some(remaining) => {
            let copy = copy_of(remaining)?;
            all.insert(alloc, object, copy)
        }
        None => Ok(()),
    }
}

fn copy_of(remaining: &Remaining) -> Result<Remaining, AllocError>
    ensures { IfOk result (λ r. r ≡ remaining.now) }
{
    Ok(Remaining {
        entry: remaining.entry.clone()?,
        strong: remaining.strong,
        weak: remaining.weak,
    })
}
