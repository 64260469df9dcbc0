//! Whether two heaps agree on what can be reached.
ghost use Rattle.std.specs.Prelude.{◌≡◌, ◌↔◌, is_some, IfOk, IfSome, IsTrue};
ghost use Rattle.std.specs.Ordering.{nat_cmp};
ghost use Rattle.std.specs.FinMap as map;
ghost use Rattle.std.specs.BTreeSet.{contains};
ghost use Rattle.ownership_model.specs.Laws.{ReplayAlike};
ghost use Rattle.agreement.specs.Agreement.{Agree, AreRemains, is_apart};
ghost use Rattle.agreement.specs.Gathering.{AgreeAt, AgreeOn};

use crate::gathering::unreached;
use crate::remains::Remains;
use object_heap::Heap;
use object_heap::reach::reach;
use ownership_model::link::Link;
use std::alloc::{AllocError, Global};
use std::collections::BTreeSet;
use trace_types::same::Same;

/// The remains of both heaps, where they agree: what handles and cells hold and the scopes are equal, and all that can be reached
/// from there by strong or weak slots is the same in both, with both of its counts. Then whatever operations follow are replayed
/// alike.
pub fn agree(alloc: Global, new: &Heap, old: &Heap) -> Result<Option<Remains>, AllocError>
    ensures answer { IfOk result (λ r. IsTrue (is_some r) ↔ Agree new.now old.now) }
    ensures remains { IfOk result (λ r. IfSome r (λ x. AreRemains new.now old.now x)) }
    ensures law { IfOk result
        (λ r. IfSome r (λ x. ReplayAlike (is_apart new.now old.now) new.now old.now x)) }
{
    if !new.same_roots(old) {
        return Ok(None);
    }
    let reached = reach(alloc, new, Link::StrongOrWeak)?;
    if !agree_on(new, old, &reached) {
        return Ok(None);
    }
    let removed = unreached(alloc, old, &reached)?;
    let added = unreached(alloc, new, &reached)?;
    let remains = Remains::new(alloc, removed, added)?;
    Ok(Some(remains))
}

fn agree_on(new: &Heap, old: &Heap, objects: &BTreeSet<u32>) -> bool
    ensures { IsTrue result ↔ AgreeOn (λ o. contains nat_cmp objects.now o) new.now old.now }
{
    for object in objects {
        if !agree_at(new, old, *object) {
            return false;
        }
    }
    true
}

/// Whether the object is the same in both, with both of its counts.
pub fn agree_at(new: &Heap, old: &Heap, object: u32) -> bool
    ensures { IsTrue result ↔ AgreeAt new.now old.now object }
{
    is_same_entry(new, old, object) && new.counts(object) == old.counts(object)
}

/// Whether the same stands for the object in both.
pub fn is_same_entry(new: &Heap, old: &Heap, object: u32) -> bool
    ensures { IsTrue result ↔ (map.get new.now.objects object ≡ map.get old.now.objects object) }
{
    match (new.object(object), old.object(object)) {
        (Some(entry), Some(other)) => entry.same(other),
        (None, None) => true,
        (Some(_), None) | (None, Some(_)) => false,
    }
}
