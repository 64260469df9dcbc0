//! Heaps of one replay compared with those of another: the trail to a difference that was found before is followed first, and then the
//! objects are looked at where they may differ.
ghost use Rattle.std.specs.Prelude.{◌≡◌, false, IfOk, IfSome, OnOk, IsTrue};
ghost use Rattle.ownership_model.specs.Agrees.{HaveSameRoots};
ghost use Rattle.ownership_model.specs.Touched.{AgreeOutside};
ghost use Rattle.agreement.specs.Agreement.{Agree};
ghost use Rattle.agreement.specs.Meeting.{Meets};

use crate::agree::agree;
use crate::among::{island_among, sure_difference};
use crate::differing::differing_object;
use crate::near::near_root;
use crate::remains::Remains;
use crate::suspects::Suspects;
use crate::trail::{Trail, refutes};
use object_heap::Heap;
use std::alloc::{AllocError, Global};
use trace_types::limits::MAX_THREAD;

/// How a new heap stands to an old one.
#[derive(Drop)]
pub enum Meeting {
    /// They don't agree on what can be reached.
    Apart,
    Same,
    /// They agree on what can be reached, and differ at most at the remains.
    Alike(Remains),
}

// Whether a trail is kept that still leads to a difference.
fn is_refuted(seen: &Option<Trail>, new: &Heap, old: &Heap) -> bool
    ensures { IsTrue result → ¬ (Agree new.now old.now) }
{
    match seen {
        None => false,
        Some(trail) => refutes(trail, new, old),
    }
}

/// Whether the heaps are told apart where no suspect is asked: by the trail that is kept, or else by their handles, cells and scopes. Where
/// these differ the trail leads to a difference there from now on.
pub fn are_told_apart(
    alloc: Global,
    new: &Heap,
    old: &Heap,
    seen: &mut Option<Trail>,
) -> Result<bool, AllocError>
    ensures apart { IfOk result (λ told. IsTrue told → ¬ (Agree new.now old.now)) }
    ensures roots { IfOk result (λ told. told ≡ false → HaveSameRoots new.now old.now) }
{
    if is_refuted(seen, new, old) {
        return Ok(true);
    }
    if new.same_roots(old) {
        return Ok(false);
    }
    *seen = trail_to_root(alloc, new, old)?;
    Ok(true)
}

/// As `meet_among`, of heaps of which nothing is known: all objects are suspects, unless they are told apart before.
pub fn meet(
    alloc: Global,
    new: &Heap,
    old: &Heap,
    seen: &mut Option<Trail>,
) -> Result<Meeting, AllocError>
    ensures { IfOk result (Meets new.now old.now) }
{
    let told = are_told_apart(alloc, new, old, seen)?;
    if told {
        return Ok(Meeting::Apart);
    }
    let mut suspects = Suspects::of_both(alloc, new, old)?;
    meet_rooted(alloc, new, old, &mut suspects, seen)
}

/// Compares a new heap with an old one that differs from it at most at the suspects.
///
/// Where the trail still leads to a difference nothing else is looked at. Where the roots are the same `meet_rooted` compares them. Else
/// they don't agree, and the trail is replaced by one to a difference there, if any is found.
pub fn meet_among(
    alloc: Global,
    new: &Heap,
    old: &Heap,
    suspects: &mut Suspects,
    seen: &mut Option<Trail>,
) -> Result<Meeting, AllocError>
    requires { AgreeOutside suspects.old new.now old.now }
    ensures meets { IfOk result (Meets new.now old.now) }
    ensures outside { OnOk result (AgreeOutside suspects.new new.now old.now) }
{
    let told = are_told_apart(alloc, new, old, seen)?;
    if told {
        return Ok(Meeting::Apart);
    }
    meet_rooted(alloc, new, old, suspects, seen)
}

/// Compares a new heap with an old one that has the same roots and differs from it at most at the suspects.
///
/// The suspects are settled: those that are the same in both are dropped. With none left the heaps are the same; with one that is surely
/// reached they don't agree, and it is the trail from now on; and where those left, with all that differs with them, are an island, they
/// agree but for it. The work is, up to here, that of the suspects and of their fields. Else the trail is replaced by one to a
/// difference, if any is found: then they don't agree. First it is looked for near a root, to a suspect that differs by what stands for it
/// or by a count alone; of more than 1,024 only to those that are left once they are settled, if these are few. Only where none is found all
/// that can be reached is compared.
pub fn meet_rooted(
    alloc: Global,
    new: &Heap,
    old: &Heap,
    suspects: &mut Suspects,
    seen: &mut Option<Trail>,
) -> Result<Meeting, AllocError>
    requires roots { HaveSameRoots new.now old.now }
    requires outside { AgreeOutside suspects.old new.now old.now }
    ensures meets { IfOk result (Meets new.now old.now) }
    ensures outside { OnOk result (AgreeOutside suspects.new new.now old.now) }
{
    let told = told_soon(alloc, new, old, suspects, seen)?;
    if let Some(meeting) = told {
        return Ok(meeting);
    }
    match agree(alloc, new, old)? {
        Some(remains) => Ok(Meeting::Alike(remains)),
        None => Ok(Meeting::Apart),
    }
}

/// Whether such heaps are told apart, by a suspect or by a trail to a difference, which is kept. If not they may agree. Unlike `meet_rooted` it doesn't
/// go on to list what nothing leads to.
pub fn are_apart(
    alloc: Global,
    new: &Heap,
    old: &Heap,
    suspects: &mut Suspects,
    seen: &mut Option<Trail>,
) -> Result<bool, AllocError>
    requires roots { HaveSameRoots new.now old.now }
    requires outside { AgreeOutside suspects.old new.now old.now }
    ensures apart { IfOk result (λ told. IsTrue told → ¬ (Agree new.now old.now)) }
    ensures outside { OnOk result (AgreeOutside suspects.new new.now old.now) }
{
    match told_soon(alloc, new, old, suspects, seen)? {
        Some(Meeting::Apart) => Ok(true),
        Some(Meeting::Same) | Some(Meeting::Alike(_)) | None => Ok(false),
    }
}

// What is told of such heaps before all that can be reached is compared, if anything is.
fn told_soon(
    alloc: Global,
    new: &Heap,
    old: &Heap,
    suspects: &mut Suspects,
    seen: &mut Option<Trail>,
) -> Result<Option<Meeting>, AllocError>
    requires roots { HaveSameRoots new.now old.now }
    requires outside { AgreeOutside suspects.old new.now old.now }
    ensures meets { IfOk result (λ r. IfSome r (Meets new.now old.now)) }
    ensures outside { OnOk result (AgreeOutside suspects.new new.now old.now) }
{
    // taken before they are settled, which drops those that differ by a count alone
    let few = suspects.few(alloc)?;
    suspects.settle(alloc, new, old)?;
    if let Some(meeting) = told_by(alloc, new, old, suspects.as_slice(), seen)? {
        return Ok(Some(meeting));
    }
    let some = if few.is_empty() {
        suspects.few(alloc)?
    } else {
        few
    };
    let told = is_found_apart(alloc, new, old, &some, seen)?;
    if told {
        return Ok(Some(Meeting::Apart));
    }
    Ok(None)
}

// What the suspects tell alone of heaps with the same roots, if they do.
fn told_by(
    alloc: Global,
    new: &Heap,
    old: &Heap,
    suspects: &[u32],
    seen: &mut Option<Trail>,
) -> Result<Option<Meeting>, AllocError>
    requires roots { HaveSameRoots new.now old.now }
    requires outside { AgreeOutside suspects.now new.now old.now }
    ensures { IfOk result (λ r. IfSome r (Meets new.now old.now)) }
{
    if suspects.is_empty() {
        return Ok(Some(Meeting::Same));
    }
    if let Some(trail) = sure_difference(new, old, suspects) {
        *seen = Some(trail);
        return Ok(Some(Meeting::Apart));
    }
    match island_among(alloc, new, old, suspects)? {
        Some(remains) => Ok(Some(Meeting::Alike(remains))),
        None => Ok(None),
    }
}

// Whether a trail to a difference is found. One to one of these suspects near a root is looked for first.
fn is_found_apart(
    alloc: Global,
    new: &Heap,
    old: &Heap,
    suspects: &[u32],
    seen: &mut Option<Trail>,
) -> Result<bool, AllocError>
    ensures { IfOk result (λ told. IsTrue told → ¬ (Agree new.now old.now)) }
{
    *seen = near_root(alloc, new, old, suspects)?;
    if is_refuted(seen, new, old) {
        return Ok(true);
    }
    *seen = differing_object(alloc, new, old)?;
    Ok(is_refuted(seen, new, old))
}

// A trail to a difference of the roots, if one is found: any will do.
fn trail_to_root(alloc: Global, new: &Heap, old: &Heap) -> Result<Option<Trail>, AllocError> {
    if let Some(trail) = differing_root(alloc, new, new, old)? {
        return Ok(Some(trail));
    }
    differing_root(alloc, old, new, old)
}

// A handle, a cell or a label where they differ, of those that the listed heap has.
fn differing_root(
    alloc: Global,
    listed: &Heap,
    new: &Heap,
    old: &Heap,
) -> Result<Option<Trail>, AllocError> {
    let handles = listed.handles(alloc)?;
    for handle in &handles {
        if refutes(&Trail::Handle(*handle), new, old) {
            return Ok(Some(Trail::Handle(*handle)));
        }
        if refutes(&Trail::Earlier(*handle), new, old) {
            return Ok(Some(Trail::Earlier(*handle)));
        }
    }
    let cells = listed.cells(alloc)?;
    for cell in &cells {
        if refutes(&Trail::Cell(*cell), new, old) {
            return Ok(Some(Trail::Cell(*cell)));
        }
    }
    for label in 0..MAX_THREAD + 1 {
        if refutes(&Trail::Last(label), new, old) {
            return Ok(Some(Trail::Last(label)));
        }
    }
    Ok(None)
}
