//! What each handle holds and where it stands in its scope, in one tree.
ghost use Rattle.std.specs.Prelude.{◌≡◌, ◌↔◌, [], None, Some, IfOk, OnOk, IsTrue};
ghost use Rattle.std.specs.Option.{option_copied};
ghost use Rattle.std.specs.FinMap as map;
ghost use Rattle.ownership_model.specs.Scopes.{scope_of, entered, kept_or_entered, left};
ghost use Rattle.object_heap.specs.Links.{first_of, earlier_in, label_in, above_of, IsAbove, entered_above, relinked_later, relinked_earlier, last_without, last_with};
ghost use Rattle.object_heap.specs.HandlesView.{holdings_of, places_of};

use crate::held::{Earlier, Held, Later};
use crate::place::Place;
use crate::weight::{added, placed};
use share_tree::ShareTree;
use std::alloc::{AllocError, Global};
use std::marker::Model;
use trace_types::slots::Holding;

/// The handles that are held, and the handle of each label that was made last. Contracts see what each handle holds, and the scopes: of
/// each label the handles that its operations made and that are still held.
///
/// Two of them share what is the same in both. It also keeps a sum, to which each handle adds a number made of what it holds, and one made
/// of its label and of the handle made before it: a hint, of which no clause speaks.
#[derive(Drop)]
pub struct Handles {
    kept: ShareTree<Held>,
    last: ShareTree<u32>,
    sum: u64,
}

impl Model for Handles {
    ghost use Rattle.object_heap.specs.HandlesView.{HandlesView, handles_code, handles_of, places_of};
    ghost use Rattle.object_heap.specs.Links.{scopes_at, AreLinked};

    ghost Value = { HandlesView };

    ghost coded = { handles_code };

    ghost view = { λ h. handles_of h.kept h.last };

    ghost invariant = { λ h. AreLinked (places_of h.kept) h.last
        (scopes_at (places_of h.kept) h.last) };
}

impl Handles {
    /// No handle is held.
    pub fn empty() -> Handles
        ensures { result ≡ record { holdings = map.empty; scopes = [] } }
    {
        Handles {
            kept: ShareTree::empty(),
            last: ShareTree::empty(),
            sum: 0,
        }
    }

    /// The same again, whose nodes both have.
    pub fn share(&self) -> Result<Handles, AllocError>
        ensures { IfOk result (λ h. h ≡ self.now) }
    {
        Ok(Handles {
            kept: self.kept.share()?,
            last: self.last.share()?,
            sum: self.sum,
        })
    }

    /// What a handle holds.
    pub fn get(&self, handle: u32) -> Option<&Holding>
        ensures { option_copied result ≡ map.get self.now.holdings handle }
    {
        match self.kept.get(handle) {
            Some(held) => Some(&held.holding),
            None => None,
        }
    }

    /// The handle of the label's scope that was made last.
    pub fn last(&self, label: u32) -> Option<u32>
        ensures { result ≡ first_of (scope_of label self.now.scopes) }
    {
        self.last.get(label).copied()
    }

    /// The handle that was made before this one, of those still in its scope.
    pub fn earlier(&self, handle: u32) -> Option<u32>
        ensures { result ≡ earlier_in handle self.now.scopes }
    {
        match self.kept.get(handle) {
            Some(held) => held.place.earlier,
            None => None,
        }
    }

    /// The label in whose scope the handle stands: that of the operation that made it.
    pub fn label(&self, handle: u32) -> Option<u32>
        ensures { result ≡ label_in handle self.now.scopes }
    {
        match self.kept.get(handle) {
            Some(held) => Some(held.place.label),
            None => None,
        }
    }

    /// The handles that are held, rising.
    pub fn keys(&self, alloc: Global) -> Result<Vec<u32>, AllocError>
        ensures { IfOk result (λ v. v.items ≡ map.keys self.now.holdings) }
    {
        self.kept.keys(alloc)
    }

    /// Whether both hold the same, in the same scopes.
    pub fn same(&self, other: &Handles) -> bool
        ensures { IsTrue result ↔ (self.now ≡ other.now) }
    {
        self.kept.same(&other.kept) && self.last.same(&other.last)
    }

    /// A number that equal handles have in common.
    pub fn sum(&self) -> u64 {
        self.sum
    }

    /// A handle holds this from now on, and what it held is told. Where it held nothing it enters the scope of the label. Where memory runs
    /// out it is unspecified which handles are held.
    pub fn set(
        &mut self,
        alloc: Global,
        label: u32,
        handle: u32,
        holding: Holding,
    ) -> Result<Option<Holding>, AllocError>
        ensures was { IfOk result (λ was. was ≡ map.get self.old.holdings handle) }
        ensures held { OnOk result (self.new.holdings
            ≡ map.insert self.old.holdings handle holding) }
        ensures scopes { OnOk result (self.new.scopes
            ≡ kept_or_entered (map.get self.old.holdings handle) label handle self.old.scopes) }
    {
        let Some(held) = self.kept.get(handle) else {
            self.enter(alloc, label, handle, holding)?;
            return Ok(None);
        };
        let was = held.holding.clone()?;
        let place = held.place;
        let rest = self.sum.wrapping_sub(added(handle, Some(&was)));
        let sum = rest.wrapping_add(added(handle, Some(&holding)));
        self.kept.insert(alloc, handle, Held { holding, place })?;
        self.sum = sum;
        Ok(Some(was))
    }

    /// A handle is no longer held, and leaves its scope. What it held is told. Where memory runs out it is unspecified which handles are
    /// held.
    pub fn end(&mut self, alloc: Global, handle: u32) -> Result<Option<Holding>, AllocError>
        ensures was { IfOk result (λ was. was ≡ map.get self.old.holdings handle) }
        ensures held { OnOk result (self.new.holdings ≡ map.remove self.old.holdings handle) }
        ensures scopes { OnOk result (self.new.scopes ≡ left handle self.old.scopes) }
    {
        let Some(held) = self.kept.get(handle) else {
            return Ok(None);
        };
        let was = held.holding.clone()?;
        let place = held.place;
        let rest = self.sum.wrapping_sub(added(handle, Some(&was)));
        self.sum = sum_without(rest, handle, place);
        if let Err(error) = unlink(alloc, &mut self.kept, &mut self.last, handle, place) {
            clear(&mut self.kept, &mut self.last);
            self.sum = 0;
            return Err(error);
        }
        Ok(Some(was))
    }

    /// A handle that held nothing holds this, and enters the scope of the label just above another handle that stands there, or at its end.
    /// Where memory runs out no handle is held.
    ///
    /// Where it enters at the end, the handles of the scope are walked.
    pub fn enter_above(
        &mut self,
        alloc: Global,
        label: u32,
        handle: u32,
        under: Option<u32>,
        holding: Holding,
    ) -> Result<(), AllocError>
        requires free { map.get self.old.holdings handle ≡ None }
        requires stands { IsAbove under label self.old.scopes }
        ensures held { OnOk result (self.new.holdings
            ≡ map.insert self.old.holdings handle holding) }
        ensures scopes { OnOk result (self.new.scopes
            ≡ entered_above label handle under self.old.scopes) }
    {
        let above = self.above(label, under);
        let sum = self.sum.wrapping_add(added(handle, Some(&holding)));
        let place = Place {
            label,
            earlier: under,
            later: above,
        };
        self.sum = sum_with(sum, handle, place);
        let held = Held { holding, place };
        if let Err(error) = link_above(alloc, &mut self.kept, &mut self.last, handle, held) {
            clear(&mut self.kept, &mut self.last);
            self.sum = 0;
            return Err(error);
        }
        Ok(())
    }

    // The handle that stands just above another one of the label's scope, or at its end.
    fn above(&self, label: u32, under: Option<u32>) -> Option<u32>
        requires { IsAbove under label self.now.scopes }
        ensures { result ≡ above_of under None (scope_of label self.now.scopes) }
    {
        let Some(under) = under else {
            return self.lowest(label);
        };
        match self.kept.get(under) {
            Some(held) => held.place.later,
            None => None,
        }
    }

    // The handle at the end of the label's scope: the one made first, of those still there.
    fn lowest(&self, label: u32) -> Option<u32>
        ensures { result ≡ above_of None None (scope_of label self.now.scopes) }
    {
        let _ = &self.kept;
        let mut lowest = self.last(label)?;
        while let Some(earlier) = self.earlier(lowest) {
            lowest = earlier;
        }
        Some(lowest)
    }

    // A handle that held nothing holds this, and enters the scope of the label. Where memory runs out no handle is held.
    fn enter(
        &mut self,
        alloc: Global,
        label: u32,
        handle: u32,
        holding: Holding,
    ) -> Result<(), AllocError>
        requires { map.get self.old.holdings handle ≡ None }
        ensures held { OnOk result (self.new.holdings
            ≡ map.insert self.old.holdings handle holding) }
        ensures scopes { OnOk result (self.new.scopes ≡ entered label handle self.old.scopes) }
    {
        let earlier = self.last.get(label).copied();
        let sum = self.sum.wrapping_add(added(handle, Some(&holding)));
        self.sum = sum.wrapping_add(placed(handle, label, earlier));
        let place = Place {
            label,
            earlier,
            later: None,
        };
        let held = Held { holding, place };
        if let Err(error) = link(alloc, &mut self.kept, &mut self.last, handle, held) {
            clear(&mut self.kept, &mut self.last);
            self.sum = 0;
            return Err(error);
        }
        Ok(())
    }
}

// Nothing is held any more.
#[inline(never)]
fn clear(kept: &mut ShareTree<Held>, last: &mut ShareTree<u32>)
    ensures kept { kept.new ≡ map.empty }
    ensures last { last.new ≡ map.empty }
{
    *kept = ShareTree::empty();
    *last = ShareTree::empty();
}

// The sum where the handle of this place is left out: the one made after it has another one before it.
fn sum_without(sum: u64, handle: u32, place: Place) -> u64 {
    let rest = sum.wrapping_sub(placed(handle, place.label, place.earlier));
    match place.later {
        Some(later) => rest
            .wrapping_sub(placed(later, place.label, Some(handle)))
            .wrapping_add(placed(later, place.label, place.earlier)),
        None => rest,
    }
}

// The sum where a handle enters this place: the one made after it has this one before it.
fn sum_with(sum: u64, handle: u32, place: Place) -> u64 {
    let more = sum.wrapping_add(placed(handle, place.label, place.earlier));
    match place.later {
        Some(later) => more
            .wrapping_sub(placed(later, place.label, place.earlier))
            .wrapping_add(placed(later, place.label, Some(handle))),
        None => more,
    }
}

// The handle is held so, and is the last of its label's scope, behind the one that was.
fn link(
    alloc: Global,
    kept: &mut ShareTree<Held>,
    last: &mut ShareTree<u32>,
    handle: u32,
    held: Held,
) -> Result<(), AllocError>
    ensures holdings { OnOk result (holdings_of kept.new
        ≡ map.insert (holdings_of kept.old) handle held.holding) }
    ensures places { OnOk result (places_of kept.new
        ≡ map.insert (relinked_later (places_of kept.old) held.place.earlier (Some handle)) handle
        held.place) }
    ensures last { OnOk result (last.new ≡ map.insert last.old held.place.label handle) }
{
    let Place { label, earlier, .. } = held.place;
    set_later(alloc, kept, earlier, Some(handle))?;
    kept.insert(alloc, handle, held)?;
    last.insert(alloc, label, handle)
}

// The handle is held so, between its two neighbours. Where none is above it, it is the last of its label's scope.
fn link_above(
    alloc: Global,
    kept: &mut ShareTree<Held>,
    last: &mut ShareTree<u32>,
    handle: u32,
    held: Held,
) -> Result<(), AllocError>
    ensures holdings { OnOk result (holdings_of kept.new
        ≡ map.insert (holdings_of kept.old) handle held.holding) }
    ensures places { OnOk result (places_of kept.new
        ≡ map.insert (relinked_earlier (relinked_later (places_of kept.old) held.place.earlier
        (Some handle)) held.place.later (Some handle)) handle held.place) }
    ensures last { OnOk result (last.new
        ≡ last_with last.old held.place.label handle held.place.later) }
{
    let Place {
        label,
        earlier,
        later,
    } = held.place;
    set_later(alloc, kept, earlier, Some(handle))?;
    set_earlier(alloc, kept, later, Some(handle))?;
    kept.insert(alloc, handle, held)?;
    raise_last(alloc, last, label, handle, later)
}

// Where none stands above it, the handle is the last of the label's scope.
fn raise_last(
    alloc: Global,
    last: &mut ShareTree<u32>,
    label: u32,
    handle: u32,
    above: Option<u32>,
) -> Result<(), AllocError>
    ensures { OnOk result (last.new ≡ last_with last.old label handle above) }
{
    match above {
        Some(_) => Ok(()),
        None => last.insert(alloc, label, handle),
    }
}

// The handle of this place is held no more, and its neighbours are each other's.
fn unlink(
    alloc: Global,
    kept: &mut ShareTree<Held>,
    last: &mut ShareTree<u32>,
    handle: u32,
    place: Place,
) -> Result<(), AllocError>
    ensures holdings { OnOk result (holdings_of kept.new
        ≡ map.remove (holdings_of kept.old) handle) }
    ensures places { OnOk result (places_of kept.new
        ≡ relinked_earlier (relinked_later (map.remove (places_of kept.old) handle) place.earlier
        place.later) place.later place.earlier) }
    ensures last { OnOk result (last.new ≡ last_without last.old place.label place.earlier
        place.later) }
{
    kept.remove(alloc, handle)?;
    set_later(alloc, kept, place.earlier, place.later)?;
    set_earlier(alloc, kept, place.later, place.earlier)?;
    set_last(alloc, last, place)
}

// The handle, if there is one, has another neighbour after it.
#[inline(always)]
fn set_later(
    alloc: Global,
    kept: &mut ShareTree<Held>,
    handle: Option<u32>,
    later: Option<u32>,
) -> Result<(), AllocError>
    ensures holdings { OnOk result (holdings_of kept.new ≡ holdings_of kept.old) }
    ensures places { OnOk result (places_of kept.new
        ≡ relinked_later (places_of kept.old) handle later) }
{
    let Some(handle) = handle else {
        return Ok(());
    };
    kept.update(alloc, handle, &Later(later))?;
    Ok(())
}

// The handle, if there is one, has another neighbour before it.
#[inline(always)]
fn set_earlier(
    alloc: Global,
    kept: &mut ShareTree<Held>,
    handle: Option<u32>,
    earlier: Option<u32>,
) -> Result<(), AllocError>
    ensures holdings { OnOk result (holdings_of kept.new ≡ holdings_of kept.old) }
    ensures places { OnOk result (places_of kept.new
        ≡ relinked_earlier (places_of kept.old) handle earlier) }
{
    let Some(handle) = handle else {
        return Ok(());
    };
    kept.update(alloc, handle, &Earlier(earlier))?;
    Ok(())
}

// Where the handle of this place was the last of its label's scope, the one before it is.
fn set_last(alloc: Global, last: &mut ShareTree<u32>, place: Place) -> Result<(), AllocError>
    ensures { OnOk result (last.new ≡ last_without last.old place.label place.earlier place.later) }
{
    match (place.later, place.earlier) {
        (Some(_), _) => Ok(()),
        (None, Some(earlier)) => last.insert(alloc, place.label, earlier),
        (None, None) => last.remove(alloc, place.label),
    }
}
