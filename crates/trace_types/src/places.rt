//! Where the operations of a trace stand, by number: by halves while numbers rise, from a map once they don't.
ghost use Rattle.std.specs.Prelude.{◌≡◌, ℕ, length, IfOk, OnOk, OnErr, IsTrue};
ghost use Rattle.std.specs.Ordering.{nat_cmp};
ghost use Rattle.std.specs.BTreeMap.{get};
ghost use Rattle.trace_types.specs.Trace.{place_of, IsNew};
ghost use Rattle.trace_types.specs.Places.{ArePlaces, ArePlacesWith, HasRisingNumbers, AreBelow};

use crate::ops::Op;
use std::alloc::{AllocError, Global};
use std::collections::BTreeMap;

// Where the operation with this number stands among rising ones.
pub(crate) fn place_by_halves(ops: &[Op], id: u32) -> Option<usize>
    requires { HasRisingNumbers ops.now }
    ensures { result ≡ place_of id ops.now }
{
    if are_below(ops, id) {
        return None;
    }
    ops.binary_search_by_key(&id, |op| op.id()).ok()
}

// Adds the number of an operation that comes behind those that are there.
pub(crate) fn add(
    places: &mut Option<BTreeMap<u32, usize>>,
    ops: &Vec<Op>,
    id: u32,
) -> Result<(), AllocError>
    requires were { ArePlaces places.old ops.now.items }
    requires new { IsNew id ops.now.items }
    ensures ok { OnOk result (ArePlacesWith id places.new ops.now.items) }
    ensures kept { OnErr result (ArePlaces places.new ops.now.items) }
{
    match places {
        Some(places) => {
            places.insert(id, ops.len())?;
        }
        None => {
            if !are_below(ops, id) {
                let mut listed = listed(*ops.allocator(), ops)?;
                listed.insert(id, ops.len())?;
                *places = Some(listed);
            }
        }
    }
    Ok(())
}

// Whether the number is greater than all of the rising ones.
fn are_below(ops: &[Op], id: u32) -> bool
    requires { HasRisingNumbers ops.now }
    ensures { IsTrue result → AreBelow id ops.now }
{
    match ops.last() {
        Some(op) => op.id() < id,
        None => true,
    }
}

// A map from each number to its first place.
fn listed(alloc: Global, ops: &[Op]) -> Result<BTreeMap<u32, usize>, AllocError>
    ensures { IfOk result (λ m. (id : ℕ) → get nat_cmp m id ≡ place_of id ops.now) }
{
    let mut places = BTreeMap::new(alloc);
    let mut place = ops.len();
    while place > 0 {
        place -= 1;
        places.insert(ops[place].id(), place)?;
    }
    Ok(places)
}
