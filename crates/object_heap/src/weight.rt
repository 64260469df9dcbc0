//! What stands in a place of a heap, as one number.
use trace_types::sequence::Sequence;
use trace_types::slots::{Entry, Holding, Slot};

/// A value as one number: equal values have equal ones, and others have different ones, but for a rare chance.
pub trait Weigh {
    fn weight(&self) -> u64;
}

impl Weigh for Slot {
    fn weight(&self) -> u64 {
        match self {
            Slot::Nothing => 1,
            Slot::Dangling => 2,
            Slot::Strong(object) => 4 * (*object as u64) + 4,
            Slot::Weak(object) => 4 * (*object as u64) + 5,
        }
    }
}

impl Weigh for Holding {
    fn weight(&self) -> u64 {
        match self {
            Holding::Slot(slot) => slot.weight(),
            Holding::Bare(fields) => scattered(1, of_fields(fields)),
        }
    }
}

impl Weigh for Entry {
    fn weight(&self) -> u64 {
        match self {
            Entry::Alive(fields) => of_fields(fields),
            Entry::Husk => 1,
        }
    }
}

// A handle's number, and another where there is none.
fn of_handle(handle: Option<u32>) -> u64 {
    match handle {
        Some(handle) => handle as u64 + 1,
        None => 0,
    }
}

// The fields in their order. No few of them have the weight of a husk.
fn of_fields(fields: &Sequence<Slot>) -> u64 {
    let mut weight: u64 = 2;
    for slot in fields.as_slice() {
        weight = and_slot(weight, *slot);
    }
    weight
}

// The weight of fields of this weight with one slot more.
fn and_slot(weight: u64, slot: Slot) -> u64 {
    weight
        .wrapping_mul(0x9E37_79B9_7F4A_7C15)
        .wrapping_add(slot.weight())
}

/// What the sum changes by where a field of an object is set.
pub fn field_change(object: u32, fields: &[Slot], index: u32, slot: Slot) -> u64 {
    let mut before: u64 = 2;
    let mut after: u64 = 2;
    for i in 0..fields.len() {
        let old = fields[i];
        before = and_slot(before, old);
        after = and_slot(after, if i == index as usize { slot } else { old });
    }
    scattered(object, after).wrapping_sub(scattered(object, before))
}

/// What a handle adds to a sum besides what it holds: its scope's label and the handle made before it tell where it stands. Times seven,
/// so that it isn't taken for what a holding of the same weight adds.
pub fn placed(handle: u32, label: u32, earlier: Option<u32>) -> u64 {
    let scope = (label as u64).wrapping_mul(0x1_0000_0000);
    scattered(handle, scope.wrapping_add(of_handle(earlier))).wrapping_mul(7)
}

/// What a value adds to a sum from its place; nothing where there is none.
pub fn added<V: Weigh>(place: u32, value: Option<&V>) -> u64 {
    match value {
        Some(value) => scattered(place, value.weight()),
        None => 0,
    }
}

// What a value of this weight adds to a sum from its place. A place is multiplied by another number than fields are, so that one isn't
// taken for the other.
fn scattered(place: u32, weight: u64) -> u64 {
    let seed = (place as u64 + 1).wrapping_mul(0xD1B5_4A32_D192_ED03);
    finalized(seed.wrapping_add(weight))
}

// Each bit of a number depends on all of another, and no two numbers become one (the finalizer of SplitMix64: Steele, Lea and Flood, Fast
// Splittable Pseudorandom Number Generators, OOPSLA 2014, figure 17).
fn finalized(number: u64) -> u64 {
    let mixed = (number ^ (number >> 30)).wrapping_mul(0xBF58_476D_1CE4_E5B9);
    let mixed = (mixed ^ (mixed >> 27)).wrapping_mul(0x94D0_49BB_1331_11EB);
    mixed ^ (mixed >> 31)
}
