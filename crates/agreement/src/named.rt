//! Which of some objects slots name. The objects rise.

use trace_types::slots::Slot;

/// The first of the objects that one of these slots names.
pub fn named_among(sorted: &[u32], slots: &[Slot]) -> Option<u32> {
    for slot in slots {
        let named = named_by(sorted, *slot);
        if named.is_some() {
            return named;
        }
    }
    None
}

/// How many of these slots name one of the objects.
pub fn named_within(sorted: &[u32], slots: &[Slot]) -> u64 {
    let mut within = 0u64;
    for slot in slots {
        if named_by(sorted, *slot).is_some() {
            within = within.saturating_add(1);
        }
    }
    within
}

// The one of the objects that the slot names.
fn named_by(sorted: &[u32], slot: Slot) -> Option<u32> {
    let object = slot.object()?;
    if sorted.binary_search(&object).is_err() {
        return None;
    }
    Some(object)
}
