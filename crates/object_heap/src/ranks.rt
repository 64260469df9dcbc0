//! Ranks of objects: each is to be higher than those of what its fields name.
ghost use Rattle.std.specs.Prelude.{◌≡◌, ◌≤◌};
ghost use Rattle.ownership_model.specs.declared.link.Link.TheVariants.{StrongOrWeak};
ghost use Rattle.ownership_model.specs.Reach.{named, slots_names, entry_names};
ghost use Rattle.std.specs.Prelude.{Some};
ghost use Rattle.object_heap.specs.Descent.{rank_in, AreLow, NameLower};

use share_tree::ShareTree;
use trace_types::slots::{Entry, Slot};

/// No rank is above this.
pub const MAX_RANK: u64 = 1_000_000_000_000;

/// The rank of an object: the one that is kept for it, or else its number.
pub fn rank_of(ranks: &ShareTree<u64>, object: u32) -> u64
    requires low { AreLow ranks.now }
    ensures rank { result ≡ rank_in ranks.now object }
    ensures low { result ≤ MAX_RANK }
{
    match ranks.get(object) {
        Some(rank) => *rank,
        None => object as u64,
    }
}

/// A rank that is higher than those of what the slots name.
pub fn rank_over(ranks: &ShareTree<u64>, slots: &[Slot]) -> u64
    requires low { AreLow ranks.now }
{
    let mut rank = 0u64;
    for slot in slots {
        if let Some(named) = slot.object() {
            rank = rank.max(rank_of(ranks, named) + 1);
        }
    }
    rank
}

/// A rank that is no lower than `from`. What the entry of an object with this rank names, from there on, ranks lower.
pub fn lower_from(ranks: &ShareTree<u64>, from: u64, rank: u64, entry: &Entry) -> u64
    requires low { AreLow ranks.now }
    ensures no_less { from ≤ result }
    ensures lower { NameLower ranks.now result rank (entry_names StrongOrWeak (Some entry.now)) }
{
    match entry {
        Entry::Alive(fields) => slots_lower_from(ranks, from, rank, fields.as_slice()),
        Entry::Husk => from,
    }
}

fn slots_lower_from(ranks: &ShareTree<u64>, from: u64, rank: u64, slots: &[Slot]) -> u64
    requires low { AreLow ranks.now }
    ensures no_less { from ≤ result }
    ensures lower { NameLower ranks.now result rank (slots_names StrongOrWeak slots.now) }
{
    let mut past = from;
    for slot in slots {
        past = slot_lower_from(ranks, past, rank, *slot);
    }
    past
}

/// As `lower_from`, of one slot of the entry.
pub fn slot_lower_from(ranks: &ShareTree<u64>, from: u64, rank: u64, slot: Slot) -> u64
    requires low { AreLow ranks.now }
    ensures no_less { from ≤ result }
    ensures lower { NameLower ranks.now result rank (named StrongOrWeak slot) }
{
    match slot {
        Slot::Strong(object) | Slot::Weak(object) => {
            let named = rank_of(ranks, object);
            if named < rank {
                from
            } else {
                from.max(named + 1)
            }
        }
        Slot::Nothing | Slot::Dangling => from,
    }
}
