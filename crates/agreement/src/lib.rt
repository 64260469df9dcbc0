//! When the replay of an edited trace may stop: the heap agrees with the old one on all that can be reached, and each later heap is the
//! old one with the rest exchanged.
#![tactic(auto)]

pub mod agree;
mod among;
mod checkpoint;
mod differing;
mod exchange;
mod gathering;
mod joining;
mod listed;
mod merged;
mod named;
mod near;
mod remains;
mod search;
mod suspects;
mod trail;

pub use checkpoint::Checkpoint;
pub use exchange::Exchange;
pub use remains::{Remains, patch};
pub use search::{Meeting, are_apart, are_told_apart, meet, meet_among, meet_rooted};
pub use suspects::Suspects;
pub use trail::{Path, Root, Trail, refutes};
