//! Bounded lists of what serves a replay again: which checkpoints are kept, by last use, and which chunks were replayed.
#![tactic(auto)]

mod joints;
mod laws;
mod marks;
mod memo;
mod names;
mod shelf;

pub use laws::finds_what_was_there;
pub use names::{ChunkName, same_ops};
pub use shelf::{Found, MarkShelf};
