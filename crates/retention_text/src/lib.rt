//! The texts that tell why objects are still there: lines for each, and the lines of a picture in DOT.
#![tactic(auto)]

mod account;
mod edges;
mod head;
mod nodes;
mod pieces;
mod turns;

pub use account::push_account;
pub use edges::push_slot;
pub use head::push_head;
pub use nodes::{Look, push_object, push_root};
pub use pieces::push_totals;
pub use turns::push_life;
