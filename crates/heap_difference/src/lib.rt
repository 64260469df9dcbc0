//! Where two heaps differ, as a set of keys: whether a stretch of operations touches any of them, and what differs behind it.
#![tactic(auto)]

mod alikes;
mod blind;
mod endings;
mod filter;
mod finding;
mod handles;
mod holders;
pub mod key_set;
mod laws;
mod layer;
mod laying;
mod naming;
pub mod numbers;
mod puts;
mod recent;
mod recounted;
mod scopes;
mod setting;
mod shifts;
mod sifted;
mod touching;

pub use alikes::Alikes;
pub use filter::Filter;
pub use finding::found;
pub use holders::Holders;
pub use key_set::KeySet;
pub use laws::{differences_law, layers_law, passing_law, puts_law, puts_stay_law};
pub use layer::Layer;
pub use naming::add_all;
pub use numbers::Numbers;
