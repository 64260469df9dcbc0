//! What the operations of a trace do to what its program holds: the definitions, their laws, and the plain program.
#![tactic(auto)]

pub mod effects;
pub mod key;
pub mod laws;
pub mod leaks;
pub mod link;
pub mod plain;
pub mod plan;
pub mod questions;
pub mod reach_laws;
pub mod remaining;

pub use key::Key;
pub use leaks::{Holder, HuskLeft, Leak, Leaks};
pub use link::Link;
pub use plan::{Plan, Stop};
pub use remaining::Remaining;
