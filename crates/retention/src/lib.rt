//! Why each object is still there at the end of a trace: what holds it and since when, the way to it, and what it keeps; and what operations
//! did to it on the way.
#![tactic(auto)]

pub mod account;
mod begins;
mod components;
pub mod cycles;
pub mod dated;
pub mod dates;
pub mod ending;
mod filled;
mod gather;
pub mod graph;
mod layout;
mod leaked_since;
pub mod lifelines;
pub mod moves;
pub mod named;
mod noted;
mod part;
pub mod redated;
mod retained;
mod search;
mod shown;
pub mod story;
pub mod walk;

pub use account::Accounts;
pub use ending::Ending;
pub use graph::Graph;
pub use lifelines::Lifelines;
pub use moves::is_weak;
pub use named::Named;
pub use noted::objects_of_note;
pub use shown::{all_shown, shown_for};
pub use story::{Story, tell};
