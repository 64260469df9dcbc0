//! The command `race`: the requests of each session are submitted on a thread of its own.
#![tactic(auto)]

mod history;
mod race;
mod reports;
mod split;

pub use race::serve_race;
pub use reports::{report_of_desk, report_of_front};
