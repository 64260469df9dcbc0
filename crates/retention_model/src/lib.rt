//! Why an object is still there, since which operation, and what keeps it: the definitions, and what both they and the program speak of.
#![tactic(auto)]

pub mod account;
pub mod laws;
pub mod mark;
pub mod place;
pub mod totals;

pub use account::{Account, Why};
pub use mark::{Mark, Marked, Moved};
pub use place::{Held, Place};
pub use totals::Totals;
