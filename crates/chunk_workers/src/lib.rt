//! Guesses: chunks that several threads replay ahead, one for each job.
#![tactic(auto)]

mod claims;
mod gate;
mod places;
mod speculation;
mod worker;

pub use gate::{Gate, OpenGate};
pub use speculation::speculate;
