//! What `explain` and `picture` say of a trace.
#![tactic(auto)]

mod answer;
mod drawing;
mod explained;
mod given;
mod lines;
mod lives;
mod pictures;
mod places;
mod told;

pub use answer::Answer;
pub use explained::explain;
pub use pictures::picture;
