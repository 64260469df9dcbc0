//! The heap of a traced program: what it holds, how often each object is named, and what letting go sets off.
#![tactic(auto)]

mod cascade;
mod changes;
mod counters;
mod counting;
mod draft;
mod exchange;
mod handles;
pub mod heap;
mod held;
mod island;
mod laying;
mod object;
mod objects;
pub mod place;
pub mod put;
mod ranks;
pub mod reach;
mod summed;
mod table;
mod told;
mod updates;
mod weight;

pub use heap::Heap;
pub use put::{FieldPut, Put};
pub use told::{take_back, tell_once};
