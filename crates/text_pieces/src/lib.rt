//! Pieces of the lines that the program writes, added to a text without a formatter: a number's digits, an operation's name.
#![tactic(auto)]

mod digits;
mod names;

pub use digits::{push_decimal, push_labelled};
pub use names::push_name;
