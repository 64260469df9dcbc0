//! Tests of persistent maps, of traces and of their lines, through what those crates promise.
#![tactic(auto)]

#[cfg(test)]
mod lines;
#[cfg(test)]
mod traces;
#[cfg(test)]
mod tree;
#[cfg(test)]
mod walks;
