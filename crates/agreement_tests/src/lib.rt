//! Tests of agreement, shelves and sums, through what those crates promise.
#![tactic(auto)]

#[cfg(test)]
mod agreeing;
#[cfg(test)]
mod chains;
#[cfg(test)]
mod exchanges;
#[cfg(test)]
mod joints;
#[cfg(test)]
mod shelves;
#[cfg(test)]
mod sums;
#[cfg(test)]
mod suspects;
