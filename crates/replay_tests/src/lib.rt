//! Tests of the plain program, heaps, steps, leaks and reports, through what those crates promise.
#![tactic(auto)]

#[cfg(test)]
mod cells;
#[cfg(test)]
mod heap;
#[cfg(test)]
mod keys;
#[cfg(test)]
mod leaks;
#[cfg(test)]
mod lines;
#[cfg(test)]
mod plain;
#[cfg(test)]
mod replayed;
#[cfg(test)]
mod reports;
#[cfg(test)]
mod scopes;
#[cfg(test)]
mod steps;
#[cfg(test)]
mod told;
