//! Tests of sessions on threads and of their races, through what those crates promise.
#![tactic(auto)]

#[cfg(test)]
mod cases;
#[cfg(test)]
mod gate;
#[cfg(test)]
mod guesses;
#[cfg(test)]
mod order;
#[cfg(test)]
mod places;
#[cfg(test)]
mod races;
#[cfg(test)]
mod refused;
#[cfg(test)]
mod reports;
#[cfg(test)]
mod requests;
#[cfg(test)]
mod sixteen;
#[cfg(test)]
mod steps;
#[cfg(test)]
mod workers;
