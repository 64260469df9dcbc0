//! Tests of runs, edits and the desk, through what those crates promise.
#![tactic(auto)]

#[cfg(test)]
mod anchors;
#[cfg(test)]
mod desk;
#[cfg(test)]
mod exchanged;
#[cfg(test)]
mod far_edits;
#[cfg(test)]
mod guesses;
#[cfg(test)]
mod joints;
#[cfg(test)]
mod kept;
#[cfg(test)]
mod layers;
#[cfg(test)]
mod limits;
#[cfg(test)]
mod meetings;
#[cfg(test)]
mod random_edits;
#[cfg(test)]
mod refused;
#[cfg(test)]
mod refused_traces;
#[cfg(test)]
mod relabelled;
#[cfg(test)]
mod runs;
#[cfg(test)]
mod small_runs;
#[cfg(test)]
mod small_traces;
#[cfg(test)]
mod taken_back;
#[cfg(test)]
mod untouched;
