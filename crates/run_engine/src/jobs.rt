//! The stretches of a run that a batch of edits changes, as jobs that are still to be replayed.
pub mod begins;
pub mod changed;
pub mod start;
