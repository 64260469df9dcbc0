//! Carries out operations on a heap: what each one does, and the replay of many.
#![tactic(auto)]

mod carry;
mod cells;
mod chunk_run;
mod fields;
mod handles;
mod job;
mod make;
mod meter;
mod names;
pub mod replay;
mod room;
mod rows;
mod scope;
mod told;
mod unique;
mod wants;

pub use carry::{step, step_in_place, step_told};
pub use chunk_run::{ChunkRun, Replayed, copy_ops, run, run_of};
pub use job::Job;
pub use meter::Meter;
pub use replay::{replay_from, replay_told};
pub use rows::plan;
