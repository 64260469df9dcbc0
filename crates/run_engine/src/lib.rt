//! A run: a trace that was replayed, its outcomes and its checkpoints, and what stays of it when the trace is edited.
#![tactic(auto)]

mod editing;
mod jobs;
mod replay;
mod run;
mod segments;

pub use editing::edits::{apply, edited_ops, try_size};
pub use editing::faults::{Refusal, RunFault};
pub use run::Run;
