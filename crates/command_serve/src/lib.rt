//! What each command reads, and what it writes.
#![tactic(auto)]

mod due;
mod exits;
mod explain;
mod input;
mod picture;
mod replay;
mod script;
mod serve;
mod whatif;

pub use due::{Due, fault_due, too_long};
pub use exits::Exit;
pub use explain::serve_explain;
pub use input::{InputFault, read_all};
pub use picture::serve_picture;
pub use replay::{report_on, report_on_ops, report_on_run, serve_replay};
pub use script::serve_script;
pub use serve::write_due;
pub use whatif::serve_whatif;
