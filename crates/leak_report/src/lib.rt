//! What leaked, and what the report of a replay says.
#![tactic(auto)]

mod closing_text;
mod endings;
mod holders;
mod leaks;
mod line_text;
pub mod lives;
mod made;
pub mod report;
mod rising;
mod shown;
mod text;
mod write;

pub use closing_text::push_lives;
pub use leaks::find_leaks;
pub use lives::{Ending, Life, lives_by};
pub use made::is_making;
pub use report::report_of_stretches;
pub use shown::Report;
pub use text::text_of;
pub use write::{WriteFault, write_report};
