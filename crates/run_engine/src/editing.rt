//! The trace after a batch of edits, and what it has in common with the one before.
pub mod edits;
pub mod faults;
pub mod head_and_tail;
pub mod listing;
pub mod original;
pub mod spans;
