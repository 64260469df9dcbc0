//! How much a desk keeps that serves a replay again.

/// How many checkpoints a desk keeps, beside those at 0 and at the end.
pub const KEPT_MARKS: usize = 1_024;

/// How many replayed chunks a desk remembers.
pub const KEPT_CHUNKS: usize = 1_024;

/// How many names of chunks a desk remembers.
pub const KEPT_NAMES: usize = 2_048;
