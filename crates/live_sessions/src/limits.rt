//! How many places and readers a `Live` has.
use trace_types::limits::MAX_SESSION;

/// How many places a `Live` has: one for each session.
pub const PLACES: u32 = MAX_SESSION + 1;

/// How many readers what publishes has room for: one for each place, and one to spare.
pub const READERS: usize = PLACES as usize + 1;
