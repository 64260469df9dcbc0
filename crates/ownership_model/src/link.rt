//! Which slots a search follows.

/// Which slots lead from one object to the next.
#[derive(Clone, Copy, Debug, PartialEq, Eq)]
pub enum Link {
    /// Only what keeps a value: the retain paths.
    StrongOnly,
    /// Also what keeps no more than the allocation.
    StrongOrWeak,
}
