//! Where a handle stands in its scope.

/// The label of a handle's scope, and the handles made just before and after it, of those still in the scope.
#[derive(Clone, Copy, Debug, PartialEq, Eq)]
pub struct Place {
    pub label: u32,
    pub earlier: Option<u32>,
    pub later: Option<u32>,
}
