//! What is told of an object that is there.
use crate::place::Held;

/// Why an object is still there.
#[derive(Drop)]
pub enum Why {
    /// Its value is gone, and what keeps its allocation is told.
    Husk,
    /// By the least way from handles and cells.
    Reached(Vec<Held>),
    /// Since when it has been leaked, the least way from its own fields, and how many objects its cycle has.
    InCycle(u32, Vec<Held>, usize),
    /// Since when it has been leaked, and the least way from the fields of objects in cycles.
    Under(u32, Vec<Held>),
}

/// What is told of an object.
#[derive(Drop)]
pub struct Account {
    /// The places that hold it, in order.
    pub held: Vec<Held>,
    /// The places that keep no more than its allocation, in order.
    pub kept: Vec<Held>,
    pub why: Why,
    /// How many objects it retains, where it is alive.
    pub retained: Option<usize>,
}
