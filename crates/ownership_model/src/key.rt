//! Places of what a program holds.

/// A place: a handle, a cell, an object by its number, or the whole scope of a thread label, in its order.
#[derive(Clone, Copy, Debug, PartialEq, Eq)]
pub enum Key {
    Handle(u32),
    Cell(u32),
    Object(u32),
    Scope(u32),
}
