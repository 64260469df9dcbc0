//! What a chunk goes by, and what it is compared by.
ghost use Rattle.std.specs.Prelude.{◌≡◌, ◌↔◌, IsTrue};
ghost use Rattle.mark_shelf.specs.Shelf.{name_of};

use trace_types::ops::Op;

/// What a chunk goes by: the number of its first operation, 0 where it has none, and how many it has.
#[derive(Clone, Copy, PartialEq, Eq, Hash, Debug)]
pub struct ChunkName {
    pub first: u32,
    pub count: usize,
}

impl ChunkName {
    /// The name of a chunk with these operations.
    pub fn of(ops: &[Op]) -> ChunkName
        ensures { result ≡ name_of ops.now }
    {
        let first = match ops.first() {
            None => 0,
            Some(op) => op.id(),
        };
        ChunkName {
            first,
            count: ops.len(),
        }
    }
}

/// Whether both are the same operations.
pub fn same_ops(ops: &[Op], others: &[Op]) -> bool
    ensures { IsTrue result ↔ (ops.now ≡ others.now) }
{
    if ops.len() != others.len() {
        return false;
    }
    for (i, op) in ops.iter().enumerate() {
        if !op.same(&others[i]) {
            return false;
        }
    }
    true
}
