//! What follows from the definitions.
ghost use Rattle.std.specs.Prelude.{◌≡◌, ℕ, Some, Contains};
ghost use Rattle.op_step.specs.Chunk.{Chunk};
ghost use Rattle.mark_shelf.specs.Shelf.{Shelf, named, sought};
ghost use Rattle.mark_shelf.specs.declared.names.ChunkName.{ChunkName};

/// A chunk that is found is one of the shelf's, and a look-up adds none: so through any number of look-ups what is found
/// was on the shelf before the first.
pub fn finds_what_was_there()
    ensures there { (s : Shelf) (n : ChunkName) (c : Chunk) → named s n ≡ Some c → (k : ℕ)
        × Contains s.chunks (k, c) }
    ensures fewer { (s : Shelf) (n : ChunkName) (e : ℕ × Chunk) → Contains (sought s n).chunks e →
        Contains s.chunks e }
{}
