//! By what a replay comes to where it stands.
ghost use Rattle.std.specs.Prelude.{◌≡◌, ◌↔◌, IsTrue};
ghost use Rattle.run_engine.specs.inner.Origins.{shelf_number};
ghost use Rattle.run_engine.specs.declared.replay.origin.Behind.TheVariants.{Stepped};

use op_step::ChunkRun;

/// What a replay goes on by: a stretch of the old run, a chunk that was stepped, or the chunk that the shelf has under a number.
#[derive(Drop)]
pub enum Origin {
    Old,
    Stepped(ChunkRun),
    Shelf(u64),
}

/// What is known to end where a replay stands: nothing, the chunk that was stepped last, or the chunk that the shelf has under a number.
#[derive(Clone, Copy, Debug, PartialEq, Eq)]
pub enum Behind {
    Nothing,
    Stepped,
    Shelf(u64),
}

impl Behind {
    /// Whether it is the chunk that was stepped last.
    pub fn is_stepped(self) -> bool
        ensures { IsTrue result ↔ (self ≡ Stepped) }
    {
        match self {
            Behind::Stepped => true,
            _ => false,
        }
    }

    /// The number of the shelf's chunk, if it is one.
    pub fn number(self) -> Option<u64>
        ensures { result ≡ shelf_number self }
    {
        match self {
            Behind::Shelf(number) => Some(number),
            _ => None,
        }
    }
}
