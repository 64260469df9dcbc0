//! Chunks that were stepped for a replay, or that it replaces, which a shelf then remembers.
ghost use Rattle.std.specs.Prelude.{◌≡◌, None, Some, true, IfOk, IfSome, OnOk};
ghost use Rattle.ownership_model.specs.Step.{end_from};
ghost use Rattle.mark_shelf.specs.Joints.{EndsWith};
ghost use Rattle.run_engine.specs.Memo.{HasSameMarks};
ghost use Rattle.run_engine.specs.inner.Origins.{stepped_chunk, behind_of, end_behind};
ghost use Rattle.run_engine.specs.declared.replay.origin.Behind.TheVariants.{Stepped};

use crate::replay::origin::{Behind, Origin};
use mark_shelf::MarkShelf;
use op_step::ChunkRun;
use std::alloc::{AllocError, Global};
use std::collections::VecDeque;
use std::marker::Model;

/// A chunk that was stepped or is replaced, and whether right behind the one before it in the list.
#[derive(Drop)]
pub struct FreshChunk {
    chunk: ChunkRun,
    follows: bool,
}

/// Chunks that were stepped for a replay, or that it replaces, in order. Contracts see the heap at which the last of them ends.
#[derive(Drop)]
pub struct Fresh {
    chunks: VecDeque<FreshChunk>,
}

impl Model for Fresh {
    ghost use Rattle.std.specs.Prelude.{Option, None};
    ghost use Rattle.std.specs.Coded.{coded_option};
    ghost use Rattle.ownership_model.specs.State.{State};
    ghost use Rattle.object_heap.specs.StateCode.{state_code};
    ghost use Rattle.run_engine.specs.inner.FreshChunks.{end_after, AreLinked};

    ghost Value = { Option State };

    ghost coded = { coded_option state_code };

    ghost view = { λ f. end_after None f.chunks.items };

    ghost invariant = { λ f. AreLinked None f.chunks.items };
}

impl Fresh {
    /// No chunk.
    pub fn none(alloc: Global) -> Self
        ensures { result ≡ None }
    {
        Fresh {
            chunks: VecDeque::new(alloc),
        }
    }

    /// Adds a chunk, of which it is known whether it follows: whether it begins where the last one ends.
    pub fn push(&mut self, chunk: ChunkRun, follows: bool) -> Result<(), AllocError>
        requires { follows ≡ true → IfSome self.old (λ s. s ≡ chunk.start) }
        ensures { OnOk result (self.new ≡ Some (end_from chunk.start chunk.ops)) }
    {
        self.chunks.push_back(FreshChunk { chunk, follows })?;
        Ok(())
    }

    /// The replay goes on from behind something: a chunk that was stepped for it is added. What it stands behind then.
    pub fn go_on(&mut self, before: Behind, origin: Origin) -> Result<Behind, AllocError>
        requires { before ≡ Stepped →
            IfSome (stepped_chunk origin) (λ c. IfSome self.old (λ s. s ≡ c.start)) }
        ensures behind { IfOk result (λ b. b ≡ behind_of origin) }
        ensures end { OnOk result (self.new ≡ end_behind self.old origin) }
    {
        match origin {
            Origin::Old => Ok(Behind::Nothing),
            Origin::Shelf(number) => Ok(Behind::Shelf(number)),
            Origin::Stepped(chunk) => {
                self.push(chunk, before.is_stepped())?;
                Ok(Behind::Stepped)
            }
        }
    }
}

/// Has the shelf remember the chunks that were stepped, and those that they replace, as many as it has room for: of those that are replaced the last
/// ones, and then the last of the others. They come behind these, so that a name that both have stands for the one that is in no run any more.
pub fn remember_all(shelf: &mut MarkShelf, stepped: Fresh, replaced: Fresh)
    ensures { HasSameMarks shelf.old shelf.new }
{
    let most = shelf.most_chunks();
    let left = most.saturating_sub(replaced.chunks.len());
    remember_last(shelf, stepped, left);
    remember_last(shelf, replaced, most);
}

// Has the shelf remember the last of the chunks, at most so many.
fn remember_last(shelf: &mut MarkShelf, chunks: Fresh, most: usize)
    ensures { HasSameMarks shelf.old shelf.new }
{
    let mut chunks = chunks.chunks;
    while chunks.len() > most {
        chunks.pop_front();
    }
    let mut last = None;
    while let Some(fresh) = chunks.pop_front() {
        last = remember_next(shelf, fresh, last);
    }
}

// Has the shelf remember a chunk, of which it is known whether it begins where the one ends that it remembered last, and gives its number.
fn remember_next(shelf: &mut MarkShelf, fresh: FreshChunk, last: Option<u64>) -> Option<u64>
    requires { fresh.follows ≡ true →
        IfSome last (λ k. EndsWith shelf.old.chunks k fresh.chunk.start) }
    ensures marks { HasSameMarks shelf.old shelf.new }
    ensures ends { IfSome result
        (λ n. EndsWith shelf.new.chunks n (end_from fresh.chunk.start fresh.chunk.ops)) }
{
    if fresh.follows {
        shelf.remember_behind(fresh.chunk, last)
    } else {
        shelf.remember_behind(fresh.chunk, None)
    }
}
