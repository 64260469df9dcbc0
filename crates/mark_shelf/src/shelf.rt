//! The shelf.
ghost use Rattle.std.specs.Prelude.{◌≡◌, ◌<◌, Some, IfOk, IfSome, MatchOption, option_and_then};
ghost use Rattle.std.specs.Map.{lookup};
ghost use Rattle.ownership_model.specs.Step.{end_from};

use crate::joints::{is_behind, join};
use crate::marks::bring;
use crate::memo::{keep, note, serving};
use crate::names::ChunkName;
use indexmap::IndexMap;
use lru::LruCache;
use object_heap::Heap;
use op_step::ChunkRun;
use std::alloc::{AllocError, Global};
use std::marker::Model;
use std::num::NonZeroUsize;
use trace_types::ops::Op;

/// A chunk that is found, with its number, and whether it was known to begin with the heap, as it is joined to the chunk that ends with
/// it. No comparison is wanted then; that none is made, the code alone shows.
#[derive(Drop)]
pub struct Found {
    pub number: u64,
    pub chunk: ChunkRun,
    pub is_joined: bool,
}

/// Which checkpoints are kept, by their names, and which replayed chunks are remembered: bounded lists, by last use.
///
/// Contracts see the lists, how long each may be, and the number of the next chunk.
#[derive(Drop)]
pub struct MarkShelf {
    marks: LruCache<u32, ()>,
    chunks: LruCache<u64, ChunkRun>,
    joints: LruCache<u64, u64>,
    names: IndexMap<ChunkName, u64>,
    most_names: usize,
    next: u64,
}

impl Model for MarkShelf {
    ghost use Rattle.std.specs.Prelude.{◌≡◌, ◌<◌, ◌≤◌};
    ghost use Rattle.std.specs.List.{AllByRecursion};
    ghost use Rattle.std.specs.Map.{keys_of};
    ghost use Rattle.indexmap.specs.IndexMap.{index_map_len};
    ghost use Rattle.mark_shelf.specs.Shelf.{Shelf, shelf_code};
    ghost use Rattle.mark_shelf.specs.Joints.{AreJoints};

    ghost Value = { Shelf };

    ghost coded = { shelf_code };

    ghost view = { λ s. record { marks = keys_of s.marks.entries; chunks = s.chunks.entries; joints = s.joints.entries; names = s.names.entries; most_marks = s.marks.cap; most_chunks = s.chunks.cap; most_names = s.most_names; next = s.next } };

    ghost invariant = { λ s. AllByRecursion (λ e. e.0 < s.next) s.chunks.entries × (index_map_len s.names ≤ s.most_names) × (s.joints.cap ≡ s.chunks.cap) × AreJoints s.chunks.entries s.next s.joints.entries };
}

impl MarkShelf {
    ghost use Rattle.mark_shelf.specs.Shelf.{empty_shelf, Touches, Remembers, remembered, Notes, RemembersBehind, named, sought, name_of, name_eq};
    ghost use Rattle.mark_shelf.specs.Joints.{EndsWith, joint_behind, is_joined};

    /// A shelf with nothing, and with room for so many checkpoints, chunks and names of chunks.
    pub fn new(alloc: Global, marks: usize, chunks: usize, names: usize) -> Result<Self, AllocError>
        requires some_marks { 0 < marks }
        requires some_chunks { 0 < chunks }
        requires some_names { 0 < names }
        ensures { IfOk result (λ s. s ≡ empty_shelf marks chunks names) }
    {
        let (Some(most_marks), Some(most_chunks)) = (
            NonZeroUsize::new(marks),
            NonZeroUsize::new(chunks),
        ) else {
            return Err(AllocError);
        };
        Ok(MarkShelf {
            marks: LruCache::sparse(alloc, most_marks)?,
            chunks: LruCache::sparse(alloc, most_chunks)?,
            joints: LruCache::sparse(alloc, most_chunks)?,
            names: IndexMap::new(alloc),
            most_names: names,
            next: 0,
        })
    }

    /// Brings the name of a checkpoint to the front, or adds it there, and gives the name that has no room then: its
    /// checkpoint is to be given up.
    pub fn touch(&mut self, id: u32) -> Option<u32>
        ensures { Touches self.old id self.new result }
    {
        bring(&mut self.marks, id)
    }

    /// How many chunks it has room for.
    pub fn most_chunks(&self) -> usize
        ensures { result ≡ self.now.most_chunks }
    {
        self.chunks.cap().get()
    }

    /// Keeps a chunk under the next number, for which its name then stands.
    pub fn remember(&mut self, chunk: ChunkRun)
        ensures { Remembers self.old chunk self.new }
    {
        self.remember_behind(chunk, None);
    }

    /// As `remember`, of a chunk that begins where the one with a number ends, if that is known: where the one is found after the
    /// other, it is known to begin there. Gives the number of the chunk, if it isn't lost.
    pub fn remember_behind(&mut self, chunk: ChunkRun, before: Option<u64>) -> Option<u64>
        requires { IfSome before (λ k. EndsWith self.old.chunks k chunk.start) }
        ensures remembers { RemembersBehind self.old chunk before self.new }
        ensures number { MatchOption result (self.new ≡ self.old)
            (λ n. (n ≡ self.old.next)
            × Notes (remembered self.old chunk) (joint_behind n n before) self.new) }
        ensures ends { IfSome result
            (λ n. EndsWith self.new.chunks n (end_from chunk.start chunk.ops)) }
    {
        if self.next == u64::MAX {
            return None;
        }
        let Ok(_) = self.names.reserve(1) else {
            return None;
        };
        let name = ChunkName::of(chunk.ops());
        let number = self.next;
        if !keep(&mut self.chunks, number, chunk) {
            return None;
        }
        note(&mut self.names, self.most_names, name, number);
        join(&mut self.joints, number, before, number);
        self.next += 1;
        Some(number)
    }

    /// The chunk that the name of the operations stands for, if it begins with this heap and has these operations. It
    /// goes to the front, also where it is another. The name of a chunk that is gone goes too.
    pub fn find(&mut self, heap: &Heap, ops: &[Op]) -> Option<ChunkRun>
        ensures shelf { self.new ≡ sought self.old (name_of ops.now) }
        ensures start { IfSome result (λ c. c.start ≡ heap.now) }
        ensures ops { IfSome result (λ c. c.ops ≡ ops.now) }
        ensures named { IfSome result (λ c. named self.old (name_of ops.now) ≡ Some c) }
    {
        let found = self.find_behind(heap, ops, None)?;
        Some(found.chunk)
    }

    /// As `find`, with the number of the chunk, where the heap is that at which the chunk with a number ends, if that is known: a
    /// chunk that was remembered or found after that one is known to begin with this heap. That it was found after that one is noted.
    pub fn find_behind(&mut self, heap: &Heap, ops: &[Op], before: Option<u64>) -> Option<Found>
        requires { IfSome before (λ k. EndsWith self.old.chunks k heap.now) }
        ensures shelf { Notes (sought self.old (name_of ops.now))
            (option_and_then (λ f. joint_behind self.old.next f.number before) result) self.new }
        ensures start { IfSome result (λ f. f.chunk.start ≡ heap.now) }
        ensures ops { IfSome result (λ f. f.chunk.ops ≡ ops.now) }
        ensures named { IfSome result (λ f. named self.old (name_of ops.now) ≡ Some f.chunk) }
        ensures number { IfSome result
            (λ f. lookup (name_eq (name_of ops.now)) self.old.names ≡ Some f.number) }
        ensures joined { IfSome result
            (λ f. f.is_joined ≡ is_joined self.old.chunks self.old.joints f.number before) }
        ensures ends { IfSome result
            (λ f. EndsWith self.new.chunks f.number (end_from f.chunk.start f.chunk.ops)) }
    {
        let name = ChunkName::of(ops);
        let number = *self.names.get(&name)?;
        // This tells that no number comes twice.
        let _count = self.chunks.len();
        let answer = match self.chunks.peek(&number) {
            None => {
                self.names.shift_remove(&name);
                return None;
            }
            Some(chunk) => {
                let is_known = is_behind(&self.chunks, &self.joints, number, before);
                serving(chunk, heap, ops, is_known)
            }
        };
        self.chunks.promote(&number);
        // So a joint stays as long as its chunk.
        self.joints.promote(&number);
        let served = answer?;
        // So that this chunk is known to begin here, where the two are found again, one after the other.
        join(&mut self.joints, number, before, self.next);
        Some(Found {
            number,
            chunk: served.0,
            is_joined: served.1,
        })
    }
}
