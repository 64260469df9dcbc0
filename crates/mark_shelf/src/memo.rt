//! The chunks by last use, and their names.
ghost use Rattle.std.specs.Prelude.{◌≡◌, ◌∷◌, ◌<◌, ◌≤◌, IfSome, IsTrue, take};
ghost use Rattle.std.specs.Bool.{IsFalse};
ghost use Rattle.std.specs.List.{AllByRecursion};
ghost use Rattle.indexmap.specs.IndexMap.{insert_entry, index_map_len, spare};
ghost use Rattle.lru.specs.LruCache.{lru_cache};
ghost use Rattle.mark_shelf.specs.Shelf.{name_eq, newest};

use crate::names::{ChunkName, same_ops};
use indexmap::IndexMap;
use lru::LruCache;
use object_heap::Heap;
use op_step::ChunkRun;
use trace_types::ops::Op;

/// Puts a chunk in front, under a number above all. False where memory is refused: then the chunk is lost, and all stay.
pub fn keep(chunks: &mut LruCache<u64, ChunkRun>, number: u64, chunk: ChunkRun) -> bool
    requires { AllByRecursion (λ e. e.0 < number) chunks.old.entries }
    ensures ok { IsTrue result → chunks.new
        ≡ lru_cache (take chunks.old.cap ((number, chunk) ∷ chunks.old.entries)) chunks.old.cap }
    ensures err { IsFalse result → chunks.new ≡ chunks.old }
{
    // This tells that there is room for one.
    let _count = chunks.len();
    let Ok(_) = chunks.push(number, chunk) else {
        return false;
    };
    true
}

/// Lets a name stand for a number: in its old place, or else as the last, and then the oldest of full names goes.
pub fn note(names: &mut IndexMap<ChunkName, u64>, most: usize, name: ChunkName, number: u64)
    requires room { 0 < spare names.old }
    requires few { index_map_len names.old ≤ most }
    ensures entries { names.new.entries
        ≡ newest most (insert_entry name_eq names.old.entries name number) }
    ensures few { index_map_len names.new ≤ most }
{
    let _ = names.insert(name, number);
    if names.len() > most {
        names.shift_remove_index(0);
    }
}

/// The chunk again, if it begins with this heap and has these operations, and whether that was known of the heap. A heap may be large: it
/// is compared last, unless the chunk is known to begin with it, and only if its sum is that of the chunk's start, as it is of equal heaps.
pub fn serving(
    chunk: &ChunkRun,
    heap: &Heap,
    ops: &[Op],
    is_known: bool,
) -> Option<(ChunkRun, bool)>
    requires { IsTrue is_known → chunk.now.start ≡ heap.now }
    ensures same { IfSome result (λ r. r.0 ≡ chunk.now) }
    ensures start { IfSome result (λ r. r.0.start ≡ heap.now) }
    ensures ops { IfSome result (λ r. r.0.ops ≡ ops.now) }
    ensures known { IfSome result (λ r. r.1 ≡ is_known) }
{
    if !same_ops(chunk.ops(), ops) {
        return None;
    }
    if is_known {
        return Some((chunk.share().ok()?, true));
    }
    if is_same(chunk.start(), heap) {
        Some((chunk.share().ok()?, false))
    } else {
        None
    }
}

// Whether both are the same heap.
fn is_same(start: &Heap, heap: &Heap) -> bool
    ensures { IsTrue result → start.now ≡ heap.now }
{
    start.sum() == heap.sum() && start.same(heap)
}
