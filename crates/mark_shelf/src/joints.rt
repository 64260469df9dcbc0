//! Which chunks begin where others end.
ghost use Rattle.std.specs.Prelude.{◌≡◌, ◌⊎◌, Contains, IfSome};
ghost use Rattle.std.specs.Map.{keys_of};
ghost use Rattle.lru.specs.LruCache.{lru_cache};
ghost use Rattle.mark_shelf.specs.Joints.{is_joined, joint_behind, with_joint};

use lru::LruCache;
use op_step::ChunkRun;

/// Notes that a chunk begins where the one before it ends, if there is one and its number is below `below`. Where memory is refused, that
/// is forgotten.
pub fn join(joints: &mut LruCache<u64, u64>, number: u64, before: Option<u64>, below: u64)
    ensures cap { joints.new.cap ≡ joints.old.cap }
    ensures noted { (joints.new.entries
        ≡ with_joint joints.old.cap joints.old.entries (joint_behind below number before))
        ⊎ (IfSome (joint_behind below number before)
        (λ j. Contains (keys_of joints.old.entries) j.0 → ⊥)
        × (joints.new.entries ≡ joints.old.entries)) }
{
    let Some(last) = before else {
        return;
    };
    if last < below {
        let Ok(_) = joints.push(number, last) else {
            return;
        };
    }
}

/// Whether a chunk is known to begin where the one before it ends, which is still there.
pub fn is_behind(
    chunks: &LruCache<u64, ChunkRun>,
    joints: &LruCache<u64, u64>,
    number: u64,
    before: Option<u64>,
) -> bool
    ensures { result ≡ is_joined chunks.now.entries joints.now.entries number before }
{
    let (Some(last), Some(joined)) = (before, joints.peek(&number)) else {
        return false;
    };
    chunks.contains(&last) && *joined == last
}
