//! The names of checkpoints by last use.
ghost use Rattle.std.specs.Prelude.{◌≡◌, ◌⊎◌, None, Some, Contains, slice_get, take, nat_eq, option_and_then, if◌then◌else◌};
ghost use Rattle.std.specs.Map.{keys_of};
ghost use Rattle.mark_shelf.specs.Shelf.{in_front};

use lru::LruCache;

/// Brings a name to the front, or adds it there, and tells the name that has no room then. Where memory is refused, all stay.
pub fn bring(marks: &mut LruCache<u32, ()>, id: u32) -> Option<u32>
    ensures cap { marks.new.cap ≡ marks.old.cap }
    ensures names { ((keys_of marks.new.entries ≡ take marks.old.cap (in_front id (keys_of marks.old.entries)))
        × (result ≡ slice_get (in_front id (keys_of marks.old.entries)) marks.old.cap))
        ⊎ ((Contains (keys_of marks.old.entries) id → ⊥)
        × (marks.new ≡ marks.old) × (result ≡ None)) }
{
    // This tells that no name comes twice, and that there are no more than there may be.
    let _count = marks.len();
    let Ok(pushed) = marks.push(id, ()) else {
        return None;
    };
    other_than(id, pushed)
}

// The name that a push gives, unless it is the one that was pushed.
fn other_than(id: u32, pushed: Option<(u32, ())>) -> Option<u32>
    ensures { result ≡ option_and_then (λ e. if nat_eq e.0 id then None else Some e.0) pushed }
{
    let (name, _) = pushed?;
    if name == id { None } else { Some(name) }
}
