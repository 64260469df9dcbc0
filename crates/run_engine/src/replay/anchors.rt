//! Where a long run has anchors: heaps from which a replay may go on where no checkpoint is kept.
ghost use Rattle.std.specs.Prelude.{◌≡◌, ◌<◌, IfSome};

use crate::segments::blocks::Segments;
use object_heap::Heap;

/// A run of at most so many operations has none: a desk has room for a checkpoint at each of its cuts.
const SHORT: usize = 65_536;

/// How many anchors a run has at most where it is loaded, or where all of it is stepped for an edit.
const SPREAD: usize = 256;

/// How many it has about where it is loaded, and how far apart they are at least where there are more.
const LOADED: usize = 128;

const LOADED_APART: usize = 1_024;

/// The same where it is stepped for an edit. After an anchor all nodes that change are copied once, so these are fewer.
const STEPPED: usize = 64;

const STEPPED_APART: usize = 2_048;

/// An edit makes at most as many as are lacking of so many, where the old run has none: twice as many as a run has at most as it is loaded, since it
/// isn't known yet which of the old ones stay. At each of the 64 places of a batch it makes maybe one beside the old one there: so no run has
/// more than 576.
const MOST: usize = 512;

/// From which position on an anchor is due, how far behind one the next is, and how many may be made yet where the old run has none.
#[derive(Clone, Copy, Debug, PartialEq, Eq)]
pub struct Anchoring {
    due: usize,
    apart: usize,
    left: usize,
    // whether the old run has one where the next is due
    is_old: bool,
}

impl Anchoring {
    /// Of a run of so many operations that is loaded. It begins at a checkpoint.
    pub fn loaded(len: usize) -> Self {
        let apart = apart_of(len, LOADED, LOADED_APART);
        Anchoring {
            due: apart,
            apart,
            left: MOST,
            is_old: false,
        }
    }

    /// Of a run of so many operations that is edited: a replay goes on at a position that the old run has an anchor at, or maybe not.
    pub fn edited(old: &Segments, len: usize, at: usize, is_anchored: bool) -> Self {
        let left = MOST.saturating_sub(old.anchors());
        let apart = if left == 0 {
            usize::MAX
        } else {
            apart_of(len, STEPPED, STEPPED_APART)
        };
        let anchoring = Anchoring {
            due: at.saturating_add(apart),
            apart,
            left,
            is_old: false,
        };
        anchoring.anew(at, is_anchored)
    }

    /// Whether one is due at a position, and may be made.
    pub fn is_due(self, at: usize) -> bool {
        self.due <= at && (self.is_old || self.left > 0)
    }

    /// The same behind a position, where one is made if it is due.
    pub fn behind(self, at: usize) -> Self {
        if !self.is_due(at) {
            return self;
        }
        let left = if self.is_old {
            self.left
        } else {
            self.left.saturating_sub(1)
        };
        Anchoring {
            due: at.saturating_add(self.apart),
            apart: self.apart,
            left,
            is_old: false,
        }
    }

    /// The same where a replay goes on at a position. Where the old run has an anchor there, one is due again.
    pub fn anew(self, at: usize, is_anchored: bool) -> Self {
        if is_anchored && self.apart < usize::MAX {
            return Anchoring {
                due: at,
                apart: self.apart,
                left: self.left,
                is_old: true,
            };
        }
        self
    }

    /// The heap at a position as an anchor, if one is due there and the heap can be shared.
    pub fn anchor(self, heap: &Heap, at: usize) -> Option<Heap>
        ensures { IfSome result (λ h. h ≡ heap.now) }
    {
        if !self.is_due(at) {
            return None;
        }
        match heap.share() {
            Ok(share) => Some(share),
            Err(_) => None,
        }
    }
}

// How far anchors are apart, spread over a run of so many operations: there are about so many, or more that are so far apart.
fn apart_of(len: usize, about: usize, apart: usize) -> usize
    requires { 0 < about }
{
    if len <= SHORT {
        return usize::MAX;
    }
    (len / SPREAD).max(apart).min(len / about)
}
