//! How often an object is named.
ghost use Rattle.std.specs.Prelude.{◌≡◌, ◌+◌, ◌<◌, ◌^◌};
ghost use Rattle.object_heap.specs.Gains.{ended};
ghost use Rattle.object_heap.specs.TableView.{are_zero, minus, plus, AreAmong, HasRoomFor};

/// How many slots name an object, and how many of its ends are pending.
#[derive(Clone, Copy, Debug, PartialEq, Eq)]
pub struct Counters {
    pub strong: u64,
    pub weak: u64,
    pub ends: u64,
}

/// The counters of what is named nowhere.
pub const NOTHING: Counters = Counters {
    strong: 0,
    weak: 0,
    ends: 0,
};

impl Counters {
    /// What these count and what others do.
    pub fn plus(self, more: Counters) -> Counters
        requires { HasRoomFor self more }
        ensures { result ≡ plus self more }
    {
        Counters {
            strong: self.strong + more.strong,
            weak: self.weak + more.weak,
            ends: self.ends + more.ends,
        }
    }

    /// What these count without what others do.
    pub fn minus(self, less: Counters) -> Counters
        requires { AreAmong less self }
        ensures { result ≡ minus self less }
    {
        Counters {
            strong: self.strong - less.strong,
            weak: self.weak - less.weak,
            ends: self.ends - less.ends,
        }
    }

    /// The counters of an object after its last strong slot: its end is counted besides.
    pub fn ended(self) -> Counters
        requires { self.ends + 1 < 2 ^ 64 }
        ensures { result ≡ ended self }
    {
        Counters {
            strong: 0,
            weak: self.weak,
            ends: self.ends + 1,
        }
    }

    /// Whether nothing is counted.
    pub fn are_zero(self) -> bool
        ensures { result ≡ are_zero self }
    {
        self.strong == 0 && self.weak == 0 && self.ends == 0
    }
}
