//! Numbers that look as if drawn at random, the same ones at each run.
ghost use Rattle.std.specs.Prelude.{◌<◌};

/// Draws numbers from a seed, as SplitMix64 does.
#[derive(Drop)]
pub struct Random {
    state: u64,
}

impl Random {
    pub fn new(seed: u64) -> Self {
        Random { state: seed }
    }

    /// Draws a number of 64 bits.
    pub fn draw(&mut self) -> u64 {
        self.state = self.state.wrapping_add(0x9e37_79b9_7f4a_7c15);
        let first = (self.state ^ (self.state >> 30)).wrapping_mul(0xbf58_476d_1ce4_e5b9);
        let second = (first ^ (first >> 27)).wrapping_mul(0x94d0_49bb_1331_11eb);
        second ^ (second >> 31)
    }

    /// Draws four numbers below 65,536.
    pub fn parts(&mut self) -> [u32; 4] {
        let all = self.draw();
        [
            (all & 0xffff) as u32,
            ((all >> 16) & 0xffff) as u32,
            ((all >> 32) & 0xffff) as u32,
            ((all >> 48) & 0xffff) as u32,
        ]
    }

    /// Draws a number below a bound.
    pub fn below(&mut self, bound: u32) -> u32
        requires { 0 < bound }
        ensures { result < bound }
    {
        ((self.draw() >> 32) as u32) % bound
    }
}
