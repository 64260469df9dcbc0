//! A number that stands for all that the calls of a job answered.

/// How many calls were made, how many of them had the exit status 0, and a hash of all statuses and outputs.
#[derive(Drop)]
pub struct Digest {
    pub calls: u32,
    pub fine: u32,
    pub hash: u64,
}

impl Digest {
    pub fn new() -> Self {
        Digest {
            calls: 0,
            fine: 0,
            hash: 0xcbf2_9ce4_8422_2325,
        }
    }

    /// Adds what one call answered.
    pub fn add(&mut self, status: u8, output: &[u8]) {
        self.calls = self.calls.wrapping_add(1);
        if status == 0 {
            self.fine = self.fine.wrapping_add(1);
        }
        self.mix(u64::from(status));
        self.mix(output.len() as u64);
        let (words, rest) = output.as_chunks::<8>();
        for word in words {
            self.mix(u64::from_le_bytes(*word));
        }
        for byte in rest {
            self.mix(u64::from(*byte));
        }
    }

    // FNV's step, a word at a time; the turn brings a word's high bytes down.
    fn mix(&mut self, word: u64) {
        self.hash = (self.hash ^ word)
            .wrapping_mul(0x0000_0100_0000_01b3)
            .rotate_left(29);
    }
}
