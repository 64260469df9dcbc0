//! What is kept from line to line.
use json::Scratch;
use std::alloc::Global;

// A walk that ends before a line does costs about as much as so many bytes of one, and what it went over in vain.
const END: usize = 14;
// Of what is read token by token, one byte in so many may be gone over in vain.
const SHARE: usize = 6;

const EVEN: usize = 8_192;

const MOST: usize = 12_288;

/// The scratch of the tokens, and what walks over lines have brought so far.
#[derive(Drop)]
pub struct LineScratch {
    pub tokens: Scratch,
    /// How many bytes were read token by token, up to the greatest number.
    pub token_bytes: usize,
    // From `EVEN` on lines are walked over. It rises by what walks read, and by a share of what tokens read; it falls by what walks went over
    // in vain.
    balance: usize,
}

impl LineScratch {
    pub fn new(alloc: Global) -> LineScratch {
        LineScratch {
            tokens: Scratch::new(alloc),
            token_bytes: 0,
            balance: MOST,
        }
    }

    /// Whether walks pay: else the next line is read token by token.
    #[inline(always)]
    pub fn pays(&self) -> bool {
        self.balance >= EVEN
    }

    /// Notes that a walk read so many bytes.
    #[inline(always)]
    pub fn note_walk(&mut self, bytes: usize) {
        self.balance = self.balance.saturating_add(bytes).min(MOST);
    }

    /// Notes that a text is read token by token.
    pub fn note_tokens(&mut self, text: &[u8]) {
        self.token_bytes = self.token_bytes.saturating_add(text.len());
        self.note_walk(text.len() / SHARE);
    }

    /// Notes that a walk read a line up to this rest, which is read token by token. Of the rest it went over a member in vain: up to a comma,
    /// or where its elements have commas, maybe over all of it.
    pub fn note_end(&mut self, line: &[u8], rest: &[u8]) {
        self.note_walk(line.len().saturating_sub(rest.len()));
        self.note_tokens(rest);
        let vain = if rest.starts_with(b"\"fields\"") {
            rest.len()
        } else {
            memchr::memchr(b',', rest).unwrap_or(rest.len())
        };
        self.note_vain(vain);
    }

    /// Notes that a walk went over so many bytes in vain.
    pub fn note_vain(&mut self, bytes: usize) {
        self.balance = self.balance.saturating_sub(bytes.saturating_add(END));
    }
}
