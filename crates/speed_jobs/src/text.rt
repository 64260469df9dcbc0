//! Text that is put together from short pieces, of which all bytes of room are copied at once.

use std::alloc::{AllocError, Global};

/// How many bytes a piece may have.
pub const ROOM: usize = 32;

/// A few bytes of text, and zeros behind them.
#[derive(Clone, Copy)]
pub struct Piece {
    bytes: [u8; ROOM],
    count: usize,
}

impl Piece {
    /// The piece of a text, with a space after each `:` and `,` where it is to be spaced.
    pub fn new(text: &[u8], is_spaced: bool) -> Self {
        let mut piece = Piece {
            bytes: [0; ROOM],
            count: 0,
        };
        piece.add(text, is_spaced);
        piece
    }

    /// Adds text to the piece. What has no room is left out.
    pub fn add(&mut self, text: &[u8], is_spaced: bool) {
        for byte in text {
            self.push(*byte);
            if is_spaced && matches!(byte, b':' | b',') {
                self.push(b' ');
            }
        }
    }

    fn push(&mut self, byte: u8) {
        if let Some(place) = self.bytes.get_mut(self.count) {
            *place = byte;
            self.count += 1;
        }
    }
}

/// A text that grows, in a vector that is longer.
#[derive(Drop)]
pub struct Text {
    bytes: Vec<u8>,
    end: usize,
    // those of each number below 10,000
    digits: Vec<u32>,
}

impl Text {
    pub fn new(alloc: Global, expected: usize) -> Result<Self, AllocError> {
        let mut bytes = Vec::new(alloc);
        bytes.resize(expected, 0)?;
        let mut all = Vec::new(alloc);
        for number in 0..10_000 {
            all.push(digits(number))?;
        }
        Ok(Text {
            bytes,
            end: 0,
            digits: all,
        })
    }

    pub fn end(&self) -> usize {
        self.end
    }

    pub fn text(&self) -> &[u8] {
        self.bytes.as_slice().get(..self.end).unwrap_or(&[])
    }

    pub fn clear(&mut self) {
        self.end = 0;
    }

    /// The text's bytes.
    pub fn into_bytes(self) -> Vec<u8> {
        let mut bytes = self.bytes;
        bytes.truncate(self.end);
        bytes
    }

    /// Makes room for some bytes more. What is pushed where there is no room is lost.
    pub fn reserve(&mut self, more: usize) -> Result<(), AllocError> {
        let wanted = self.end.saturating_add(more);
        if self.bytes.len() < wanted {
            self.bytes.resize(wanted.saturating_mul(2), 0)?;
        }
        Ok(())
    }

    pub fn push_piece(&mut self, piece: Piece) {
        let Piece { bytes, count } = piece;
        if let Some(behind) = self.bytes.as_mut_slice().get_mut(self.end..) {
            if let Some(room) = behind.first_chunk_mut::<ROOM>() {
                *room = bytes;
                self.end = self.end.wrapping_add(count);
            }
        }
    }

    /// Adds a number in decimal digits.
    pub fn push_number(&mut self, number: u32) {
        if number < 10_000 {
            return self.push_first(number);
        }
        let upper = number / 10_000;
        if upper < 10_000 {
            self.push_first(upper);
        } else {
            self.push_first(upper / 10_000);
            let digits = self.digits_of(upper % 10_000);
            self.push_digits(digits, 4);
        }
        let digits = self.digits_of(number % 10_000);
        self.push_digits(digits, 4);
    }

    // A number below 10,000 without leading zeros.
    fn push_first(&mut self, number: u32) {
        let digits = self.digits_of(number);
        if number >= 1000 {
            self.push_digits(digits, 4);
        } else if number >= 100 {
            self.push_digits(digits >> 8, 3);
        } else if number >= 10 {
            self.push_digits(digits >> 16, 2);
        } else {
            self.push_digits(digits >> 24, 1);
        }
    }

    fn digits_of(&self, number: u32) -> u32 {
        self.digits.get(number as usize).copied().unwrap_or(0)
    }

    fn push_digits(&mut self, digits: u32, count: usize) {
        if let Some(behind) = self.bytes.as_mut_slice().get_mut(self.end..) {
            if let Some(room) = behind.first_chunk_mut::<4>() {
                *room = digits.to_le_bytes();
                self.end = self.end.wrapping_add(count);
            }
        }
    }

    /// Puts another byte at a place.
    pub fn set(&mut self, place: usize, byte: u8) {
        if let Some(there) = self.bytes.get_mut(place) {
            *there = byte;
        }
    }

    /// Adds bytes, and makes room for them.
    pub fn push_bytes(&mut self, bytes: &[u8]) -> Result<(), AllocError> {
        self.reserve(bytes.len())?;
        if let Some(behind) = self.bytes.as_mut_slice().get_mut(self.end..) {
            for (there, byte) in behind.iter_mut().zip(bytes) {
                *there = *byte;
            }
            self.end = self.end.wrapping_add(bytes.len());
        }
        Ok(())
    }
}

// The four digits of a number below 10,000, the first one in the lowest byte.
fn digits(number: u32) -> u32 {
    let upper = number / 100 % 100;
    let lower = number % 100;
    (upper / 10 | (upper % 10) << 8 | (lower / 10) << 16 | (lower % 10) << 24) | 0x3030_3030
}
