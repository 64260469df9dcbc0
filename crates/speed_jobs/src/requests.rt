//! Requests to edit a trace, each of which can be done.

use crate::lines::Lines;
use crate::mixed::HANDLES;
use crate::random::Random;
use crate::text::Text;
use crate::writer::LABELS;
use std::alloc::{AllocError, Global};

// How many edits a batch has.
const BATCH: u32 = 40;
// Operations come in groups of 64. A single edit takes the place 6, 14, 22 .. of a group, and the n-th batch the place 3 + 8 n, so that
// none looks for an operation that another one removed.
const GROUP: u32 = 64;
/// How many batches there can be.
pub const BATCHES: u32 = 8;
// How many bytes a number may take.
const NUMBER: usize = 16;

/// A trace, and the requests behind it.
#[derive(Drop)]
pub struct Requests {
    trace: Lines,
    operations: u32,
    text: Text,
    random: Random,
    count: u32,
    batches: u32,
    // the operation that the last single edit removed
    removed: Option<u32>,
}

impl Requests {
    pub fn new(alloc: Global, lines: Lines, seed: u64) -> Result<Self, AllocError> {
        Ok(Requests {
            operations: lines.count(),
            trace: lines,
            text: Text::new(alloc, 4096)?,
            random: Random::new(seed),
            count: 0,
            batches: 0,
            removed: None,
        })
    }

    /// The input: the trace, a line `--` and the requests. Leaves none.
    pub fn take_input(&mut self, alloc: Global) -> Result<Vec<u8>, AllocError> {
        let mut input = Vec::new(alloc);
        let size = self.trace.text().len().saturating_add(self.text.end());
        input.reserve(size.saturating_add(3))?;
        input.extend_from_slice(self.trace.text())?;
        input.extend_from_slice(b"--\n")?;
        input.extend_from_slice(self.text.text())?;
        self.text.clear();
        self.count = 0;
        Ok(input)
    }

    /// A request of one edit among the first operations: one is removed, then it is put back, and then another one gets another label.
    pub fn single(&mut self, first: u32) -> Result<(), AllocError> {
        let groups = first.min(self.operations) / 8;
        let id = self
            .random
            .below(groups.max(1))
            .wrapping_mul(8)
            .wrapping_add(6);
        let turn = self.count % 3;
        self.open()?;
        match self.removed {
            Some(removed) => {
                self.put_back(removed)?;
                self.removed = None;
            }
            None if turn == 0 => {
                self.remove(id)?;
                self.removed = Some(id);
            }
            None => self.relabel(id)?,
        }
        self.close()
    }

    /// A request of 40 edits, scattered over the whole trace. The operations must be 2,560 and more.
    pub fn batch(&mut self) -> Result<(), AllocError> {
        let stretch = self.operations / BATCH;
        let place = (self.batches % BATCHES).wrapping_mul(8).wrapping_add(3);
        self.open()?;
        for edit in 0..BATCH {
            let group = self.random.below((stretch / GROUP).max(1));
            let id = edit
                .wrapping_mul(stretch / GROUP)
                .wrapping_add(group)
                .wrapping_mul(GROUP)
                .wrapping_add(place);
            if edit > 0 {
                self.text.push_bytes(b",")?;
            }
            match edit % 3 {
                0 => self.remove(id)?,
                1 => self.insert_drop(id, edit)?,
                _ => self.relabel(id)?,
            }
        }
        self.batches = self.batches.wrapping_add(1);
        self.close()
    }

    fn push_number(&mut self, number: u32) -> Result<(), AllocError> {
        self.text.reserve(NUMBER)?;
        self.text.push_number(number);
        Ok(())
    }

    fn open(&mut self) -> Result<(), AllocError> {
        self.text.push_bytes(b"{\"base\":")?;
        self.push_number(self.count)?;
        self.text.push_bytes(b",\"session\":0,\"edits\":[")?;
        self.count = self.count.wrapping_add(1);
        Ok(())
    }

    fn close(&mut self) -> Result<(), AllocError> {
        self.text.push_bytes(b"]}\n")
    }

    fn remove(&mut self, id: u32) -> Result<(), AllocError> {
        self.text.push_bytes(b"{\"edit\":\"remove\",\"id\":")?;
        self.push_number(id)?;
        self.text.push_bytes(b"}")
    }

    fn put_back(&mut self, id: u32) -> Result<(), AllocError> {
        self.open_insertion(id.wrapping_sub(1))?;
        self.text.push_bytes(self.trace.line(id))?;
        self.text.push_bytes(b"}")
    }

    // A drop of some handle, under a number that no operation has.
    fn insert_drop(&mut self, after: u32, edit: u32) -> Result<(), AllocError> {
        let id = self
            .operations
            .wrapping_add(1)
            .wrapping_add(self.batches.wrapping_mul(BATCH))
            .wrapping_add(edit);
        let label = self.random.below(LABELS);
        let handle = self.random.below(HANDLES);
        self.open_insertion(after)?;
        self.text.push_bytes(b"{\"id\":")?;
        self.push_number(id)?;
        self.text.push_bytes(b",\"t\":")?;
        self.push_number(label)?;
        self.text.push_bytes(b",\"op\":\"drop\",\"h\":")?;
        self.push_number(handle)?;
        self.text.push_bytes(b"}}")
    }

    fn open_insertion(&mut self, after: u32) -> Result<(), AllocError> {
        self.text.push_bytes(b"{\"edit\":\"insert\",\"after\":")?;
        self.push_number(after)?;
        self.text.push_bytes(b",\"op\":")
    }

    fn relabel(&mut self, id: u32) -> Result<(), AllocError> {
        self.text.push_bytes(b"{\"edit\":\"change\",\"id\":")?;
        self.push_number(id)?;
        self.text.push_bytes(b",\"op\":")?;
        let begin = self.text.end();
        let line = self.trace.line(id);
        self.text.push_bytes(line)?;
        if let Some((place, label)) = label_of(line) {
            let more = self.random.below(LABELS - 1).wrapping_add(1);
            let other = label.wrapping_add(more) % LABELS;
            self.text.set(begin.wrapping_add(place), b'0' + other as u8);
        }
        self.text.push_bytes(b"}")
    }
}

// Where in a line its label stands, and the label: the digit behind `"t":`.
fn label_of(line: &[u8]) -> Option<(usize, u32)> {
    let name = line
        .windows(4)
        .position(|part| part == b"\"t\":".as_slice())?;
    let place = name.wrapping_add(4);
    let digit = line.get(place)?;
    Some((place, u32::from(digit.wrapping_sub(b'0'))))
}
