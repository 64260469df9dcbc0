//! The lines of a trace, as a recorder writes them.

use crate::names::{Name, Op, Pieces};
use crate::recorder::Recorder;
use crate::text::Text;
use std::alloc::{AllocError, Global};

/// In which order the members of a line stand.
#[derive(Clone, Copy)]
pub enum Order {
    /// `id`, `t` and `op`, and then the others.
    HeadFirst,
    /// By the bytes of their names.
    ByName,
    /// `op` and `t`, the others, and at last `id`.
    HeadLast,
}

impl Order {
    /// One of them by turns.
    pub fn by_turn(turn: u32) -> Self {
        match turn % 3 {
            0 => Order::HeadFirst,
            1 => Order::ByName,
            _ => Order::HeadLast,
        }
    }
}

/// Where spaces stand in a line.
#[derive(Clone, Copy, PartialEq, Eq)]
pub enum Spaces {
    Nowhere,
    /// After the `{` and after each `:` and `,`.
    Everywhere,
    /// After each `:` and `,`, as `json.dumps` has them. Such a line is `HeadFirst`.
    Dumped,
}

/// A trace that is wanted.
#[derive(Clone, Copy)]
pub struct Plan {
    /// How many lines it has, or a few fewer.
    pub operations: u32,
    pub order: Order,
    pub spaces: Spaces,
    /// Each line says behind all else where in the program it was done.
    pub is_recorded: bool,
    pub seed: u64,
}

// How many bytes a line may have, with its newline.
const LINE: usize = 4097;

/// A field of a value that is to be made.
#[derive(Clone, Copy)]
pub enum Field {
    Null,
    Me,
    Handle(u32),
}

/// A member of an operation, beside those that each has. They are given by the bytes of their names.
#[derive(Clone, Copy)]
pub enum Member<'a> {
    Number(Name, u32),
    Fields(&'a [Field]),
    To(u32),
}

/// Lines of operations, which are numbered from 1.
#[derive(Drop)]
pub struct Lines {
    text: Text,
    // where each line begins, and where the last one ends
    starts: Vec<usize>,
    pieces: Pieces,
    order: Order,
    recorder: Option<Recorder>,
    count: u32,
}

impl Lines {
    /// No lines, with room for those that are planned.
    pub fn new(alloc: Global, plan: Plan) -> Result<Self, AllocError> {
        let mut starts = Vec::new(alloc);
        starts.reserve((plan.operations as usize).wrapping_add(1))?;
        starts.push(0)?;
        let recorder = if plan.is_recorded {
            Some(Recorder::new(plan))
        } else {
            None
        };
        Ok(Lines {
            starts,
            text: Text::new(alloc, (plan.operations as usize).saturating_mul(60))?,
            pieces: Pieces::new(alloc, plan)?,
            order: plan.order,
            recorder,
            count: 0,
        })
    }

    pub fn count(&self) -> u32 {
        self.count
    }

    pub fn into_text(self) -> Vec<u8> {
        self.text.into_bytes()
    }

    pub fn text(&self) -> &[u8] {
        self.text.text()
    }

    /// The line of an operation, without its newline.
    pub fn line(&self, id: u32) -> &[u8] {
        let index = id as usize;
        let start = self.start(index.wrapping_sub(1));
        let end = self.start(index).saturating_sub(1);
        self.text().get(start..end).unwrap_or(&[])
    }

    fn start(&self, index: usize) -> usize {
        self.starts.get(index).copied().unwrap_or(0)
    }

    /// Adds the line of the next operation.
    pub fn add(&mut self, label: u32, op: Op, members: &[Member]) -> Result<(), AllocError> {
        self.text.reserve(LINE)?;
        self.count = self.count.wrapping_add(1);
        let begin = self.text.end();
        match self.order {
            Order::HeadFirst => {
                self.push_number(Name::Id, self.count);
                self.push_head(label, op);
                self.push_members(members);
            }
            Order::HeadLast => {
                self.push_head(label, op);
                self.push_members(members);
                self.push_number(Name::Id, self.count);
            }
            Order::ByName => self.push_by_name(label, op, members),
        }
        if let Some(recorder) = &mut self.recorder {
            recorder.push(&mut self.text)?;
        }
        // Each member came with a comma before it.
        self.text.set(begin, b'{');
        self.text.push_piece(self.pieces.end);
        self.starts.push(self.text.end())?;
        Ok(())
    }

    fn push_by_name(&mut self, label: u32, op: Op, members: &[Member]) {
        let (to, others) = match members.split_last() {
            Some((Member::To(to), others)) => (Some(*to), others),
            _ => (None, members),
        };
        self.push_members(others);
        self.push_number(Name::Id, self.count);
        self.push_head(label, op);
        if let Some(to) = to {
            self.push_number(Name::To, to);
        }
    }

    fn push_members(&mut self, members: &[Member]) {
        for member in members {
            match member {
                Member::Number(name, number) => self.push_number(*name, *number),
                Member::To(to) => self.push_number(Name::To, *to),
                Member::Fields(fields) => self.push_fields(fields),
            }
        }
    }

    fn push_head(&mut self, label: u32, op: Op) {
        let piece = self.pieces.head(label, op);
        self.text.push_piece(piece);
    }

    fn push_number(&mut self, name: Name, number: u32) {
        let piece = self.pieces.name(name);
        self.text.push_piece(piece);
        self.text.push_number(number);
    }

    fn push_fields(&mut self, fields: &[Field]) {
        let piece = self.pieces.name(Name::Fields);
        self.text.push_piece(piece);
        self.text.push_piece(self.pieces.open);
        let mut is_first = true;
        for field in fields {
            if !is_first {
                self.text.push_piece(self.pieces.comma);
            }
            is_first = false;
            match field {
                Field::Null => self.text.push_piece(self.pieces.null),
                Field::Me => self.text.push_piece(self.pieces.me),
                Field::Handle(handle) => self.text.push_number(*handle),
            }
        }
        self.text.push_piece(self.pieces.close);
    }
}
