//! The names of members and operations, as pieces of lines.

use crate::lines::{Order, Plan, Spaces};
use crate::text::Piece;
use std::alloc::{AllocError, Global};

/// A member but `t` and `op`.
#[derive(Clone, Copy)]
pub enum Name {
    Id,
    A,
    B,
    C,
    Desired,
    Expected,
    Fields,
    From,
    H,
    I,
    To,
}

// In the order of the names: the comma before the member, its name and the colon.
const NAMES: [&[u8]; 11] = [
    b",\"id\":",
    b",\"a\":",
    b",\"b\":",
    b",\"c\":",
    b",\"desired\":",
    b",\"expected\":",
    b",\"fields\":",
    b",\"from\":",
    b",\"h\":",
    b",\"i\":",
    b",\"to\":",
];

/// What is done.
#[derive(Clone, Copy)]
pub enum Op {
    New,
    NewCyclic,
    NewFrom,
    WeakNew,
    Null,
    Clone,
    Drop,
    Downgrade,
    Upgrade,
    TryUnwrap,
    IntoInner,
    GetMut,
    MakeMut,
    Counts,
    PtrEq,
    Set,
    Take,
    Get,
    CellNew,
    CellLoad,
    CellSwap,
    CellCas,
    CellDrop,
    ScopeEnd,
}

// In the order of the operations: the member `op`, with the comma before it.
const OPS: [&[u8]; 24] = [
    b",\"op\":\"new\"",
    b",\"op\":\"new_cyclic\"",
    b",\"op\":\"new_from\"",
    b",\"op\":\"weak_new\"",
    b",\"op\":\"null\"",
    b",\"op\":\"clone\"",
    b",\"op\":\"drop\"",
    b",\"op\":\"downgrade\"",
    b",\"op\":\"upgrade\"",
    b",\"op\":\"try_unwrap\"",
    b",\"op\":\"into_inner\"",
    b",\"op\":\"get_mut\"",
    b",\"op\":\"make_mut\"",
    b",\"op\":\"counts\"",
    b",\"op\":\"ptr_eq\"",
    b",\"op\":\"set\"",
    b",\"op\":\"take\"",
    b",\"op\":\"get\"",
    b",\"op\":\"cell_new\"",
    b",\"op\":\"cell_load\"",
    b",\"op\":\"cell_swap\"",
    b",\"op\":\"cell_cas\"",
    b",\"op\":\"cell_drop\"",
    b",\"op\":\"scope_end\"",
];

// How many labels have one digit.
const DIGITS: u8 = 10;

/// The pieces of a trace's lines.
#[derive(Drop)]
pub struct Pieces {
    names: Vec<Piece>,
    // of each operation one for each label of one digit
    heads: Vec<Piece>,
    pub comma: Piece,
    pub null: Piece,
    pub me: Piece,
    pub open: Piece,
    pub close: Piece,
    pub end: Piece,
}

impl Pieces {
    pub fn new(alloc: Global, plan: Plan) -> Result<Self, AllocError> {
        let is_spaced = plan.spaces != Spaces::Nowhere;
        let mut names = Vec::new(alloc);
        for name in NAMES {
            names.push(Piece::new(name, is_spaced))?;
        }
        if plan.spaces == Spaces::Dumped {
            // The `{` comes in place of the comma, and no space behind it.
            let mut first = Piece::new(b",", false);
            first.add(b"\"id\":", true);
            if let Some(id) = names.get_mut(Name::Id as usize) {
                *id = first;
            }
        }
        let mut heads = Vec::new(alloc);
        for op in OPS {
            for label in b'0'..b'0' + DIGITS {
                heads.push(head(plan, op, label))?;
            }
        }
        Ok(Pieces {
            names,
            heads,
            comma: Piece::new(b",", is_spaced),
            null: Piece::new(b"null", is_spaced),
            me: Piece::new(b"\"me\"", is_spaced),
            open: Piece::new(b"[", is_spaced),
            close: Piece::new(b"]", is_spaced),
            end: Piece::new(b"}\n", is_spaced),
        })
    }

    pub fn name(&self, name: Name) -> Piece {
        self.names.get(name as usize).copied().unwrap_or(self.comma)
    }

    /// The members `t` and `op`.
    pub fn head(&self, label: u32, op: Op) -> Piece {
        let row = op as usize * DIGITS as usize;
        self.heads
            .get(row.wrapping_add(label as usize))
            .copied()
            .unwrap_or(self.comma)
    }
}

fn head(plan: Plan, op: &[u8], label: u8) -> Piece {
    let is_spaced = plan.spaces != Spaces::Nowhere;
    let mut piece = Piece::new(b"", false);
    match plan.order {
        Order::HeadFirst => {
            piece.add(b",\"t\":", is_spaced);
            piece.add(&[label], false);
            piece.add(op, is_spaced);
        }
        _ => {
            piece.add(op, is_spaced);
            piece.add(b",\"t\":", is_spaced);
            piece.add(&[label], false);
        }
    }
    piece
}
