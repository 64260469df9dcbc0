//! What a trace of one kind of work is written with.

use crate::lines::{Field, Lines, Member, Plan};
use crate::names::{Name, Op};
use crate::random::Random;
use std::alloc::{AllocError, Global};

/// How many labels threads have: each is one digit.
pub const LABELS: u32 = 8;

/// Writes operations on handles that are numbered from some base.
#[derive(Drop)]
pub struct Writer {
    pub lines: Lines,
    pub random: Random,
    /// The label of the next operations.
    pub label: u32,
    base: u32,
    operations: u32,
}

impl Writer {
    pub fn new(alloc: Global, plan: Plan) -> Result<Self, AllocError> {
        let mut random = Random::new(plan.seed);
        let base = random.below(500_000);
        Ok(Writer {
            lines: Lines::new(alloc, plan)?,
            random,
            label: 0,
            base,
            operations: plan.operations,
        })
    }

    /// How many operations of the plan are left.
    pub fn left(&self) -> u32 {
        self.operations.saturating_sub(self.lines.count())
    }

    fn handle(&self, number: u32) -> u32 {
        self.base.wrapping_add(number)
    }

    /// A field that takes what a handle holds.
    pub fn field(&self, handle: u32) -> Field {
        Field::Handle(self.handle(handle))
    }

    /// Goes on as some thread.
    pub fn switch(&mut self) {
        self.label = self.random.below(LABELS);
    }

    fn add(&mut self, op: Op, members: &[Member]) -> Result<(), AllocError> {
        self.lines.add(self.label, op, members)
    }

    /// The handles that were made with the label end.
    pub fn scope_end(&mut self) -> Result<(), AllocError> {
        self.add(Op::ScopeEnd, &[])
    }

    /// An operation on one handle.
    pub fn on(&mut self, op: Op, h: u32) -> Result<(), AllocError> {
        let h = self.handle(h);
        self.add(op, &[Member::Number(Name::H, h)])
    }

    /// An operation that makes a handle from another one.
    pub fn from(&mut self, op: Op, from: u32, to: u32) -> Result<(), AllocError> {
        let from = self.handle(from);
        let to = self.handle(to);
        self.add(op, &[Member::Number(Name::From, from), Member::To(to)])
    }

    pub fn null(&mut self, to: u32) -> Result<(), AllocError> {
        let to = self.handle(to);
        self.add(Op::Null, &[Member::To(to)])
    }

    pub fn make(&mut self, to: u32, fields: &[Field]) -> Result<(), AllocError> {
        let to = self.handle(to);
        self.add(Op::New, &[Member::Fields(fields), Member::To(to)])
    }

    pub fn set(&mut self, h: u32, i: u32, from: u32) -> Result<(), AllocError> {
        let from = Member::Number(Name::From, self.handle(from));
        let h = Member::Number(Name::H, self.handle(h));
        self.add(Op::Set, &[from, h, Member::Number(Name::I, i)])
    }

    /// `take` or `get`.
    pub fn read(&mut self, op: Op, h: u32, i: u32, to: u32) -> Result<(), AllocError> {
        let h = Member::Number(Name::H, self.handle(h));
        let to = Member::To(self.handle(to));
        self.add(op, &[h, Member::Number(Name::I, i), to])
    }

    pub fn cell_new(&mut self, c: u32, from: u32) -> Result<(), AllocError> {
        let from = Member::Number(Name::From, self.handle(from));
        self.add(Op::CellNew, &[Member::Number(Name::C, c), from])
    }

    pub fn cell_load(&mut self, c: u32, to: u32) -> Result<(), AllocError> {
        let to = Member::To(self.handle(to));
        self.add(Op::CellLoad, &[Member::Number(Name::C, c), to])
    }

    pub fn cell_store(&mut self, c: u32, from: u32) -> Result<(), AllocError> {
        let from = Member::Number(Name::From, self.handle(from));
        self.add(Op::CellSwap, &[Member::Number(Name::C, c), from])
    }

    pub fn cell_swap(&mut self, c: u32, from: u32, to: u32) -> Result<(), AllocError> {
        let from = Member::Number(Name::From, self.handle(from));
        let to = Member::To(self.handle(to));
        self.add(Op::CellSwap, &[Member::Number(Name::C, c), from, to])
    }

    pub fn cell_cas(&mut self, c: u32, expected: u32, desired: u32) -> Result<(), AllocError> {
        let desired = Member::Number(Name::Desired, self.handle(desired));
        let expected = Member::Number(Name::Expected, self.handle(expected));
        self.add(
            Op::CellCas,
            &[Member::Number(Name::C, c), desired, expected],
        )
    }
}
