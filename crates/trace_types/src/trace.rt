//! A trace: operations with distinct numbers, in the order of the traced program.
ghost use Rattle.std.specs.Prelude.{◌≡◌, ◌<◌, ◌++◌, [], ◌∷◌, length, slice_get, Ok, OnOk, OnErr, IfErr};
ghost use Rattle.std.specs.Option.{option_copied};
ghost use Rattle.trace_types.specs.Trace.{IsTrace, place_of, is_taken, IsNew, pushed, IsPushFault};

use crate::limits::MAX_OPS;
use crate::ops::{Op, TraceFault};
use crate::places;
use std::alloc::{AllocError, Global};
use std::collections::BTreeMap;
use std::marker::Model;

/// Operations with distinct numbers, in order, at most `MAX_OPS`. Contracts see the list of the operations.
#[derive(Drop)]
pub struct Trace {
    ops: Vec<Op>,
    // Where each number stands. It isn't kept while numbers rise, as those of a recorded trace do.
    places: Option<BTreeMap<u32, usize>>,
}

impl Model for Trace {
    ghost use Rattle.std.specs.Prelude.{List};
    ghost use Rattle.trace_types.specs.Operation.{Operation};

    ghost Value = { List Operation };

    ghost use Rattle.trace_types.specs.Trace.{IsTrace};
    ghost use Rattle.trace_types.specs.Places.{ArePlaces};

    ghost view = { λ t. t.ops.items };

    ghost invariant = { λ t. IsTrace t.ops.items × ArePlaces t.places t.ops.items };
}

impl Trace {
    /// The empty trace. Takes no memory.
    pub fn new(alloc: Global) -> Trace
        ensures { result ≡ [] }
    {
        Trace {
            ops: Vec::new(alloc),
            places: None,
        }
    }

    /// How many operations there are.
    pub fn len(&self) -> usize
        ensures value { result ≡ length self.now }
        ensures is_trace { IsTrace self.now }
    {
        self.ops.len()
    }

    /// The operation at a place, from 0.
    pub fn op(&self, place: usize) -> Option<&Op>
        ensures { option_copied result ≡ slice_get self.now place }
    {
        self.ops.get(place)
    }

    /// All operations in order.
    pub fn as_slice(&self) -> &[Op]
        ensures value { result.now ≡ self.now }
        ensures is_trace { IsTrace self.now }
    {
        self.ops.as_slice()
    }

    /// Where the operation with this number stands, from 0. The trace is not walked.
    pub fn place(&self, id: u32) -> Option<usize>
        ensures { result ≡ place_of id self.now }
    {
        match &self.places {
            Some(places) => places.get(&id).copied(),
            None => places::place_by_halves(&self.ops, id),
        }
    }

    /// Adds an operation at the end, or leaves the trace as it is. The causes are tried in the order of `TraceFault`.
    pub fn push(&mut self, op: Op) -> Result<(), TraceFault>
        ensures ok { OnOk result (pushed self.old op ≡ Ok self.new) }
        ensures fault { IfErr result (λ e. IsPushFault e (pushed self.old op)) }
        ensures unchanged { OnErr result (self.new ≡ self.old) }
    {
        if self.is_taken(op.id()) {
            return Err(TraceFault::IdTaken);
        }
        if self.ops.len() >= MAX_OPS {
            return Err(TraceFault::TooMany);
        }
        Ok(self.append(op)?)
    }

    fn is_taken(&self, id: u32) -> bool
        ensures { result ≡ is_taken id self.now }
    {
        self.place(id).is_some()
    }

    // Adds an operation at the end.
    fn append(&mut self, op: Op) -> Result<(), AllocError>
        requires new { IsNew op.id self.old }
        requires room { length self.old < MAX_OPS }
        ensures ok { OnOk result (self.new ≡ self.old ++ op ∷ []) }
        ensures unchanged { OnErr result (self.new ≡ self.old) }
    {
        self.ops.reserve(1)?;
        places::add(&mut self.places, &self.ops, op.id())?;
        self.ops.push_reserved(op);
        Ok(())
    }
}
