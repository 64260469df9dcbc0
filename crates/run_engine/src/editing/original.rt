//! The operations that edits begin with, where they stand.
ghost use Rattle.std.specs.Prelude.{◌≡◌, ◌<◌, ◌≤◌, IfSome, length, take, drop, slice_index_or};
ghost use Rattle.std.specs.Arc.{arc_value};
ghost use Rattle.trace_types.specs.Trace.{IsTrace, place_of};
ghost use Rattle.run_engine.specs.Segments.{trace_of};

use crate::segments::blocks::Segments;
use crate::segments::seek::{ops_from, whole_at};
use std::marker::Model;
use std::sync::Arc;
use trace_types::limits::MAX_OPS;
use trace_types::ops::Op;
use trace_types::trace::Trace;

/// What has the operations that edits begin with: a trace, or a run's segments.
#[derive(Clone, Copy)]
pub enum Source<'a> {
    Trace(&'a Trace),
    Segments(&'a Segments),
}

/// The operations that edits begin with, where they stand. Contracts see the list of the operations.
#[derive(Drop)]
pub struct Original<'a> {
    source: Source<'a>,
    len: usize,
}

impl<'a> Model for Original<'a> {
    ghost use Rattle.std.specs.Prelude.{◌≡◌, ◌≤◌, List, length};
    ghost use Rattle.trace_types.specs.Operation.{Operation};
    ghost use Rattle.trace_types.specs.declared.limits.TheConstants.{MAX_OPS};
    ghost use Rattle.run_engine.specs.inner.Sources.{source_ops};

    ghost Value = { List Operation };

    ghost view = { λ o. source_ops o.source };

    ghost invariant = { λ o. (o.len ≡ length (source_ops o.source)) × (o.len ≤ MAX_OPS) };
}

impl<'a> Original<'a> {
    /// The operations of a trace. By its clauses a caller knows that they are one.
    pub fn of_trace(trace: &'a Trace) -> Self
        ensures value { result ≡ trace.entry.now }
        ensures is_trace { IsTrace trace.entry.now }
    {
        Original {
            source: Source::Trace(trace),
            len: trace.len(),
        }
    }

    /// The operations of a run's segments.
    pub fn of_segments(segments: &'a Segments) -> Self
        ensures { result ≡ trace_of segments.entry.now }
    {
        Original {
            source: Source::Segments(segments),
            len: segments.ops_len(),
        }
    }

    /// How many operations there are.
    pub fn len(&self) -> usize
        ensures value { result ≡ length self.now }
        ensures few { result ≤ MAX_OPS }
    {
        self.len
    }

    /// Operations that stand side by side, from this place on.
    pub fn from(&self, place: usize) -> &'a [Op]
        ensures some { place < length self.now → 0 < length result.now }
        ensures ops { result.now ≡ take (length result.now) (drop place self.now) }
    {
        match &self.source {
            Source::Trace(trace) => ops_behind(trace.as_slice(), place),
            Source::Segments(segments) => ops_from(segments, place),
        }
    }

    /// The operations of the segment that begins at a place, if one does, as the segment has them.
    pub fn whole(&self, place: usize) -> Option<&'a Arc<Vec<Op>>>
        ensures { IfSome result (λ o. (arc_value o.now).items
            ≡ take (length (arc_value o.now).items) (drop place self.now)) }
    {
        match &self.source {
            Source::Trace(_) => None,
            Source::Segments(segments) => whole_at(segments, place),
        }
    }

    /// The operation at a place.
    pub fn at(&self, place: usize) -> &'a Op
        requires { place < length self.now }
        ensures { result.now ≡ slice_index_or self.now place result.now }
    {
        let ops = self.from(place);
        &ops[0]
    }

    /// Where the operation with this number stands, from 0.
    pub fn place(&self, id: u32) -> Option<usize>
        ensures { result ≡ place_of id self.now }
    {
        match &self.source {
            Source::Trace(trace) => trace.place(id),
            Source::Segments(segments) => segments.place(id),
        }
    }
}

// The operations from a place on, if it is one.
fn ops_behind(ops: &[Op], place: usize) -> &[Op]
    ensures some { place < length ops.now → 0 < length result.now }
    ensures ops { result.now ≡ take (length result.now) (drop place ops.now) }
{
    if place >= ops.len() {
        return &[];
    }
    &ops[place..]
}
