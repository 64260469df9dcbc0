//! Operations in an order of their own: those of an original, and new ones.
ghost use Rattle.std.specs.Prelude.{◌≡◌, ◌<◌, ◌≤◌, ◌++◌, List, length, take, drop, IfOk, OnOk, IfSome, IsTrue, slice_index_or, insert, remove, slice_set, slice_range};
ghost use Rattle.std.specs.Arc.{arc_value};
ghost use Rattle.trace_types.specs.Operation.{Operation};
ghost use Rattle.trace_types.specs.Trace.{IsTrace, place_of, is_taken, has_distinct_numbers};
ghost use Rattle.run_engine.specs.inner.Spans.{ops_in, Fits};
ghost use Rattle.run_engine.specs.HeadAndTail.{AreAlike};

use crate::editing::original::Original;
use crate::editing::spans::{Span, cut, find, split};
use std::alloc::{AllocError, Global};
use std::marker::Model;
use std::sync::Arc;
use trace_types::limits::MAX_OPS;
use trace_types::ops::Op;

/// Operations in an order of their own: those of an original, and new ones, which stand elsewhere. Contracts see the list
/// of the original's operations, and that of those which are listed.
///
/// A trace is edited as such a listing, so that no operation that stays is copied.
#[derive(Drop)]
pub struct Listing<'a> {
    base: Original<'a>,
    spans: Vec<Span<'a>>,
    len: usize,
}

impl<'a> Model for Listing<'a> {
    ghost use Rattle.std.specs.Prelude.{◌≡◌, ◌≤◌, length};
    ghost use Rattle.trace_types.specs.declared.limits.TheConstants.{MAX_OPS};
    ghost use Rattle.run_engine.specs.inner.ListingView.{ListingView, listing_code};

    ghost Value = { ListingView };

    ghost coded = { listing_code };

    ghost use Rattle.run_engine.specs.inner.Spans.{laid, total, AreFit};

    ghost view = { λ l. record { base = l.base; ops = laid l.base l.spans.items } };

    ghost invariant = { λ l.
        AreFit (length l.base) l.spans.items × (l.len ≡ total l.spans.items) ×
        (length l.base ≤ MAX_OPS) };
}

/// Operations that are the original's: where they stand there, and here, and how many they are.
#[derive(Clone, Copy)]
pub struct Alike {
    pub from: usize,
    pub at: usize,
    pub len: usize,
}

impl<'a> Listing<'a> {
    /// All operations of an original.
    pub fn of(alloc: Global, base: Original<'a>) -> Result<Self, AllocError>
        ensures base { IfOk result (λ l. l.base ≡ base.entry) }
        ensures ops { IfOk result (λ l. l.ops ≡ base.entry) }
    {
        let len = base.len();
        let mut spans = Vec::new(alloc);
        spans.push(Span::Old(0, len))?;
        Ok(Listing { base, spans, len })
    }

    /// How many operations the original has.
    pub fn base_len(&self) -> usize
        ensures { result ≡ length self.now.base }
    {
        self.base.len()
    }

    /// How many operations are listed.
    pub fn len(&self) -> usize
        ensures { result ≡ length self.now.ops }
    {
        self.len
    }

    /// The original's operation at a place.
    pub fn base_at(&self, place: usize) -> &'a Op
        requires { place < length self.now.base }
        ensures { result.now ≡ slice_index_or self.now.base place result.now }
    {
        self.base.at(place)
    }

    /// Operations that stand side by side, from this place on.
    pub fn from(&self, place: usize) -> &'a [Op]
        requires { place < length self.now.ops }
        ensures some { 0 < length result.now }
        ensures ops { result.now ≡ take (length result.now) (drop place self.now.ops) }
    {
        let (i, rest) = find(&self.spans, place);
        match &self.spans[i] {
            Span::New(op) => std::slice::from_ref(*op),
            Span::Old(from, len) => {
                let ops = self.base.from(*from + rest);
                let few = ops.len().min(*len - rest);
                &ops[..few]
            }
        }
    }

    /// The operation at a place.
    pub fn at(&self, place: usize) -> &'a Op
        requires { place < length self.now.ops }
        ensures { result.now ≡ slice_index_or self.now.ops place result.now }
    {
        let ops = self.from(place);
        &ops[0]
    }

    /// Where the operation at a place is the original's, those around it that are so too.
    pub fn alike(&self, place: usize) -> Option<Alike>
        requires { place < length self.now.ops }
        ensures { IfSome result (λ a. AreAlike self.now.base self.now.ops place a.from a.at a.len) }
    {
        let (i, rest) = find(&self.spans, place);
        match &self.spans[i] {
            Span::New(_) => None,
            Span::Old(from, len) => Some(Alike {
                from: *from,
                at: place - rest,
                len: *len,
            }),
        }
    }

    /// Copies of the operations from one place to another.
    pub fn copies(&self, alloc: Global, from: usize, to: usize) -> Result<Vec<Op>, AllocError>
        requires order { from ≤ to }
        requires within { to ≤ length self.now.ops }
        ensures { IfOk result (λ v. v.items ≡ slice_range self.now.ops from to) }
    {
        let mut copies = Vec::with_capacity(alloc, to - from)?;
        let mut at = from;
        while at < to {
            let ops = self.from(at);
            let few = ops.len().min(to - at);
            push_copies(&mut copies, &ops[..few])?;
            at += few;
        }
        Ok(copies)
    }

    /// The operations from one place to another, to share: where they are all of a segment of the original, the segment's own; else copies.
    pub fn shared(&self, alloc: Global, from: usize, to: usize) -> Result<Arc<Vec<Op>>, AllocError>
        requires order { from ≤ to }
        requires within { to ≤ length self.now.ops }
        ensures { IfOk result (λ o. (arc_value o).items ≡ slice_range self.now.ops from to) }
    {
        if let Some(own) = self.whole(from, to) {
            return Ok(Arc::try_clone(own)?);
        }
        Ok(Arc::new(alloc, self.copies(alloc, from, to)?)?)
    }

    // The operations from one place to another, if they are all of a segment of the original, as the segment has them.
    fn whole(&self, from: usize, to: usize) -> Option<&'a Arc<Vec<Op>>>
        requires { to ≤ length self.now.ops }
        ensures { IfSome result (λ o. (arc_value o.now).items ≡ slice_range self.now.ops from to) }
    {
        if from >= to {
            return None;
        }
        let (i, rest) = find(&self.spans, from);
        match &self.spans[i] {
            Span::New(_) => None,
            Span::Old(begin, len) => {
                if to - from > *len - rest {
                    return None;
                }
                let ops = self.base.whole(*begin + rest)?;
                if ops.len() != to - from {
                    return None;
                }
                Some(ops)
            }
        }
    }

    /// Where the operation with this number stands, from 0.
    pub fn place(&self, id: u32) -> Option<usize>
        requires base { IsTrace self.now.base }
        requires trace { IsTrace self.now.ops }
        ensures value { result ≡ place_of id self.now.ops }
        ensures within { IfSome result (λ place. place < length self.now.ops) }
    {
        let stands = self.base.place(id);
        let spans = self.spans.as_slice();
        let mut at = 0;
        for span in spans {
            if let Some(place) = place_in(span, stands, id) {
                return Some(at + place);
            }
            at += span.len();
        }
        None
    }

    /// Whether an operation that is listed has this number.
    pub fn is_taken(&self, id: u32) -> bool
        requires base { IsTrace self.now.base }
        requires trace { IsTrace self.now.ops }
        ensures { result ≡ is_taken id self.now.ops }
    {
        self.place(id).is_some()
    }

    /// Puts an operation in front of the one at a place, or at the end.
    pub fn insert(&mut self, place: usize, op: &'a Op) -> Result<(), AllocError>
        requires within { place ≤ length self.old.ops }
        requires room { length self.old.ops < MAX_OPS }
        ensures base { self.new.base ≡ self.old.base }
        ensures ops { OnOk result (self.new.ops ≡ insert self.old.ops place op.now) }
    {
        let i = split(&mut self.spans, place)?;
        self.spans.insert(i, Span::New(op))?;
        self.len += 1;
        Ok(())
    }

    /// Takes the operation at a place away.
    pub fn remove(&mut self, place: usize) -> Result<(), AllocError>
        requires { place < length self.old.ops }
        ensures base { self.new.base ≡ self.old.base }
        ensures ops { OnOk result (self.new.ops ≡ remove self.old.ops place) }
    {
        let i = split(&mut self.spans, place)?;
        cut(&mut self.spans, i);
        self.len -= 1;
        Ok(())
    }

    /// Puts an operation in the place of another.
    pub fn set(&mut self, place: usize, op: &'a Op) -> Result<(), AllocError>
        requires within { place < length self.old.ops }
        requires few { length self.old.ops ≤ MAX_OPS }
        ensures base { self.new.base ≡ self.old.base }
        ensures ops { OnOk result (self.new.ops ≡ slice_set self.old.ops place op.now) }
    {
        self.remove(place)?;
        self.insert(place, op)?;
        Ok(())
    }
}

// Puts copies of operations behind others.
fn push_copies(copies: &mut Vec<Op>, ops: &[Op]) -> Result<(), AllocError>
    ensures { OnOk result (copies.new.items ≡ copies.old.items ++ ops.now) }
{
    for op in ops {
        copies.push(op.clone()?)?;
    }
    Ok(())
}

// Where the operation with this number stands in a span, if it stands in the original at `stands`.
fn place_in(span: &Span, stands: Option<usize>, id: u32) -> Option<usize>
    ensures { (base : List Operation) → IsTrue (has_distinct_numbers base) →
        stands ≡ place_of id base → Fits (length base) span.now →
        result ≡ place_of id (ops_in base span.now) }
{
    match span {
        Span::New(op) => { if op.id() == id { Some(0) } else { None } }
        Span::Old(from, len) => match stands {
            Some(place) => {
                if *from <= place && place - *from < *len {
                    Some(place - *from)
                } else {
                    None
                }
            }
            None => None,
        },
    }
}
