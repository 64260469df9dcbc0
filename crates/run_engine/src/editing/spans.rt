//! Spans of operations: those that stay where they stand in an original, and new ones.
ghost use Rattle.std.specs.Prelude.{◌≡◌, ℕ, ◌+◌, ◌<◌, ◌≤◌, List, length, take, remove, IfOk};
ghost use Rattle.trace_types.specs.Operation.{Operation};
ghost use Rattle.run_engine.specs.inner.Spans.{laid, span_length, total, AreFit, IsFound};

use std::alloc::AllocError;
use trace_types::limits::MAX_OPS;
use trace_types::ops::Op;

/// Operations of an original, from a place on, or a new one.
#[derive(Drop)]
pub enum Span<'a> {
    Old(usize, usize),
    New(&'a Op),
}

impl<'a> Span<'a> {
    /// How many operations the span has.
    pub fn len(&self) -> usize
        ensures { result ≡ span_length self.now }
    {
        match self {
            Span::Old(_, len) => *len,
            Span::New(_) => 1,
        }
    }
}

/// The span that has a place, and where in the span it is.
pub fn find(spans: &[Span], place: usize) -> (usize, usize)
    ensures { IsFound spans.now place result.0 result.1 }
{
    let mut rest = place;
    for (i, span) in spans.iter().enumerate() {
        if rest < span.len() {
            return (i, rest);
        }
        rest -= span.len();
    }
    (spans.len(), rest)
}

/// Makes a span begin at a place, and tells which: where it isn't behind all, that span has an operation.
pub fn split(spans: &mut Vec<Span>, place: usize) -> Result<usize, AllocError>
    requires fit { AreFit MAX_OPS spans.old.items }
    requires within { place ≤ total spans.old.items }
    ensures found { IfOk result (λ i. IsFound spans.new.items place i 0) }
    ensures laid { (base : List Operation) → laid base spans.new.items ≡ laid base spans.old.items }
    ensures fit { (n : ℕ) → AreFit n spans.old.items → AreFit n spans.new.items }
    ensures total { total spans.new.items ≡ total spans.old.items }
{
    let (i, rest) = find(spans, place);
    if rest == 0 {
        return Ok(i);
    }
    let Span::Old(from, len) = &spans[i] else {
        return Ok(i);
    };
    let (from, len) = (*from, *len);
    spans.insert(i + 1, Span::Old(from + rest, len - rest))?;
    spans[i] = Span::Old(from, rest);
    Ok(i + 1)
}

/// Takes away the first operation of the span at i.
pub fn cut(spans: &mut Vec<Span>, i: usize)
    requires fit { AreFit MAX_OPS spans.old.items }
    requires within { i < length spans.old.items }
    requires some { total (take i spans.old.items) < total (take (i + 1) spans.old.items) }
    ensures laid { (base : List Operation) → AreFit (length base) spans.old.items →
        laid base spans.new.items ≡
        remove (laid base spans.old.items) (total (take i spans.old.items)) }
    ensures fit { (n : ℕ) → AreFit n spans.old.items → AreFit n spans.new.items }
    ensures total { total spans.new.items + 1 ≡ total spans.old.items }
{
    if let Span::Old(from, len) = &spans[i] {
        let (from, len) = (*from, *len);
        spans[i] = Span::Old(from + 1, len - 1);
        return;
    }
    spans.remove(i);
}
