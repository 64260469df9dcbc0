//! Bounds of the numbers of operations.
ghost use Rattle.std.specs.Prelude.{◌≡◌, ◌++◌, List, None, IsTrue};
ghost use Rattle.trace_types.specs.Operation.{Operation};
ghost use Rattle.trace_types.specs.Trace.{place_of};
ghost use Rattle.run_engine.specs.inner.Parts.{AreBetween};

use trace_types::ops::Op;

/// Bounds of numbers.
#[derive(Clone, Copy)]
pub struct Bounds {
    least: u32,
    greatest: u32,
}

impl Bounds {
    /// Whether no operation has this number whose numbers are within the bounds.
    pub fn exclude(&self, id: u32) -> bool
        ensures { (ops : List Operation) → AreBetween self.now.least self.now.greatest ops →
            IsTrue result → place_of id ops ≡ None }
    {
        id < self.least || self.greatest < id
    }

    /// Bounds of what is within these or within others.
    pub fn with(&self, other: &Bounds) -> Bounds
        ensures { (ops more : List Operation) →
            AreBetween self.now.least self.now.greatest ops →
            AreBetween other.now.least other.now.greatest more →
            AreBetween result.least result.greatest (ops ++ more) }
    {
        Bounds {
            least: self.least.min(other.least),
            greatest: self.greatest.max(other.greatest),
        }
    }
}

/// The bounds of the operations' numbers.
pub fn bounds_of(ops: &[Op]) -> Bounds
    ensures { AreBetween result.least result.greatest ops.now }
{
    let mut bounds = Bounds {
        least: u32::MAX,
        greatest: 0,
    };
    for op in ops {
        let id = op.id();
        bounds = Bounds {
            least: bounds.least.min(id),
            greatest: bounds.greatest.max(id),
        };
    }
    bounds
}
