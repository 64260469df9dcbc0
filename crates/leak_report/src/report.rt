//! What the report of a replay says.
ghost use Rattle.std.specs.Prelude.{◌≡◌, ◌≤◌, length, IfOk};
ghost use Rattle.trace_types.specs.Stretches.{ops_of, outcomes_of};
ghost use Rattle.leak_report.specs.Report.{report_of};

use crate::leaks::find_leaks;
use crate::lives::lives;
use crate::shown::Report;
use object_heap::Heap;
use std::alloc::{AllocError, Global};
use trace_types::limits::MAX_OPS;
use trace_types::outcomes::Outcome;
use trace_types::stretches::Stretch;
use trace_types::trace::Trace;

/// What these outcomes of a trace and the heap at its end show.
///
/// There are as many outcomes as operations. The report borrows both.
pub fn report<'a>(
    alloc: Global,
    trace: &'a Trace,
    outcomes: &'a [Outcome],
    heap: &Heap,
) -> Result<Report<'a>, AllocError>
    requires { length outcomes.now ≡ length trace.now }
    ensures { IfOk result (λ r. r ≡ report_of trace.now outcomes.now heap.now) }
{
    let mut stretches = Vec::new(alloc);
    let ops = trace.as_slice();
    stretches.push(Stretch { ops, outcomes })?;
    report_of_stretches(alloc, stretches, heap)
}

/// What these stretches of a trace, all of them in order, and the heap at its end show.
///
/// The stretches have at most `MAX_OPS` operations. The report borrows them and their outcomes.
pub fn report_of_stretches<'a>(
    alloc: Global,
    stretches: Vec<Stretch<'a>>,
    heap: &Heap,
) -> Result<Report<'a>, AllocError>
    requires { length (ops_of stretches.items) ≤ MAX_OPS }
    ensures { IfOk result (λ r. r ≡ report_of
        (ops_of stretches.entry.items) (outcomes_of stretches.entry.items) heap.now) }
{
    let lives = lives(alloc, &stretches)?;
    let leaks = find_leaks(alloc, heap)?;
    Ok(Report::new(stretches, lives, leaks))
}
