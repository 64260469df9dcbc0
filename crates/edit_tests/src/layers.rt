//! Many differences that last to the end: what differs lies over the checkpoints, layer over layer.
ghost use Rattle.std.specs.Prelude.{◌<◌};

use crate::small_runs::{after, is_replay, run_of};
use crate::small_traces::insertion;
use crate::untouched::with_pairs;
use run_engine::Run;
use std::alloc::Global;
use std::process::Abort;
use std::test::Fail;
use trace_types::edits::Edit;
use trace_types::kinds::Kind;

// A handle more, behind the operation with a number.
fn handle_more(after: u32, n: u32) -> Result<Edit, Fail>
    requires { n < 1_000 }
{
    insertion(after, 5_000 + n, Kind::Null { to: 30 + n })
}

// The run after an edit stands in place of the one before. It tells how many operations were stepped.
pub fn edit(alloc: Global, run: &mut Run, edit: Edit) -> Result<u64, Fail> {
    let (edited, steps) = after(alloc, run, edit)?;
    *run = edited;
    Ok(steps)
}

// Twenty edits, one after the other, each of another stretch: that is stepped, and all behind it is taken over each time.
fn assert_over(rt: &impl Abort, alloc: Global, run: &mut Run) -> Result<(), Fail> {
    for n in 0..20u32 {
        let steps = edit(alloc, run, handle_more(100 * n + 102, n)?)?;
        assert_eq!(rt; steps, 65);
    }
    assert!(rt; is_replay(alloc, run)?);
    Ok(())
}

// There are more of them than layers may lie over one another.
#[test]
fn twenty_edits_lie_over_one_another(rt: HostRuntime) -> Result<(), Fail> {
    let alloc = rt.alloc();
    let mut run = run_of(alloc, with_pairs(alloc, 4_100)?)?;
    assert_over(&rt, alloc, &mut run)
}
