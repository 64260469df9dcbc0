//! The report of what a session reads, and of what a desk shows.
ghost use Rattle.std.specs.Prelude.{◌≡◌, IfOk};
ghost use Rattle.command_serve.specs.Replay.{report_of_replay};
ghost use Rattle.live_sessions.specs.Fronts.{IsFront, trace_after};
ghost use Rattle.live_sessions.specs.Views.{Reads};

use command_serve::report_on_run;
use edit_desk::Desk;
use live_sessions::{Naming, Pass, stands_after};
use std::alloc::{AllocError, Global};

/// The text of the report of what a session reads now: it is the report of the replay, from nothing, of the trace after the
/// session's front, whatever sessions submitted at the same time.
pub fn report_of_front<J: Naming>(alloc: Global, pass: &mut Pass<J>) -> Result<Vec<u8>, AllocError>
    ensures report { IfOk result (λ text. text.items
        ≡ report_of_replay (trace_after J.opening pass.new.front)) }
    ensures reads { Reads J.opening pass.old pass.new }
{
    pass.look();
    report_on_run(alloc, pass.last().run())
}

/// The text of the report of what a desk shows: it is the report of the replay, from nothing, of the trace after the desk's
/// history.
pub fn report_of_desk(alloc: Global, desk: &Desk) -> Result<Vec<u8>, AllocError>
    ensures report { IfOk result (λ text. text.items
        ≡ report_of_replay (trace_after desk.now.standing.opening desk.now.standing.history)) }
    ensures legal { IsFront desk.now.standing.opening desk.now.standing.history }
{
    stands_after(desk);
    report_on_run(alloc, desk.published().run())
}
