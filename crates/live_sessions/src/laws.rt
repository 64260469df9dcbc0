//! What the history of a desk says of what stands on it.
ghost use Rattle.std.specs.Prelude.{◌≡◌};
ghost use Rattle.live_sessions.specs.Fronts.{IsFront, trace_after};

use edit_desk::Desk;

/// The trace that stands is the one after the desk's history, each reply of which was the one that was due.
pub fn stands_after(desk: &Desk)
    ensures trace { desk.now.standing.trace
        ≡ trace_after desk.now.standing.opening desk.now.standing.history }
    ensures legal { IsFront desk.now.standing.opening desk.now.standing.history }
{
    let _opening = desk.opening();
}
