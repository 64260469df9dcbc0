//! The model as a plain program over lists: slow and short, what every other replay is compared with.
ghost use Rattle.std.specs.Prelude.{◌≡◌, [], IfOk};
ghost use Rattle.ownership_model.specs.State.{nothing_held, IsSound};
ghost use Rattle.ownership_model.specs.Bounds.{IsBounded};
ghost use Rattle.ownership_model.specs.Step.{outcomes_from, end_from};
ghost use Rattle.ownership_model.specs.Plain.{state_of};

mod carry;
mod cells;
mod changes;
mod fields;
mod handles;
mod making;
mod names;
pub mod number_map;
mod release;
mod rows;
mod scopes;
pub mod state;
mod unique;
mod view;
mod wants;

use crate::plain::state::PlainState;
use std::alloc::{AllocError, Global};
use trace_types::outcomes::Outcome;
use trace_types::sequence::Sequence;
use trace_types::trace::Trace;

/// Replays a whole trace, of a program that holds nothing as it begins: the outcomes in order, and what is held in the end.
///
/// Each look-up walks a list, and each count, of which each drop asks for one, walks all slots. Takes memory at each operation.
pub fn plain_replay(
    alloc: Global,
    trace: &Trace,
) -> Result<(Sequence<Outcome>, PlainState), AllocError>
    ensures outcomes { IfOk result (λ r. r.0 ≡ outcomes_from nothing_held trace.now) }
    ensures end { IfOk result (λ r. state_of r.1 ≡ end_from nothing_held trace.now) }
    ensures sound { IfOk result (λ r. IsSound (state_of r.1) []) }
    ensures bounded { IfOk result (λ r. IsBounded (state_of r.1)) }
{
    let mut outcomes = Vec::new(alloc);
    let mut state = PlainState::empty(alloc);
    for op in trace.as_slice() {
        outcomes.push(state.step(alloc, op)?)?;
    }
    Ok((Sequence::from_vec(outcomes), state))
}
