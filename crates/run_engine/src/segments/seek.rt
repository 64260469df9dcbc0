//! Finds a place among segments.
ghost use Rattle.std.specs.Prelude.{◌≡◌, ◌<◌, ◌≤◌, IfSome, IfNone, length, slice_get, take, drop};
ghost use Rattle.std.specs.Arc.{arc_value};
ghost use Rattle.std.specs.Option.{option_copied};
ghost use Rattle.ownership_model.specs.State.{nothing_held};
ghost use Rattle.run_engine.specs.Segments.{trace_of, outcomes_in, AreFull, AreReplayFrom, IsNoMark};

use crate::segments::blocks::Segments;
use std::sync::Arc;
use trace_types::limits::MAX_OPS;
use trace_types::ops::Op;
use trace_types::outcomes::Outcome;

/// Operations that stand side by side, from this place on.
pub fn ops_from(segments: &Segments, place: usize) -> &[Op]
    ensures some { place < length (trace_of segments.now) → 0 < length result.now }
    ensures ops { result.now ≡ take (length result.now) (drop place (trace_of segments.now)) }
{
    let (i, at) = segments.last_from(place);
    if i == segments.len() {
        return &[];
    }
    let segment = segments.at(i);
    let ops = segment.ops();
    let rest = place - at;
    if rest < ops.len() {
        return &ops[rest..];
    }
    &[]
}

/// The operations of the segment that begins at a place, if one does, as the segment has them.
pub fn whole_at(segments: &Segments, place: usize) -> Option<&Arc<Vec<Op>>>
    ensures { IfSome result (λ o. (arc_value o.now).items
        ≡ take (length (arc_value o.now).items) (drop place (trace_of segments.now))) }
{
    let (i, at) = segments.last_from(place);
    if i == segments.len() || at != place {
        return None;
    }
    Some(segments.at(i).shared_ops())
}

/// The operation at a place.
pub fn op_at(segments: &Segments, place: usize) -> Option<&Op>
    ensures { option_copied result ≡ slice_get (trace_of segments.now) place }
{
    let ops = ops_from(segments, place);
    ops.first()
}

/// The outcome at a place.
pub fn outcome_at(segments: &Segments, place: usize) -> Option<&Outcome>
    requires { AreReplayFrom nothing_held segments.now }
    ensures { option_copied result ≡ slice_get (outcomes_in segments.now) place }
{
    if place >= segments.ops_len() {
        return None;
    }
    let (i, at) = segments.last_from(place);
    let segment = segments.at(i);
    let outcomes = segment.outcomes();
    let own = place - at;
    if own < outcomes.len() {
        return Some(&outcomes[own]);
    }
    None
}

/// The index of the segment that begins at a position.
pub fn segment_at(segments: &Segments, position: usize) -> Option<usize>
    requires { AreFull segments.now }
    ensures within { IfSome result (λ i. i < length segments.now) }
    ensures few { IfSome result (λ i. i ≤ MAX_OPS) }
    ensures none { IfNone result (IsNoMark segments.now position) }
    ensures place { IfSome result (λ i. length (trace_of (take i segments.now)) ≡ position) }
{
    if position >= segments.ops_len() {
        return None;
    }
    let (i, at) = segments.last_from(position);
    if at != position {
        return None;
    }
    Some(i)
}
