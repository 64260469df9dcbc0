//! Walks over the segments of one block.
ghost use Rattle.std.specs.Prelude.{◌≡◌, ◌≤◌, length};
ghost use Rattle.trace_types.specs.Trace.{place_of};
ghost use Rattle.run_engine.specs.Segments.{trace_of, IsLastFrom};

use crate::segments::segment::Segment;
use trace_types::limits::MAX_OPS;

/// How many operations there are.
pub fn len_of(segments: &[Segment]) -> usize
    requires { length (trace_of segments.now) ≤ MAX_OPS }
    ensures { result ≡ length (trace_of segments.now) }
{
    let mut len = 0;
    for segment in segments {
        len += segment.ops().len();
    }
    len
}

/// The segment that has a position, and where it begins: behind all, how many segments and operations there are.
pub fn last_in(segments: &[Segment], position: usize) -> (usize, usize)
    ensures { IsLastFrom segments.now position result.0 result.1 }
{
    let mut at = 0;
    for (i, segment) in segments.iter().enumerate() {
        let len = segment.ops().len();
        if position - at < len {
            return (i, at);
        }
        at += len;
    }
    (segments.len(), at)
}

/// Where the operation with this number stands, from 0.
pub fn place_in(segments: &[Segment], id: u32) -> Option<usize>
    requires { length (trace_of segments.now) ≤ MAX_OPS }
    ensures { result ≡ place_of id (trace_of segments.now) }
{
    let mut at = 0;
    for segment in segments {
        if let Some(place) = segment.place(id) {
            return Some(at + place);
        }
        at += segment.ops().len();
    }
    None
}
