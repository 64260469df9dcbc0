//! Finds the part that has a place, by halves.
ghost use Rattle.std.specs.Prelude.{◌≡◌, [], List, IfSome, IfNone};
ghost use Rattle.trace_types.specs.Operation.{Operation};
ghost use Rattle.run_engine.specs.SegmentView.{SegmentView};
ghost use Rattle.run_engine.specs.inner.Parts.{starts_from, IsPartAt};

/// The index of the last part that begins at or before a place, where the parts begin at `starts`.
pub fn part_at(starts: &[usize], place: usize) -> Option<usize>
    ensures part { IfSome result (λ i. (parts : List (List Operation)) →
        starts.now ≡ starts_from 0 parts → IsPartAt parts place i) }
    ensures none { IfNone result ((parts : List (List Operation)) →
        starts.now ≡ starts_from 0 parts → parts ≡ []) }

    // The parts may be blocks of segments, too.
    ensures block { IfSome result (λ i. (blocks : List (List SegmentView)) →
        starts.now ≡ starts_from 0 blocks → IsPartAt blocks place i) }
    ensures no_block { IfNone result ((blocks : List (List SegmentView)) →
        starts.now ≡ starts_from 0 blocks → blocks ≡ []) }
{
    let begun = starts.partition_point(|start| *start <= place);
    if begun == 0 {
        return None;
    }
    Some(begun - 1)
}
