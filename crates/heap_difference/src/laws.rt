//! The laws of differences, each the contract of a function that does nothing.
ghost use Rattle.heap_difference.specs.Laws.{StretchesPass, DifferencesHold};
ghost use Rattle.heap_difference.specs.Puts.{PutsMakeScopes, PutsStay};
ghost use Rattle.heap_difference.specs.Layers.{LayersHold};

/// Operations that touch nothing that differs do the same in both states, and the difference stays as it is.
pub fn passing_law()
    ensures { StretchesPass }
{}

/// What differs behind operations is among what differed and what they touched; where nothing differs, two states are one.
pub fn differences_law()
    ensures { DifferencesHold }
{}

/// The scopes of the new state are the old ones without the handles that differ, and with those of the new state put in.
pub fn puts_law()
    ensures { PutsMakeScopes }
{}

/// What is put in stays as it is over operations that touch nothing that differs, if they touch none of the handles just under those that are put
/// in, or by what they name may end none of them.
pub fn puts_stay_law()
    ensures { PutsStay }
{}

/// What stands in a state at a difference can be kept, and be laid over older states behind operations that touch none of it.
pub fn layers_law()
    ensures { LayersHold }
{}
