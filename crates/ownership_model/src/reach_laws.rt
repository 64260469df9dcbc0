//! The laws of reach, leaks and holders, each the contract of a function that does nothing.
ghost use Rattle.ownership_model.specs.ReachLaws.{ReachIsLeast, NamedAreReached, LeakedAreUnreached, HoldersHold};

/// What counts as reached is the least set with what roots name and what fields of its members name.
pub fn reach_is_least()
    ensures { ReachIsLeast }
{}

/// What a handle, a cell or a field of a reached object names is reached.
pub fn named_are_reached()
    ensures { NamedAreReached }
{}

/// The leaked objects of a state are those that are alive and that no retain path leads to.
pub fn leaked_are_unreached()
    ensures { LeakedAreUnreached }
{}

/// The holders of an object are all fields of values that are alive and name it by a strong slot.
pub fn holders_hold()
    ensures { HoldersHold }
{}
