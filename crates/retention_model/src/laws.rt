//! The laws of what is told of objects, each the contract of a function that does nothing.
ghost use Rattle.retention_model.specs.Laws.{SinceIsFold, NothingStands, OthersStay, ReachedByWays, RetainedFalls, LastLossTells, SomeSlotWasLost};

/// Since when a place holds its slot is told by one fold over the operations.
pub fn since_is_fold()
    ensures { SinceIsFold }
{}

/// At the start of a trace no place holds anything.
pub fn nothing_stands()
    ensures { NothingStands }
{}

/// What stands at other places than an operation's changes set and its events tell of is as before it.
pub fn others_stay()
    ensures { OthersStay }
{}

/// An object is reached exactly where a way leads to it from handles and cells.
pub fn reached_by_ways()
    ensures { ReachedByWays }
{}

/// What an object retains is what a release of all its strong slots destroys.
pub fn retained_falls()
    ensures { RetainedFalls }
{}

/// A leaked object has leaked since it, or one that leads to it at the end, last lost a strong slot.
pub fn last_loss_tells()
    ensures { LastLossTells }
{}

/// One of them lost one.
pub fn some_slot_was_lost()
    ensures { SomeSlotWasLost }
{}
