//! The laws of cycles, each the contract of a function that does nothing.
ghost use Rattle.retention_laws.specs.Laws.{EachIsExplained, CyclesRetainApart};

/// Each object that is alive is reached, or in a cycle, or a way leads to it from a cycle.
pub fn each_is_explained()
    ensures { EachIsExplained }
{}

/// What an object of one cycle retains and what one of another cycle retains have no object in common.
pub fn cycles_retain_apart()
    ensures { CyclesRetainApart }
{}
