//! Random traces, in which objects come to hold each other, are edited again and again over a shelf, each time after random checkpoints
//! were given up: each run is what a replay from nothing gives.
ghost use Rattle.std.specs.Prelude.{◌<◌};

use crate::small_runs::{is_replay, run_of};
use crate::small_traces::{add, batch, insertion, new, op};
use mark_shelf::MarkShelf;
use op_step::Meter;
use run_engine::Run;
use std::alloc::Global;
use std::test::Fail;
use trace_types::edits::{Batch, Edit};
use trace_types::kinds::{Field, Kind};
use trace_types::trace::Trace;

const TRACES: u32 = 100;

const EDITS: u32 = 21;

// How many edits are made at least, of all that are tried.
const MADE: u32 = 2_000;

const OPS: u32 = 400;

// The number of the operation that comes and goes.
const TURNED: u32 = 999_999;

/// Numbers that follow from a seed.
#[derive(Drop)]
pub struct Dice {
    state: u32,
}

impl Dice {
    /// The first of them.
    pub fn of(seed: u32) -> Dice {
        Dice { state: seed }
    }

    /// A number below the bound.
    pub fn roll(&mut self, bound: u32) -> u32
        requires { 0 < bound }
        ensures { result < bound }
    {
        self.state = self.state.wrapping_mul(1664525).wrapping_add(1013904223);
        (self.state / 65536) % bound
    }
}

// What an operation does, over few handles and fields, so that much of it can be done.
fn rolled(alloc: Global, dice: &mut Dice) -> Result<Kind, Fail> {
    let (a, b, i) = (dice.roll(5), dice.roll(5), dice.roll(2));
    Ok(match dice.roll(40) {
        0..=6 => new(alloc, a, &[Field::Null, Field::Null])?,
        7..=13 => Kind::Clone { from: a, to: b },
        14..=21 => Kind::Set { h: a, i, from: b },
        22..=25 => Kind::Drop { h: a },
        26..=27 => Kind::Take { h: a, i, to: b },
        28..=29 => Kind::Get { h: a, i, to: b },
        30..=31 => Kind::Downgrade { from: a, to: b },
        32 => Kind::Upgrade { from: a, to: b },
        33 => Kind::CellNew { c: i, from: a },
        34 => Kind::CellDrop { c: i },
        35 => Kind::MakeMut { h: a },
        _ => Kind::ScopeEnd,
    })
}

/// So many operations.
pub fn rolled_trace(alloc: Global, dice: &mut Dice, ops: u32) -> Result<Trace, Fail> {
    let mut trace = Trace::new(alloc);
    for id in 1..=ops {
        add(&mut trace, id, rolled(alloc, dice)?)?;
    }
    Ok(trace)
}

/// An edit of one of the first operations, whose new operation, if it has one, has a number of its own.
pub fn rolled_edit(alloc: Global, dice: &mut Dice, id: u32, first: u32) -> Result<Batch, Fail>
    requires some { 0 < first }
    requires few { first < 1_000_000 }
{
    let at = dice.roll(first) + 1;
    let op = op(id, rolled(alloc, dice)?)?;
    let edit = match dice.roll(3) {
        0 => Edit::Insert { after: at, op },
        1 => Edit::Change { id: at, op },
        _ => Edit::Remove { id: at },
    };
    batch(alloc, edit)
}

// An operation comes at the front, or goes again: what is replayed then may be known.
fn turned(alloc: Global, is_there: bool) -> Result<Batch, Fail> {
    if is_there {
        return batch(alloc, Edit::Remove { id: TURNED });
    }
    batch(alloc, insertion(0, TURNED, Kind::Counts { h: 0 })?)
}

/// Gives up each checkpoint by a roll of one in four.
pub fn give_up_some(alloc: Global, run: &mut Run, dice: &mut Dice) -> Result<(), Fail> {
    let marks = run.marks(alloc)?;
    for mark in marks.as_slice() {
        if dice.roll(4) == 0 {
            run.give_up(*mark);
        }
    }
    Ok(())
}

// How many edits were made, how many of them stopped early though the ends differ, and how many stepped nothing.
#[derive(Clone, Copy)]
pub struct Tally {
    made: u32,
    early: u32,
    known: u32,
}

impl Tally {
    fn nothing() -> Tally {
        Tally {
            made: 0,
            early: 0,
            known: 0,
        }
    }

    /// How many edits were made.
    pub fn made(self) -> u32 {
        self.made
    }

    // An edit that was made, and how many operations were stepped for it.
    fn count(&mut self, is_same_end: bool, steps: u64) {
        self.made = self.made.saturating_add(1);
        if steps <= 128 && !is_same_end {
            self.early = self.early.saturating_add(1);
        }
        if steps == 0 {
            self.known = self.known.saturating_add(1);
        }
    }

    fn add(&mut self, other: Tally) {
        self.made = self.made.saturating_add(other.made);
        self.early = self.early.saturating_add(other.early);
        self.known = self.known.saturating_add(other.known);
    }
}

// Counts an edit that was made, where its run is that of a replay.
fn count(
    alloc: Global,
    run: &Run,
    edited: &Run,
    steps: u64,
    tally: &mut Tally,
) -> Result<(), Fail> {
    if !is_replay(alloc, edited)? {
        return Err(Fail::from("another replay"));
    }
    tally.count(edited.end().same(run.end()), steps);
    Ok(())
}

// Puts the run after edits in the run's place, and says whether it did: it did not where they are refused.
fn edit_once(
    alloc: Global,
    run: &mut Run,
    edits: &Batch,
    shelf: &mut MarkShelf,
    tally: &mut Tally,
) -> Result<bool, Fail> {
    let mut meter = Meter::new();
    let Ok(edited) = run.edited(alloc, edits, Vec::new(alloc), shelf, &mut meter) else {
        return Ok(false);
    };
    let counted = count(alloc, run, &edited, meter.count(), tally);
    *run = edited;
    counted?;
    Ok(true)
}

// The edits of a turn.
fn rolled_edits(
    alloc: Global,
    dice: &mut Dice,
    turns: bool,
    is_there: bool,
    id: u32,
    first: u32,
) -> Result<Batch, Fail>
    requires some { 0 < first }
    requires few { first < 1_000_000 }
{
    if turns {
        turned(alloc, is_there)
    } else {
        rolled_edit(alloc, dice, id, first)
    }
}

/// Edits of a run, one after another, over a shelf, of some of the first operations.
pub fn edited_often(
    alloc: Global,
    dice: &mut Dice,
    run: &mut Run,
    shelf: &mut MarkShelf,
    first: u32,
) -> Result<Tally, Fail>
    requires some { 0 < first }
    requires few { first < 1_000_000 }
{
    let mut tally = Tally::nothing();
    let mut is_there = false;
    for turn in 0..EDITS {
        give_up_some(alloc, run, dice)?;
        let turns = dice.roll(3) == 0;
        let edits = rolled_edits(alloc, dice, turns, is_there, 1_000_000 + turn, first)?;
        // an operation that went in an earlier turn can't be edited
        if edit_once(alloc, run, &edits, shelf, &mut tally)? {
            is_there = is_there != turns;
        }
    }
    Ok(tally)
}

// The edits of one trace's run.
fn told_of(alloc: Global, dice: &mut Dice, run: &mut Run, seed: u32) -> Result<Tally, Fail> {
    // a shelf with few names answers most that an edit touches
    let marks = if seed % 2 == 0 { 64 } else { 3 };
    let mut shelf = MarkShelf::new(alloc, marks, 32, 32)?;
    edited_often(alloc, dice, run, &mut shelf, OPS / 2)
}

// The edits of one trace.
fn told(alloc: Global, seed: u32) -> Result<Tally, Fail> {
    let mut dice = Dice { state: seed };
    let trace = rolled_trace(alloc, &mut dice, OPS)?;
    let mut run = run_of(alloc, trace)?;
    told_of(alloc, &mut dice, &mut run, seed)
}

#[test]
fn edited_runs_are_replays(rt: HostRuntime) -> Result<(), Fail> {
    let mut tally = Tally::nothing();
    for seed in 0..TRACES {
        tally.add(told(rt.alloc(), seed)?);
    }
    assert!(rt; tally.made >= MADE);
    assert!(rt; tally.early > 0);
    assert!(rt; tally.known > 0);
    Ok(())
}
