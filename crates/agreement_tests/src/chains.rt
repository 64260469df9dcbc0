//! Two replays compared as a chain of objects grows that differs deep down.
use crate::agreeing::end_of;
use agreement::agree::agree;
use agreement::{Meeting, Trail, meet};
use object_heap::Heap;
use std::alloc::Global;
use std::test::Fail;
use trace_types::kinds::{Field, Kind};
use trace_types::ops::Op;
use trace_types::sequence::Sequence;
use trace_types::trace::Trace;

fn add(trace: &mut Trace, id: u32, kind: Kind) -> Result<(), Fail> {
    let op = Op::make(id, 0, kind).map_err(|_| Fail::from("limits"))?;
    trace.push(op).map_err(|_| Fail::from("refused"))?;
    Ok(())
}

fn new(alloc: Global, to: u32, fields: &[Field]) -> Result<Kind, Fail> {
    Ok(Kind::New {
        to,
        fields: Sequence::from_vec(Vec::from_slice(alloc, fields)?),
    })
}

// Makes an object of the chain, by a free handle. The first has nothing in a field.
fn link(alloc: Global, place: u32, free: u32, held: u32, differs: bool) -> Result<Kind, Fail> {
    if place == 1 {
        new(alloc, free, &[])
    } else if place == 3 && differs {
        new(alloc, free, &[Field::Held(held), Field::Null])
    } else {
        new(alloc, free, &[Field::Held(held)])
    }
}

// Whether the meeting of two heaps tells that they are apart.
fn are_apart(
    alloc: Global,
    new: &Heap,
    old: &Heap,
    seen: &mut Option<Trail>,
) -> Result<bool, Fail> {
    let meeting = meet(alloc, new, old, seen)?;
    Ok(matches!(meeting, Meeting::Apart))
}

// Whether a meeting and a whole comparison both tell this.
fn both_tell(
    alloc: Global,
    new: &Heap,
    old: &Heap,
    is_apart: bool,
    seen: &mut Option<Trail>,
) -> Result<bool, Fail> {
    let apart = are_apart(alloc, new, old, seen)?;
    let agreed = agree(alloc, new, old)?;
    Ok(apart == is_apart && agreed.is_none() == is_apart)
}

// A chain of objects, each with the one made before it in a field. The third may have an empty field more. Numbers may rise or
// fall along the chain. At its end it may be dropped, and there may be an object that names itself.
#[derive(Drop)]
struct Chain {
    rises: bool,
    ends: bool,
    has_cycle: bool,
}

impl Chain {
    // The number of the object that is made at a place, counted from 1.
    fn id(&self, place: u32) -> u32 {
        if self.rises {
            place
        } else {
            5000u32.saturating_sub(place)
        }
    }

    // Makes so many objects, by two handles in turn: the one that holds the last.
    fn add_links(
        &self,
        alloc: Global,
        trace: &mut Trace,
        len: u32,
        differs: bool,
    ) -> Result<u32, Fail> {
        let mut held = 1;
        let mut free = 0;
        for k in 1..=len {
            let link = link(alloc, k, free, held, differs)?;
            add(trace, self.id(k), link)?;
            let last = free;
            free = held;
            held = last;
        }
        Ok(held)
    }

    // All operations of the chain.
    fn add_all(
        &self,
        alloc: Global,
        trace: &mut Trace,
        len: u32,
        differs: bool,
    ) -> Result<(), Fail> {
        let held = self.add_links(alloc, trace, len, differs)?;
        if self.has_cycle {
            let fields = Sequence::from_vec(Vec::from_slice(alloc, &[Field::Me])?);
            add(trace, 6000, Kind::NewCyclic { to: 2, fields })?;
        }
        if self.ends {
            add(trace, 6001, Kind::Drop { h: held })?;
        }
        Ok(())
    }

    // The heap after so many objects.
    fn heap(&self, alloc: Global, len: u32, differs: bool) -> Result<Heap, Fail> {
        let mut trace = Trace::new(alloc);
        self.add_all(alloc, &mut trace, len, differs)?;
        end_of(alloc, &trace)
    }

    // Whether the meeting of both heaps tells what a whole comparison tells, which is this.
    fn meets(
        &self,
        alloc: Global,
        len: u32,
        is_apart: bool,
        seen: &mut Option<Trail>,
    ) -> Result<bool, Fail> {
        let new = self.heap(alloc, len, true)?;
        let old = self.heap(alloc, len, false)?;
        both_tell(alloc, &new, &old, is_apart, seen)
    }

    // The trail that is left when the chain was compared as it grew, where each comparison told what it should.
    fn trail(&self, alloc: Global) -> Result<Option<Trail>, Fail> {
        let mut seen = None;
        for len in [2, 64, 1000, 3000] {
            if !self.meets(alloc, len, len > 2, &mut seen)? {
                return Err(Fail::from("a comparison"));
            }
        }
        let dropped = Chain {
            rises: self.rises,
            ends: true,
            has_cycle: self.has_cycle,
        };
        let mut last = None;
        if !dropped.meets(alloc, 3000, false, &mut last)? {
            return Err(Fail::from("the last comparison"));
        }
        Ok(seen)
    }
}

#[test]
fn grows_by_rising_numbers(rt: HostRuntime) -> Result<(), Fail> {
    let chain = Chain {
        rises: true,
        ends: false,
        has_cycle: false,
    };
    assert!(rt; matches!(chain.trail(rt.alloc())?, Some(Trail::Object(3))));
    Ok(())
}

#[test]
fn grows_by_falling_numbers(rt: HostRuntime) -> Result<(), Fail> {
    let chain = Chain {
        rises: false,
        ends: false,
        has_cycle: false,
    };
    assert!(rt; matches!(chain.trail(rt.alloc())?, Some(Trail::Object(4997))));
    Ok(())
}

// No object of the chain is surely reached beside one that names itself and has a later number.
#[test]
fn grows_beside_a_cycle(rt: HostRuntime) -> Result<(), Fail> {
    let chain = Chain {
        rises: true,
        ends: false,
        has_cycle: true,
    };
    assert!(rt; matches!(chain.trail(rt.alloc())?, Some(Trail::Path(_))));
    Ok(())
}
