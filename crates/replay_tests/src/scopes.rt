//! The ends of scopes: small traces with their reports, and large ones.
use crate::replayed::report_of;
use leak_report::text_of;
use object_heap::Heap;
use op_step::Meter;
use op_step::replay::replay;
use std::alloc::Global;
use std::process::Abort;
use std::test::Fail;
use trace_reader::read_trace;
use trace_types::kinds::{Field, Kind};
use trace_types::limits::MAX_THREAD;
use trace_types::ops::Op;
use trace_types::outcomes::{Answer, Event, Outcome, Verdict};
use trace_types::sequence::Sequence;
use trace_types::trace::Trace;

// What is written of a trace, its outcomes and the heap at its end.
fn written(alloc: Global, trace: &Trace, outcomes: &[Outcome], end: &Heap) -> Result<String, Fail> {
    let shown = report_of(alloc, trace, outcomes, end)?;
    Ok(text_of(alloc, &shown)?)
}

// The report of the trace that these lines are.
fn reported(alloc: Global, lines: &str) -> Result<String, Fail> {
    let trace = read_trace(alloc, lines.as_bytes()).map_err(|_| Fail::from("a fault"))?;
    let (outcomes, end) = replay(alloc, &trace, &mut Meter::new())?;
    written(alloc, &trace, outcomes.as_slice(), &end)
}

// The heap after the trace that these lines are.
fn end_of(alloc: Global, lines: &str) -> Result<Heap, Fail> {
    let trace = read_trace(alloc, lines.as_bytes()).map_err(|_| Fail::from("a fault"))?;
    let (_, end) = replay(alloc, &trace, &mut Meter::new())?;
    Ok(end)
}

fn made(alloc: Global, to: u32) -> Kind {
    let fields = Sequence::empty(alloc);
    Kind::New { to, fields }
}

fn add(trace: &mut Trace, id: u32, label: u32, kind: Kind) -> Result<(), Fail> {
    let op = Op::make(id, label, kind).map_err(|_| Fail::from("limits"))?;
    trace.push(op).map_err(|_| Fail::from("refused"))?;
    Ok(())
}

const TWO_LABELS: &str = "\
{\"fields\":[],\"id\":1,\"op\":\"new\",\"t\":0,\"to\":0}
{\"fields\":[],\"id\":2,\"op\":\"new\",\"t\":1,\"to\":1}
{\"from\":1,\"id\":3,\"op\":\"clone\",\"t\":0,\"to\":2}
{\"from\":0,\"id\":4,\"op\":\"downgrade\",\"t\":0,\"to\":3}
{\"fields\":[2],\"id\":5,\"op\":\"new\",\"t\":0,\"to\":4}
{\"id\":6,\"op\":\"scope_end\",\"t\":0}
{\"id\":7,\"op\":\"scope_end\",\"t\":1}
{\"id\":8,\"op\":\"scope_end\",\"t\":1}
";

#[test]
fn scope_end(rt: HostRuntime) -> Result<(), Fail> {
    let text = reported(rt.alloc(), TWO_LABELS)?;
    assert_eq!(rt;
        text.as_str(),
        "\
1 new made #1 1/0
2 new made #2 1/0
3 clone done #2 2/0
4 downgrade done #1 1/1
5 new made #5 1/0
6 scope_end done destroyed #5 freed #5 destroyed #1 freed #1
7 scope_end done destroyed #2 freed #2
8 scope_end done
object 1 destroyed 6 freed 6
object 2 destroyed 7 freed 7
object 5 destroyed 6 freed 6
total 8 ops 0 skipped 3 objects 0 alive 0 leaks 0 husks
"
    );
    Ok(())
}

// `make_mut` sets handle 0 again, and has another label.
#[test]
fn handle_set_again_keeps_its_place(rt: HostRuntime) -> Result<(), Fail> {
    let text = reported(
        rt.alloc(),
        "\
{\"fields\":[],\"id\":1,\"op\":\"new\",\"t\":0,\"to\":0}
{\"fields\":[],\"id\":2,\"op\":\"new\",\"t\":0,\"to\":1}
{\"from\":0,\"id\":3,\"op\":\"clone\",\"t\":1,\"to\":2}
{\"h\":0,\"id\":4,\"op\":\"make_mut\",\"t\":1}
{\"id\":5,\"op\":\"scope_end\",\"t\":0}
{\"id\":6,\"op\":\"scope_end\",\"t\":1}
",
    )?;
    assert_eq!(rt;
        text.as_str(),
        "\
1 new made #1 1/0
2 new made #2 1/0
3 clone done #1 2/0
4 make_mut cloned #4 1/0
5 scope_end done destroyed #2 freed #2 destroyed #4 freed #4
6 scope_end done destroyed #1 freed #1
object 1 destroyed 6 freed 6
object 2 destroyed 5 freed 5
object 4 destroyed 5 freed 5
total 6 ops 0 skipped 3 objects 0 alive 0 leaks 0 husks
"
    );
    Ok(())
}

// A handle that ended and is made again was made last, in the scope of the label that made it again.
#[test]
fn handle_that_comes_back_is_made_last(rt: HostRuntime) -> Result<(), Fail> {
    let text = reported(
        rt.alloc(),
        "\
{\"fields\":[],\"id\":1,\"op\":\"new\",\"t\":0,\"to\":0}
{\"fields\":[],\"id\":2,\"op\":\"new\",\"t\":0,\"to\":1}
{\"fields\":[],\"id\":3,\"op\":\"new\",\"t\":0,\"to\":2}
{\"h\":0,\"id\":4,\"op\":\"drop\",\"t\":1}
{\"h\":1,\"id\":5,\"op\":\"drop\",\"t\":0}
{\"fields\":[],\"id\":6,\"op\":\"new\",\"t\":0,\"to\":0}
{\"fields\":[],\"id\":7,\"op\":\"new\",\"t\":1,\"to\":1}
{\"id\":8,\"op\":\"scope_end\",\"t\":0}
{\"id\":9,\"op\":\"scope_end\",\"t\":1}
",
    )?;
    assert_eq!(rt;
        text.as_str(),
        "\
1 new made #1 1/0
2 new made #2 1/0
3 new made #3 1/0
4 drop done #1 0/0 destroyed #1 freed #1
5 drop done #2 0/0 destroyed #2 freed #2
6 new made #6 1/0
7 new made #7 1/0
8 scope_end done destroyed #6 freed #6 destroyed #3 freed #3
9 scope_end done destroyed #7 freed #7
object 1 destroyed 4 freed 4
object 2 destroyed 5 freed 5
object 3 destroyed 8 freed 8
object 6 destroyed 8 freed 8
object 7 destroyed 9 freed 9
total 9 ops 0 skipped 5 objects 0 alive 0 leaks 0 husks
"
    );
    Ok(())
}

// The fields of a value that was moved out are dropped in their order; an empty pointer and a `Weak::new` set nothing off.
#[test]
fn values_and_empty_pointers_in_a_scope(rt: HostRuntime) -> Result<(), Fail> {
    let text = reported(
        rt.alloc(),
        "\
{\"fields\":[],\"id\":1,\"op\":\"new\",\"t\":0,\"to\":0}
{\"fields\":[],\"id\":2,\"op\":\"new\",\"t\":0,\"to\":1}
{\"fields\":[0,null,1],\"id\":3,\"op\":\"new\",\"t\":0,\"to\":2}
{\"h\":2,\"id\":4,\"op\":\"try_unwrap\",\"t\":0}
{\"id\":5,\"op\":\"weak_new\",\"t\":0,\"to\":3}
{\"id\":6,\"op\":\"null\",\"t\":0,\"to\":4}
{\"id\":7,\"op\":\"scope_end\",\"t\":0}
",
    )?;
    assert_eq!(rt;
        text.as_str(),
        "\
1 new made #1 1/0
2 new made #2 1/0
3 new made #3 1/0
4 try_unwrap yes #3 0/0 unwrapped #3 freed #3
5 weak_new done
6 null done
7 scope_end done destroyed #1 freed #1 destroyed #2 freed #2
object 1 destroyed 7 freed 7
object 2 destroyed 7 freed 7
object 3 unwrapped 4 freed 4
total 7 ops 0 skipped 3 objects 0 alive 0 leaks 0 husks
"
    );
    Ok(())
}

// The last operation is done, tells no counts, and does just this.
fn assert_last(
    rt: &impl Abort,
    alloc: Global,
    trace: &Trace,
    events: &[Event],
) -> Result<usize, Fail> {
    let (outcomes, end) = replay(alloc, trace, &mut Meter::new())?;
    let last = outcomes.as_slice().last().ok_or("an outcome")?;
    assert_eq!(rt; last.verdict, Verdict::Did(Answer::Done));
    assert_eq!(rt; last.counts, None);
    assert!(rt; last.events.as_slice() == events);
    Ok(end.handles(alloc)?.len())
}

#[test]
fn scope_of_many_handles(rt: HostRuntime) -> Result<(), Fail> {
    let alloc = rt.alloc();
    let mut trace = Trace::new(alloc);
    for id in 1u32..=20_000 {
        add(&mut trace, id, 7, made(alloc, id))?;
    }
    add(&mut trace, 20_001, 7, Kind::ScopeEnd)?;
    let mut events = Vec::new(alloc);
    for id in (1u32..=20_000).rev() {
        events.push(Event::Destroyed(id))?;
        events.push(Event::Freed(id))?;
    }
    let left = assert_last(&rt, alloc, &trace, events.as_slice())?;
    assert_eq!(rt; left, 0);
    Ok(())
}

// A handle in the scope of each label there may be.
#[test]
fn scope_of_one_label_among_many(rt: HostRuntime) -> Result<(), Fail> {
    let alloc = rt.alloc();
    let mut trace = Trace::new(alloc);
    for label in 0..=MAX_THREAD {
        add(&mut trace, label + 1, label, made(alloc, label))?;
    }
    let last = MAX_THREAD + 1;
    add(&mut trace, last + 1, MAX_THREAD, Kind::ScopeEnd)?;
    let gone = [Event::Destroyed(last), Event::Freed(last)];
    let left = assert_last(&rt, alloc, &trace, &gone)?;
    assert_eq!(rt; left, MAX_THREAD as usize);
    Ok(())
}

const LEAK: &str = "\
{\"id\":1,\"op\":\"null\",\"t\":0,\"to\":0}
{\"fields\":[null],\"id\":2,\"op\":\"new\",\"t\":0,\"to\":1}
{\"from\":1,\"id\":3,\"op\":\"clone\",\"t\":0,\"to\":2}
{\"from\":2,\"h\":1,\"i\":0,\"id\":4,\"op\":\"set\",\"t\":0}
{\"h\":1,\"id\":5,\"op\":\"drop\",\"t\":0}
";

// An object that leaks is no root, and the label of a handle is part of it.
#[test]
fn roots_have_labels(rt: HostRuntime) -> Result<(), Fail> {
    let alloc = rt.alloc();
    let here = end_of(alloc, "{\"id\":1,\"op\":\"null\",\"t\":0,\"to\":0}\n")?;
    let there = end_of(alloc, "{\"id\":1,\"op\":\"null\",\"t\":1,\"to\":0}\n")?;
    let leak = end_of(alloc, LEAK)?;
    assert!(rt; leak.same_roots(&here) && !leak.same(&here));
    assert!(rt; !there.same_roots(&here));
    Ok(())
}
