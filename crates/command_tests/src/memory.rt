//! Each call, made once more where memory was refused to it: the answer is `Memory`, what stood stands, and the second call
//! gives the ordinary answer. `tools/refused_memory` refuses each allocation in turn.
use crate::traces::FORGOTTEN_WEAK;
use command_serve::{Exit, serve_explain, serve_picture, serve_replay};
use leak_report::report::report;
use leak_report::{Report, WriteFault, find_leaks, write_report};
use object_heap::Heap;
use op_step::{ChunkRun, Meter, run};
use ownership_model::Leaks;
use retention_report::{Answer, explain, picture};
use std::alloc::{AllocError, Global};
use std::process::Abort;
use std::test::Fail;
use trace_reader::{LineCause, read_trace};
use trace_types::devices::{StdSink, StdSource};
use trace_types::outcomes::Outcome;
use trace_types::trace::Trace;

const NEW_CYCLIC: &[u8] = b"{\"fields\":[\"me\"],\"id\":1,\"op\":\"new_cyclic\",\"t\":0,\"to\":0}
{\"h\":0,\"id\":2,\"op\":\"drop\",\"t\":0}
";

const NEW_CYCLIC_REPORT: &str = "1 new_cyclic made #1 1/1
2 drop done #1 0/0 destroyed #1 freed #1
object 1 destroyed 2 freed 2
total 2 ops 0 skipped 1 objects 0 alive 0 leaks 0 husks
";

const NESTED_FIELDS: &[u8] = b"{\"fields\":[],\"id\":1,\"op\":\"new\",\"t\":0,\"to\":0}
{\"fields\":[0],\"id\":2,\"op\":\"new\",\"t\":0,\"to\":1}
{\"fields\":[],\"id\":3,\"op\":\"new\",\"t\":0,\"to\":2}
{\"from\":2,\"id\":4,\"op\":\"downgrade\",\"t\":0,\"to\":3}
{\"fields\":[],\"id\":5,\"op\":\"new\",\"t\":0,\"to\":4}
{\"fields\":[1,3,4],\"id\":6,\"op\":\"new\",\"t\":0,\"to\":5}
{\"h\":5,\"id\":7,\"op\":\"drop\",\"t\":0}
";

const NESTED_FIELDS_REPORT: &str = "1 new made #1 1/0
2 new made #2 1/0
3 new made #3 1/0
4 downgrade done #3 1/1
5 new made #5 1/0
6 new made #6 1/0
7 drop done #6 0/0 destroyed #6 destroyed #2 destroyed #1 freed #1 freed #2 destroyed #5 freed #5 freed #6
object 1 destroyed 7 freed 7
object 2 destroyed 7 freed 7
object 3 alive
object 5 destroyed 7 freed 7
object 6 destroyed 7 freed 7
total 7 ops 0 skipped 5 objects 1 alive 0 leaks 0 husks
";

const MAKE_MUT: &[u8] = b"{\"fields\":[],\"id\":1,\"op\":\"new\",\"t\":0,\"to\":0}
{\"from\":0,\"id\":2,\"op\":\"clone\",\"t\":0,\"to\":1}
{\"h\":0,\"id\":3,\"op\":\"make_mut\",\"t\":0}
{\"from\":0,\"id\":4,\"op\":\"downgrade\",\"t\":0,\"to\":2}
{\"h\":0,\"id\":5,\"op\":\"make_mut\",\"t\":0}
{\"from\":2,\"id\":6,\"op\":\"upgrade\",\"t\":0,\"to\":3}
{\"h\":0,\"id\":7,\"op\":\"make_mut\",\"t\":0}
";

const MAKE_MUT_REPORT: &str = "1 new made #1 1/0
2 clone done #1 2/0
3 make_mut cloned #3 1/0
4 downgrade done #3 1/1
5 make_mut moved #5 1/0 moved #3
6 upgrade no #3 0/1
7 make_mut unique #5 1/0
object 1 alive
object 3 moved 5
object 5 alive
husk 3 weak 1
total 7 ops 0 skipped 3 objects 2 alive 0 leaks 1 husks
";

// No line is plain, so that each is read by its tokens, of which the scratch takes memory.
const BY_TOKENS: &[u8] = b"{\"fields\":[],\"\\u0069d\":1,\"op\":\"new\",\"t\":0,\"to\":0}
{\"fields\":[0],\"id\":2,\"op\":\"new\",\"t\":0,\"to\":1,\"at\":1.5}
{\"h\":1,\"id\":3,\"op\":\"drop\",\"t\":0,\"in\":{\"file\":[\"main.rs\"]}}
";

const BY_TOKENS_REPORT: &str = "1 new made #1 1/0
2 new made #2 1/0
3 drop done #2 0/0 destroyed #2 destroyed #1 freed #1 freed #2
object 1 destroyed 3 freed 3
object 2 destroyed 3 freed 3
total 3 ops 0 skipped 2 objects 0 alive 0 leaks 0 husks
";

// What is said of the husk of `FORGOTTEN_WEAK`, with its life, and of what is of note there.
const HUSK_EXPLAINED: &str = "object 2 destroyed 12
  2 new 1/0 +handle 1
  3 downgrade 1/1 +weak handle 2
  4 set 1/1 -weak handle 2 +weak field 1.1
  7 downgrade 1/2 +weak handle 5
  8 set 1/2 -weak handle 5 +weak field 6.1
  12 drop 0/2 -handle 1 destroyed
  kept by weak field 1.1 since 4
  kept by weak field 6.1 since 8
  husk
";

const NOTED_EXPLAINED: &str = "object 2 destroyed 12
  kept by weak field 1.1 since 4
  kept by weak field 6.1 since 8
  husk
object 6 alive
  held by field 6.0 since 10
  leaked since 11 in a cycle among 1 objects
    through field 6.0 since 10
  retains 1 objects
total 1 leaks 1 cycles 1 husks
";

const HUSK_PICTURED: &str = "digraph heap {
  graph [rankdir=LR ranksep=0.7 fontname=\"Helvetica\" fontsize=12 label=\"total 1 leaks 1 cycles 1 husks\\nfilled: leaked. bold: in its cycle. dashed: weak, or a husk.\\n1/0: strong and weak count. .1 since 2: field 1, since operation 2.\"]
  node [shape=box style=\"rounded,filled\" fillcolor=\"white\" fontname=\"Helvetica\"]
  edge [fontname=\"Helvetica\" fontsize=10]
  h3 [label=\"handle 3\" shape=plaintext]
  o1 [label=\"#1\\n1/0\"]
  o2 [label=\"#2\\n0/2\" style=\"rounded,dashed\" penwidth=3]
  o5 [label=\"#5\\n1/0\"]
  o6 [label=\"#6\\n1/0\" fillcolor=\"#f6b26b\"]
  h3 -> o5 [label=\"since 5\"]
  o1 -> o2 [label=\".1 since 4\" style=dashed color=\"#0072b2\"]
  o5 -> o1 [label=\".0 since 5\"]
  o6 -> o6 [label=\".0 since 10\" penwidth=2.5 color=\"#c0392b\"]
  o6 -> o2 [label=\".1 since 8\" style=dashed color=\"#0072b2\"]
}
";

fn trace_of(rt: &(impl Abort + AllocGlobal), input: &[u8]) -> Result<Trace, Fail> {
    let alloc = rt.alloc();
    match read_trace(alloc, input) {
        Ok(trace) => Ok(trace),
        Err(fault) => {
            assert!(rt; fault.cause == LineCause::Memory);
            read_trace(alloc, input).map_err(|_| Fail::from("the trace is refused twice"))
        }
    }
}

fn chunk_of(rt: &(impl Abort + AllocGlobal), trace: &Trace) -> Result<ChunkRun, Fail> {
    let alloc = rt.alloc();
    let start = Heap::empty();
    let mut meter = Meter::new();
    if let Ok(chunk) = run(alloc, &start, trace.as_slice(), &mut meter) {
        return Ok(chunk);
    }
    assert!(rt; start.same(&Heap::empty()));
    Ok(run(alloc, &start, trace.as_slice(), &mut meter)?)
}

fn leaks_of(alloc: Global, heap: &Heap) -> Result<Leaks, AllocError> {
    match find_leaks(alloc, heap) {
        Ok(leaks) => Ok(leaks),
        Err(_) => find_leaks(alloc, heap),
    }
}

fn report_of<'a>(
    alloc: Global,
    trace: &'a Trace,
    outcomes: &'a [Outcome],
    end: &Heap,
) -> Result<Report<'a>, Fail> {
    if outcomes.len() != trace.len() {
        return Err(Fail::from("an outcome for each operation"));
    }
    match report(alloc, trace, outcomes, end) {
        Ok(report) => Ok(report),
        Err(_) => Ok(report(alloc, trace, outcomes, end)?),
    }
}

// Room for all output, so that the sink takes no memory of its own.
fn room(alloc: Global) -> Result<Vec<u8>, AllocError> {
    match Vec::with_capacity(alloc, 4096) {
        Ok(room) => Ok(room),
        Err(_) => Vec::with_capacity(alloc, 4096),
    }
}

fn is_written(rt: &(impl Abort + AllocGlobal), report: &Report, text: &str) -> Result<(), Fail> {
    let alloc = rt.alloc();
    let mut output = room(alloc)?;
    let mut sink = StdSink::new(&mut output);
    if let Err(fault) = write_report(alloc, &mut sink, report) {
        assert!(rt; fault == WriteFault::Memory);
        write_report(alloc, &mut sink, report).map_err(|_| Fail::from("written twice"))?;
    }
    drop(sink);
    assert!(rt; output.as_slice() == text.as_bytes());
    Ok(())
}

fn is_served(rt: &(impl Abort + AllocGlobal), input: &[u8], text: &str) -> Result<(), Fail> {
    let alloc = rt.alloc();
    let mut output = room(alloc)?;
    let mut source = StdSource::new(input);
    let mut sink = StdSink::new(&mut output);
    let mut exit = serve_replay(alloc, &mut source, &mut sink);
    if exit == Exit::Memory {
        let mut again = StdSource::new(input);
        exit = serve_replay(alloc, &mut again, &mut sink);
    }
    drop(sink);
    assert!(rt; exit == Exit::Fine);
    assert!(rt; output.as_slice() == text.as_bytes());
    Ok(())
}

fn stands_refusal(
    rt: &(impl Abort + AllocGlobal),
    input: &[u8],
    text: &str,
    husks: usize,
) -> Result<(), Fail> {
    let alloc = rt.alloc();
    let trace = trace_of(rt, input)?;
    let chunk = chunk_of(rt, &trace)?;
    let leaks = leaks_of(alloc, chunk.end())?;
    assert!(rt; leaks.leaked.len() == 0);
    assert_eq!(rt; leaks.husks.len(), husks);
    let report = report_of(alloc, &trace, chunk.outcomes(), chunk.end())?;
    is_written(rt, &report, text)?;
    is_served(rt, input, text)
}

#[test]
fn new_cyclic(rt: HostRuntime) -> Result<(), Fail> {
    stands_refusal(&rt, NEW_CYCLIC, NEW_CYCLIC_REPORT, 0)
}

#[test]
fn nested_fields(rt: HostRuntime) -> Result<(), Fail> {
    stands_refusal(&rt, NESTED_FIELDS, NESTED_FIELDS_REPORT, 0)
}

#[test]
fn make_mut(rt: HostRuntime) -> Result<(), Fail> {
    stands_refusal(&rt, MAKE_MUT, MAKE_MUT_REPORT, 1)
}

#[test]
fn by_tokens(rt: HostRuntime) -> Result<(), Fail> {
    stands_refusal(&rt, BY_TOKENS, BY_TOKENS_REPORT, 0)
}

fn explanation(
    alloc: Global,
    trace: &Trace,
    objects: &[u32],
    with_lives: bool,
) -> Result<Answer, AllocError> {
    match explain(alloc, trace.as_slice(), objects, with_lives) {
        Ok(answer) => Ok(answer),
        Err(_) => explain(alloc, trace.as_slice(), objects, with_lives),
    }
}

fn drawing(alloc: Global, trace: &Trace, objects: &[u32]) -> Result<Answer, AllocError> {
    match picture(alloc, trace.as_slice(), objects, false) {
        Ok(answer) => Ok(answer),
        Err(_) => picture(alloc, trace.as_slice(), objects, false),
    }
}

fn is_told(rt: &impl Abort, answer: &Answer, text: &str) {
    assert!(rt; !answer.is_missing);
    assert!(rt; answer.text.as_str() == text);
}

fn is_explained(
    rt: &(impl Abort + AllocGlobal),
    objects: &[u32],
    with_lives: bool,
    text: &str,
) -> Result<(), Fail> {
    let alloc = rt.alloc();
    let mut output = room(alloc)?;
    let mut source = StdSource::new(FORGOTTEN_WEAK);
    let mut sink = StdSink::new(&mut output);
    let mut exit = serve_explain(alloc, &mut source, &mut sink, objects, with_lives);
    if exit == Exit::Memory {
        let mut again = StdSource::new(FORGOTTEN_WEAK);
        exit = serve_explain(alloc, &mut again, &mut sink, objects, with_lives);
    }
    drop(sink);
    assert!(rt; exit == Exit::Fine);
    assert!(rt; output.as_slice() == text.as_bytes());
    Ok(())
}

#[test]
fn explained(rt: HostRuntime) -> Result<(), Fail> {
    let trace = trace_of(&rt, FORGOTTEN_WEAK)?;
    let husk = explanation(rt.alloc(), &trace, &[2], true)?;
    is_told(&rt, &husk, HUSK_EXPLAINED);
    is_explained(&rt, &[2], true, HUSK_EXPLAINED)
}

#[test]
fn noted(rt: HostRuntime) -> Result<(), Fail> {
    let trace = trace_of(&rt, FORGOTTEN_WEAK)?;
    let noted = explanation(rt.alloc(), &trace, &[], false)?;
    is_told(&rt, &noted, NOTED_EXPLAINED);
    is_explained(&rt, &[], false, NOTED_EXPLAINED)
}

#[test]
fn pictured(rt: HostRuntime) -> Result<(), Fail> {
    let alloc = rt.alloc();
    let trace = trace_of(&rt, FORGOTTEN_WEAK)?;
    let husk = drawing(alloc, &trace, &[2])?;
    is_told(&rt, &husk, HUSK_PICTURED);
    let mut output = room(alloc)?;
    let mut source = StdSource::new(FORGOTTEN_WEAK);
    let mut sink = StdSink::new(&mut output);
    let mut exit = serve_picture(alloc, &mut source, &mut sink, &[2], false);
    if exit == Exit::Memory {
        let mut again = StdSource::new(FORGOTTEN_WEAK);
        exit = serve_picture(alloc, &mut again, &mut sink, &[2], false);
    }
    drop(sink);
    assert!(rt; exit == Exit::Fine);
    assert!(rt; output.as_slice() == HUSK_PICTURED.as_bytes());
    Ok(())
}
