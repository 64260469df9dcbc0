//! What `replay` writes: worked traces, cut inputs, devices that fail, and the limits.
use command_serve::{Exit, serve_replay};
use std::alloc::{AllocError, Global};
use std::process::Abort;
use std::test::Fail;
use trace_types::devices::{Failed, Sink, Source, StdSink, StdSource};

const TRACE: &[u8] = b"{\"id\":1,\"t\":0,\"op\":\"new\",\"to\":0,\"fields\":[]}
{\"id\":2,\"t\":1,\"op\":\"clone\",\"from\":0,\"to\":1}
{\"id\":3,\"t\":0,\"op\":\"drop\",\"h\":0}
{\"id\":4,\"t\":1,\"op\":\"drop\",\"h\":1}
";

// The reports of the first 0, 1, .. 4 lines.
const REPORTS: [&str; 5] = [
    "total 0 ops 0 skipped 0 objects 0 alive 0 leaks 0 husks\n",
    "1 new made #1 1/0\nobject 1 alive\ntotal 1 ops 0 skipped 1 objects 1 alive 0 leaks 0 husks\n",
    "1 new made #1 1/0\n2 clone done #1 2/0\nobject 1 alive\ntotal 2 ops 0 skipped 1 objects 1 alive 0 leaks 0 husks\n",
    "1 new made #1 1/0\n2 clone done #1 2/0\n3 drop done #1 1/0\nobject 1 alive\ntotal 3 ops 0 skipped 1 objects 1 alive 0 leaks 0 husks\n",
    "1 new made #1 1/0\n2 clone done #1 2/0\n3 drop done #1 1/0\n4 drop done #1 0/0 destroyed #1 freed #1\nobject 1 destroyed 4 freed 4\ntotal 4 ops 0 skipped 1 objects 0 alive 0 leaks 0 husks\n",
];

/// Gives its bytes one at a time, and fails after `good` of them.
#[derive(Drop)]
struct Trickle<'a> {
    bytes: &'a [u8],
    good: usize,
    failed: bool,
}

impl Source for Trickle<'_> {
    ghost use Rattle.std.specs.Prelude.{None};

    ghost left = { λ _. None };

    ghost failed = { λ s. s.failed };

    fn read(&mut self, buf: &mut [u8]) -> Result<usize, Failed> {
        if self.good == 0 {
            self.failed = true;
            return Err(Failed);
        }
        let Some((first, rest)) = self.bytes.split_first() else {
            return Ok(0);
        };
        if buf.is_empty() {
            return Ok(0);
        }
        buf[0] = *first;
        self.bytes = rest;
        self.good -= 1;
        Ok(1)
    }
}

/// Takes bytes one at a time, and fails after `good` of them.
#[derive(Drop)]
struct Drain {
    taken: Vec<u8>,
    good: usize,
    failed: bool,
}

impl Sink for Drain {
    ghost use Rattle.std.specs.Prelude.{None};

    ghost held = { λ _. None };

    ghost failed = { λ s. s.failed };

    fn write(&mut self, bytes: &[u8]) -> Result<usize, Failed> {
        let Some(first) = bytes.first() else {
            return Ok(0);
        };
        if self.good == 0 || self.taken.push(*first).is_err() {
            self.failed = true;
            return Err(Failed);
        }
        self.good -= 1;
        Ok(1)
    }
}

/// Gives blanks for ever.
#[derive(Drop)]
struct Blanks;

impl Source for Blanks {
    ghost use Rattle.std.specs.Prelude.{None, false};

    ghost left = { λ _. None };

    ghost failed = { λ _. false };

    fn read(&mut self, buf: &mut [u8]) -> Result<usize, Failed> {
        Ok(buf.len())
    }
}

fn served(alloc: Global, input: &[u8]) -> (Exit, Vec<u8>) {
    let mut output = Vec::new(alloc);
    let mut source = StdSource::new(input);
    let mut sink = StdSink::new(&mut output);
    let exit = serve_replay(alloc, &mut source, &mut sink);
    drop(sink);
    (exit, output)
}

fn expect(rt: &(impl Abort + AllocGlobal), input: &[u8], exit: Exit, text: &str) {
    let (ended, output) = served(rt.alloc(), input);
    assert!(rt; ended == exit);
    assert!(rt; output.as_slice() == text.as_bytes());
}

#[test]
fn first_report(rt: HostRuntime) {
    expect(&rt, TRACE, Exit::Fine, REPORTS[4]);
}

#[test]
fn empty_trace(rt: HostRuntime) {
    expect(&rt, b"", Exit::Fine, REPORTS[0]);
    expect(&rt, b"\n \t\r\n\n", Exit::Fine, REPORTS[0]);
}

#[test]
fn an_input_that_is_cut(rt: HostRuntime) -> Result<(), Fail> {
    for cut in 0..TRACE.len() + 1 {
        let input = &TRACE[..cut];
        let lines = input.iter().filter(|b| **b == b'\n').count();
        let at_start = cut == 0 || TRACE[cut - 1] == b'\n';
        let at_end = cut < TRACE.len() && TRACE[cut] == b'\n';
        let whole = if at_end { lines + 1 } else { lines };
        if at_start || at_end {
            if let Some(report) = REPORTS.get(whole) {
                expect(&rt, input, Exit::Fine, report);
            }
        } else {
            let fault = format!(in rt.alloc(); "fault line {} NotJson\n", lines + 1)?;
            expect(&rt, input, Exit::Trace, fault.as_str());
        }
    }
    Ok(())
}

#[test]
fn a_source_that_fails(rt: HostRuntime) {
    for good in 0..TRACE.len() + 1 {
        let mut output = Vec::new(rt.alloc());
        let mut source = Trickle {
            bytes: TRACE,
            good,
            failed: false,
        };
        let mut sink = StdSink::new(&mut output);
        let exit = serve_replay(rt.alloc(), &mut source, &mut sink);
        drop(sink);
        assert!(rt; exit == Exit::Device);
        assert!(rt; output.is_empty());
    }
}

#[test]
fn a_source_that_gives_a_byte_at_a_time(rt: HostRuntime) {
    let mut output = Vec::new(rt.alloc());
    let mut source = Trickle {
        bytes: TRACE,
        good: usize::MAX,
        failed: false,
    };
    let mut sink = StdSink::new(&mut output);
    let exit = serve_replay(rt.alloc(), &mut source, &mut sink);
    drop(sink);
    assert!(rt; exit == Exit::Fine);
    assert!(rt; output.as_slice() == REPORTS[4].as_bytes());
}

#[test]
fn a_sink_that_fails(rt: HostRuntime) {
    let text = REPORTS[4].as_bytes();
    for good in 0..text.len() {
        let mut source = StdSource::new(TRACE);
        let mut sink = Drain {
            taken: Vec::new(rt.alloc()),
            good,
            failed: false,
        };
        let exit = serve_replay(rt.alloc(), &mut source, &mut sink);
        assert!(rt; exit == Exit::Device);
        assert!(rt; sink.taken.as_slice() == &text[..good]);
    }
}

#[test]
fn a_sink_that_takes_a_byte_at_a_time(rt: HostRuntime) {
    let mut source = StdSource::new(TRACE);
    let mut sink = Drain {
        taken: Vec::new(rt.alloc()),
        good: usize::MAX,
        failed: false,
    };
    let exit = serve_replay(rt.alloc(), &mut source, &mut sink);
    assert!(rt; exit == Exit::Fine);
    assert!(rt; sink.taken.as_slice() == REPORTS[4].as_bytes());
}

#[test]
fn a_writer_that_is_full(rt: HostRuntime) {
    let text = REPORTS[4].as_bytes();
    for room in 0..text.len() {
        let mut room_taken = [0u8; 400];
        let mut left = &mut room_taken[..room.min(400)];
        let mut source = StdSource::new(TRACE);
        let mut sink = StdSink::new(&mut left);
        let exit = serve_replay(rt.alloc(), &mut source, &mut sink);
        drop(sink);
        assert!(rt; exit == Exit::Device);
        assert!(rt; &room_taken[..room.min(400)] == &text[..room]);
    }
}

#[test]
fn a_source_that_never_ends(rt: HostRuntime) {
    let mut output = Vec::new(rt.alloc());
    let mut sink = StdSink::new(&mut output);
    let exit = serve_replay(rt.alloc(), &mut Blanks, &mut sink);
    drop(sink);
    assert!(rt; exit == Exit::Trace);
    assert!(rt; output.as_slice() == b"fault input TooLong\n".as_slice());
}

fn chain_trace(alloc: Global, objects: u32) -> Result<String, AllocError> {
    let mut text = String::new(alloc);
    write!(
        &mut text,
        "{{\"id\":1,\"t\":0,\"op\":\"new\",\"to\":0,\"fields\":[]}}\n"
    )?;
    for id in 2..objects.saturating_add(1) {
        let to = (id + 1) % 2;
        let from = id % 2;
        write!(
            &mut text,
            "{{\"id\":{id},\"t\":0,\"op\":\"new\",\"to\":{to},\"fields\":[{from}]}}\n"
        )?;
    }
    let last = objects.saturating_add(1);
    let h = (last) % 2;
    write!(
        &mut text,
        "{{\"id\":{last},\"t\":0,\"op\":\"drop\",\"h\":{h}}}\n"
    )?;
    Ok(text)
}

fn chain_report(alloc: Global, objects: u32) -> Result<String, AllocError> {
    let mut text = String::new(alloc);
    for id in 1..objects.saturating_add(1) {
        write!(&mut text, "{id} new made #{id} 1/0\n")?;
    }
    let last = objects.saturating_add(1);
    write!(&mut text, "{last} drop done #{objects} 0/0")?;
    for before in 0..objects {
        write!(&mut text, " destroyed #{}", objects - before)?;
    }
    for id in 1..last {
        write!(&mut text, " freed #{id}")?;
    }
    text.push('\n')?;
    for id in 1..last {
        write!(&mut text, "object {id} destroyed {last} freed {last}\n")?;
    }
    write!(
        &mut text,
        "total {last} ops 0 skipped {objects} objects 0 alive 0 leaks 0 husks\n"
    )?;
    Ok(text)
}

#[test]
fn long_chain(rt: HostRuntime) -> Result<(), Fail> {
    for objects in [3, 2_001, 65_535] {
        let trace = chain_trace(rt.alloc(), objects)?;
        let report = chain_report(rt.alloc(), objects)?;
        expect(&rt, trace.as_bytes(), Exit::Fine, report.as_str());
    }
    Ok(())
}
