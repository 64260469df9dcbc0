//! `race` over memory. What is compared is the same whatever the order in which the sessions come to the lock.
ghost use Rattle.std.specs.Prelude.{◌≤◌};

use command_race::serve_race;
use command_serve::Exit;
use live_sessions::PLACES;
use std::alloc::{AllocError, Global};
use std::sync::Wait;
use std::test::Fail;
use std::thread::Threads;
use trace_types::devices::{StdSink, StdSource};
use trace_types::limits::MAX_WORKERS;

const ONE_NEW: &str = "{\"id\":1,\"t\":0,\"op\":\"new\",\"to\":0,\"fields\":[]}\n";

const ONE_SESSION: &str = "\
--
{\"base\":0,\"session\":4,\"edits\":[{\"edit\":\"insert\",\"after\":1,\"op\":{\"id\":2,\"t\":0,\"op\":\"clone\",\"from\":0,\"to\":1}}]}
{\"base\":1,\"session\":4,\"edits\":[{\"edit\":\"remove\",\"id\":2}]}
";

const ONE_SESSION_TEXT: &str = "\
session 4 accepted 1
session 4 accepted 2
1 new made #1 1/0
object 1 alive
total 1 ops 0 skipped 1 objects 1 alive 0 leaks 0 husks
";

fn served<S: Threads + Wait + Sync>(
    rt: &S,
    alloc: Global,
    input: &[u8],
    workers: u32,
) -> (Exit, Vec<u8>)
    requires { (1 ≤ workers) × (workers ≤ MAX_WORKERS) }
{
    let mut output = Vec::new(alloc);
    let mut source = StdSource::new(input);
    let mut sink = StdSink::new(&mut output);
    let exit = serve_race(rt, alloc, &mut source, &mut sink, workers);
    drop(sink);
    (exit, output)
}

// How many lines of a text are this one.
fn count(text: &[u8], line: &[u8]) -> usize {
    let mut found = 0usize;
    for part in text.split(|byte| *byte == 10) {
        if part == line {
            found = found.saturating_add(1);
        }
    }
    found
}

// An insertion of each of sixteen sessions, all for version 0.
fn sixteen_insertions(alloc: Global) -> Result<String, AllocError> {
    let mut text = String::new(alloc);
    text.push_str(ONE_NEW)?;
    text.push_str("--\n")?;
    for session in 0..PLACES {
        let id = session + 2;
        let to = session + 1;
        write!(
            text,
            "{{\"base\":0,\"session\":{session},\"edits\":[{{\"edit\":\"insert\",\"after\":1,\"op\":{{\"id\":{id},\"t\":0,\"op\":\"clone\",\"from\":0,\"to\":{to}}}}}]}}\n"
        )?;
    }
    Ok(text)
}

#[test]
fn race_one_session(rt: HostRuntime) -> Result<(), Fail> {
    let mut input = String::from_str(rt.alloc(), ONE_NEW)?;
    input.push_str(ONE_SESSION)?;
    let (exit, text) = served(&rt, rt.alloc(), input.as_bytes(), 1);
    assert_eq!(rt; exit, Exit::Fine);
    assert!(rt; text.as_slice() == ONE_SESSION_TEXT.as_bytes());
    let (exit, again) = served(&rt, rt.alloc(), input.as_bytes(), MAX_WORKERS);
    assert_eq!(rt; exit, Exit::Fine);
    assert!(rt; again.as_slice() == text.as_slice());
    Ok(())
}

#[test]
fn sixteen_sessions_race_for_one_version(rt: HostRuntime) -> Result<(), Fail> {
    let input = sixteen_insertions(rt.alloc())?;
    let (exit, text) = served(&rt, rt.alloc(), input.as_bytes(), 1);
    assert_eq!(rt; exit, Exit::Fine);
    let mut accepted = 0usize;
    let mut stale = 0usize;
    for session in 0..PLACES {
        let won = format!(in rt.alloc(); "session {session} accepted 1")?;
        let lost = format!(in rt.alloc(); "session {session} stale 1")?;
        accepted = accepted.saturating_add(count(text.as_slice(), won.as_bytes()));
        stale = stale.saturating_add(count(text.as_slice(), lost.as_bytes()));
    }
    assert_eq!(rt; accepted, 1);
    assert_eq!(rt; stale, 15);
    let total = b"total 2 ops 0 skipped 1 objects 1 alive 0 leaks 0 husks".as_slice();
    assert_eq!(rt; count(text.as_slice(), total), 1);
    Ok(())
}

#[test]
fn a_fault_is_told(rt: HostRuntime) -> Result<(), Fail> {
    let (exit, text) = served(
        &rt,
        rt.alloc(),
        b"--\n{\"base\":0,\"session\":16,\"edits\":[]}\n",
        1,
    );
    assert_eq!(rt; exit, Exit::Trace);
    assert!(rt; text.as_slice() == b"fault line 2 OutOfRange\n".as_slice());
    let (exit, text) = served(&rt, rt.alloc(), b"", 1);
    assert_eq!(rt; exit, Exit::Fine);
    let nothing = b"total 0 ops 0 skipped 0 objects 0 alive 0 leaks 0 husks\n".as_slice();
    assert!(rt; text.as_slice() == nothing);
    Ok(())
}
