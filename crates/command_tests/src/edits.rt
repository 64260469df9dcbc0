//! What `whatif` and `script` write.
use command_serve::{Exit, serve_script, serve_whatif};
use std::alloc::Global;
use std::process::Abort;
use std::test::Fail;
use trace_types::devices::{StdSink, StdSource};

const ONE_NEW: &str = "1 new made #1 1/0
object 1 alive
total 1 ops 0 skipped 1 objects 1 alive 0 leaks 0 husks
";

fn whatif(alloc: Global, input: &[u8]) -> (Exit, Vec<u8>) {
    let mut output = Vec::new(alloc);
    let mut source = StdSource::new(input);
    let mut sink = StdSink::new(&mut output);
    let exit = serve_whatif(alloc, &mut source, &mut sink);
    drop(sink);
    (exit, output)
}

fn script(alloc: Global, input: &[u8]) -> (Exit, Vec<u8>) {
    let mut output = Vec::new(alloc);
    let mut source = StdSource::new(input);
    let mut sink = StdSink::new(&mut output);
    let exit = serve_script(alloc, &mut source, &mut sink);
    drop(sink);
    (exit, output)
}

fn expect(rt: &(impl Abort + AllocGlobal), ended: (Exit, Vec<u8>), exit: Exit, text: &str) {
    assert!(rt; ended.0 == exit);
    assert!(rt; ended.1.as_slice() == text.as_bytes());
}

#[test]
fn whatif_insert(rt: HostRuntime) {
    let input = b"{\"id\":1,\"t\":0,\"op\":\"new\",\"to\":0,\"fields\":[]}
--
{\"base\":0,\"session\":0,\"edits\":[{\"edit\":\"insert\",\"after\":1,\"op\":{\"from\":0,\"id\":2,\"op\":\"clone\",\"t\":0,\"to\":1}}]}
";
    let text = "{\"fields\":[],\"id\":1,\"op\":\"new\",\"t\":0,\"to\":0}
{\"from\":0,\"id\":2,\"op\":\"clone\",\"t\":0,\"to\":1}
--
1 new made #1 1/0
2 clone done #1 2/0
object 1 alive
total 2 ops 0 skipped 1 objects 1 alive 0 leaks 0 husks
";
    expect(&rt, whatif(rt.alloc(), input), Exit::Fine, text);
}

#[test]
fn whatif_refuses(rt: HostRuntime) {
    let none = b"{\"id\":1,\"t\":0,\"op\":\"new\",\"to\":0,\"fields\":[]}\n";
    let text = "refused EmptyBatch 0\n";
    expect(&rt, whatif(rt.alloc(), none), Exit::Trace, text);
    let missing = b"{\"id\":1,\"t\":0,\"op\":\"new\",\"to\":0,\"fields\":[]}
--
{\"base\":7,\"session\":0,\"edits\":[{\"edit\":\"remove\",\"id\":1},{\"edit\":\"remove\",\"id\":1}]}
";
    let text = "refused NoSuchOp 1\n";
    expect(&rt, whatif(rt.alloc(), missing), Exit::Trace, text);
}

#[test]
fn whatif_takes_one_request(rt: HostRuntime) {
    let two = b"--
{\"base\":0,\"session\":0,\"edits\":[{\"edit\":\"remove\",\"id\":1}]}
{\"base\":0,\"session\":0,\"edits\":[{\"edit\":\"remove\",\"id\":1}]}
";
    let text = "fault line 3 TooMany\n";
    expect(&rt, whatif(rt.alloc(), two), Exit::Trace, text);
}

#[test]
fn script_replies(rt: HostRuntime) {
    let input = b"{\"id\":1,\"t\":0,\"op\":\"new\",\"to\":0,\"fields\":[]}
{\"id\":2,\"t\":0,\"op\":\"drop\",\"h\":0}
--
{\"base\":0,\"session\":1,\"edits\":[]}
{\"base\":1,\"session\":2,\"edits\":[{\"edit\":\"remove\",\"id\":2}]}
{\"base\":0,\"session\":2,\"edits\":[{\"edit\":\"remove\",\"id\":2}]}
{\"base\":0,\"session\":1,\"edits\":[{\"edit\":\"remove\",\"id\":1}]}
{\"base\":1,\"session\":1,\"edits\":[{\"edit\":\"insert\",\"after\":0,\"op\":{\"id\":1,\"t\":0,\"op\":\"null\",\"to\":1}}]}
";
    let replies = "refused EmptyBatch 0\nstale 0\naccepted 1\nstale 1\nrefused IdTaken 0\n";
    let (exit, output) = script(rt.alloc(), input);
    assert!(rt; exit == Exit::Fine);
    let (front, rest) = output.as_slice().split_at(replies.len().min(output.len()));
    assert!(rt; front == replies.as_bytes());
    assert!(rt; rest == ONE_NEW.as_bytes());
}

#[test]
fn script_without_requests(rt: HostRuntime) {
    let trace = b"{\"id\":1,\"t\":0,\"op\":\"new\",\"to\":0,\"fields\":[]}\n";
    expect(&rt, script(rt.alloc(), trace), Exit::Fine, ONE_NEW);
    let line = b"{\"id\":1,\"t\":0,\"op\":\"new\",\"to\":0,\"fields\":[]}\n--";
    expect(&rt, script(rt.alloc(), line), Exit::Fine, ONE_NEW);
}

#[test]
fn script_tells_the_fault(rt: HostRuntime) {
    let input = b"{\"id\":1,\"t\":0,\"op\":\"new\",\"to\":0,\"fields\":[]}\n--\n{\"base\":0}\n";
    let text = "fault line 3 Missing\n";
    expect(&rt, script(rt.alloc(), input), Exit::Trace, text);
}
