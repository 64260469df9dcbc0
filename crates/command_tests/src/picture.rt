//! What `picture` writes: worked traces.
use crate::traces::{
    BARE_VALUE, DOUBLE_LIST, ENDS, FORGOTTEN_WEAK, LEAST_WAY, SINCE_IS_OF_THE_PLACE, TWO_CYCLES,
    TWO_HOLD_EACH_OTHER, WEAK_TO_ITSELF,
};
use command_serve::{Exit, serve_picture};
use std::alloc::{AllocError, Global};
use std::process::Abort;
use std::test::Fail;
use trace_types::devices::{StdSink, StdSource};

fn drawn(alloc: Global, input: &[u8], objects: &[u32], with_all: bool) -> (Exit, Vec<u8>) {
    let mut output = Vec::new(alloc);
    let mut source = StdSource::new(input);
    let mut sink = StdSink::new(&mut output);
    let exit = serve_picture(alloc, &mut source, &mut sink, objects, with_all);
    drop(sink);
    (exit, output)
}

// The graph with this total and these lines.
fn graph(alloc: Global, total: &str, lines: &str) -> Result<String, AllocError> {
    let mut text = String::from_str(alloc, HEAD)?;
    text.push_str(total)?;
    text.push_str(LEGENDS)?;
    text.push_str(lines)?;
    text.push_str("}\n")?;
    Ok(text)
}

fn expect(rt: &(impl Abort + AllocGlobal), ended: (Exit, Vec<u8>), exit: Exit, text: &str) {
    assert!(rt; ended.0 == exit);
    assert!(rt; ended.1.as_slice() == text.as_bytes());
}

const HEAD: &str = "digraph heap {
  graph [rankdir=LR ranksep=0.7 fontname=\"Helvetica\" fontsize=12 label=\"";

const LEGENDS: &str =
    "\\nfilled: leaked. bold: in its cycle. dashed: weak, or a husk.\\n1/0: strong and weak count. .1 since 2: field 1, since operation 2.\"]
  node [shape=box style=\"rounded,filled\" fillcolor=\"white\" fontname=\"Helvetica\"]
  edge [fontname=\"Helvetica\" fontsize=10]
";

#[test]
fn a_cycle_is_bold(rt: HostRuntime) -> Result<(), Fail> {
    let alloc = rt.alloc();
    let lines = "  o1 [label=\"#1\\n1/0\" fillcolor=\"#f6b26b\"]
  o2 [label=\"#2\\n1/0\" fillcolor=\"#f6b26b\"]
  o1 -> o2 [label=\".0 since 4\" penwidth=2.5 color=\"#c0392b\"]
  o2 -> o1 [label=\".0 since 8\" penwidth=2.5 color=\"#c0392b\"]
";
    let text = graph(alloc, "total 2 leaks 1 cycles 0 husks", lines)?;
    expect(
        &rt,
        drawn(alloc, TWO_HOLD_EACH_OTHER, &[], false),
        Exit::Fine,
        text.as_str(),
    );
    expect(
        &rt,
        drawn(alloc, TWO_HOLD_EACH_OTHER, &[], true),
        Exit::Fine,
        text.as_str(),
    );
    Ok(())
}

#[test]
fn each_cycle_is_bold_by_itself(rt: HostRuntime) -> Result<(), Fail> {
    let alloc = rt.alloc();
    let lines = "  o1 [label=\"#1\\n2/0\" fillcolor=\"#f6b26b\"]
  o3 [label=\"#3\\n1/0\" fillcolor=\"#f6b26b\"]
  o6 [label=\"#6\\n1/0\" fillcolor=\"#f6b26b\"]
  o3 -> o3 [label=\".0 since 5\" penwidth=2.5 color=\"#c0392b\"]
  o3 -> o1 [label=\".1 since 3\"]
  o6 -> o6 [label=\".0 since 8\" penwidth=2.5 color=\"#c0392b\"]
  o6 -> o1 [label=\".1 since 6\"]
";
    let text = graph(alloc, "total 3 leaks 2 cycles 0 husks", lines)?;
    expect(
        &rt,
        drawn(alloc, TWO_CYCLES, &[], false),
        Exit::Fine,
        text.as_str(),
    );
    Ok(())
}

#[test]
fn what_leads_to_an_object_is_shown(rt: HostRuntime) -> Result<(), Fail> {
    let alloc = rt.alloc();
    let lines = "  o1 [label=\"#1\\n1/0\" fillcolor=\"#f6b26b\"]
  o2 [label=\"#2\\n2/0\" fillcolor=\"#f6b26b\"]
  o3 [label=\"#3\\n1/0\" fillcolor=\"#f6b26b\"]
  o12 [label=\"#12\\n1/0\" fillcolor=\"#f6b26b\"]
  o13 [label=\"#13\\n1/0\" fillcolor=\"#f6b26b\"]
  o1 -> o2 [label=\".0 since 5\" penwidth=2.5 color=\"#c0392b\"]
  o2 -> o3 [label=\".0 since 9\" penwidth=2.5 color=\"#c0392b\"]
  o2 -> o1 [label=\".1 since 7\" penwidth=2.5 color=\"#c0392b\"]
  o3 -> o2 [label=\".1 since 11\" penwidth=2.5 color=\"#c0392b\"]
  o3 -> o13 [label=\".2 since 14\"]
  o13 -> o12 [label=\".0 since 13\"]
";
    let text = graph(alloc, "total 5 leaks 1 cycles 0 husks", lines)?;
    expect(
        &rt,
        drawn(alloc, DOUBLE_LIST, &[], false),
        Exit::Fine,
        text.as_str(),
    );
    let more = "  o1 [label=\"#1\\n1/0\" fillcolor=\"#f6b26b\"]
  o2 [label=\"#2\\n2/0\" fillcolor=\"#f6b26b\"]
  o3 [label=\"#3\\n1/0\" fillcolor=\"#f6b26b\"]
  o12 [label=\"#12\\n1/0\" fillcolor=\"#f6b26b\" penwidth=3]
  o13 [label=\"#13\\n1/0\" fillcolor=\"#f6b26b\"]
  o1 -> o2 [label=\".0 since 5\" penwidth=2.5 color=\"#c0392b\"]
  o2 -> o3 [label=\".0 since 9\" penwidth=2.5 color=\"#c0392b\"]
  o2 -> o1 [label=\".1 since 7\" penwidth=2.5 color=\"#c0392b\"]
  o3 -> o2 [label=\".1 since 11\" penwidth=2.5 color=\"#c0392b\"]
  o3 -> o13 [label=\".2 since 14\"]
  o13 -> o12 [label=\".0 since 13\"]
";
    let text = graph(alloc, "total 5 leaks 1 cycles 0 husks", more)?;
    expect(
        &rt,
        drawn(alloc, DOUBLE_LIST, &[12], false),
        Exit::Fine,
        text.as_str(),
    );
    Ok(())
}

#[test]
fn a_husk_and_what_keeps_it_are_dashed(rt: HostRuntime) -> Result<(), Fail> {
    let alloc = rt.alloc();
    let lines = "  h3 [label=\"handle 3\" shape=plaintext]
  o1 [label=\"#1\\n1/0\"]
  o2 [label=\"#2\\n0/2\" style=\"rounded,dashed\"]
  o5 [label=\"#5\\n1/0\"]
  o6 [label=\"#6\\n1/0\" fillcolor=\"#f6b26b\"]
  h3 -> o5 [label=\"since 5\"]
  o1 -> o2 [label=\".1 since 4\" style=dashed color=\"#0072b2\"]
  o5 -> o1 [label=\".0 since 5\"]
  o6 -> o6 [label=\".0 since 10\" penwidth=2.5 color=\"#c0392b\"]
  o6 -> o2 [label=\".1 since 8\" style=dashed color=\"#0072b2\"]
";
    let text = graph(alloc, "total 1 leaks 1 cycles 1 husks", lines)?;
    expect(
        &rt,
        drawn(alloc, FORGOTTEN_WEAK, &[], false),
        Exit::Fine,
        text.as_str(),
    );
    let more = "  h3 [label=\"handle 3\" shape=plaintext]
  o1 [label=\"#1\\n1/0\"]
  o2 [label=\"#2\\n0/2\" style=\"rounded,dashed\" penwidth=3]
  o5 [label=\"#5\\n1/0\"]
  o6 [label=\"#6\\n1/0\" fillcolor=\"#f6b26b\"]
  h3 -> o5 [label=\"since 5\"]
  o1 -> o2 [label=\".1 since 4\" style=dashed color=\"#0072b2\"]
  o5 -> o1 [label=\".0 since 5\"]
  o6 -> o6 [label=\".0 since 10\" penwidth=2.5 color=\"#c0392b\"]
  o6 -> o2 [label=\".1 since 8\" style=dashed color=\"#0072b2\"]
";
    let text = graph(alloc, "total 1 leaks 1 cycles 1 husks", more)?;
    expect(
        &rt,
        drawn(alloc, FORGOTTEN_WEAK, &[2], false),
        Exit::Fine,
        text.as_str(),
    );
    let others = "  h3 [label=\"handle 3\" shape=plaintext]
  o5 [label=\"#5\\n1/0\" penwidth=3]
  h3 -> o5 [label=\"since 5\"]
";
    let text = graph(alloc, "total 1 leaks 1 cycles 1 husks", others)?;
    expect(
        &rt,
        drawn(alloc, FORGOTTEN_WEAK, &[5], false),
        Exit::Fine,
        text.as_str(),
    );
    Ok(())
}

#[test]
fn a_weak_to_itself_is_dashed(rt: HostRuntime) -> Result<(), Fail> {
    let alloc = rt.alloc();
    let lines = "  o1 [label=\"#1\\n1/1\" fillcolor=\"#f6b26b\"]
  o1 -> o1 [label=\".0 since 1\" style=dashed color=\"#0072b2\"]
  o1 -> o1 [label=\".1 since 3\" penwidth=2.5 color=\"#c0392b\"]
";
    let text = graph(alloc, "total 1 leaks 1 cycles 0 husks", lines)?;
    expect(
        &rt,
        drawn(alloc, WEAK_TO_ITSELF, &[], false),
        Exit::Fine,
        text.as_str(),
    );
    let more = "  h2 [label=\"handle 2\" shape=plaintext]
  o1 [label=\"#1\\n1/1\" fillcolor=\"#f6b26b\"]
  o4 [label=\"#4\\n1/1\"]
  h2 -> o4 [label=\"since 4\"]
  o1 -> o1 [label=\".0 since 1\" style=dashed color=\"#0072b2\"]
  o1 -> o1 [label=\".1 since 3\" penwidth=2.5 color=\"#c0392b\"]
  o4 -> o4 [label=\".0 since 4\" style=dashed color=\"#0072b2\"]
";
    let text = graph(alloc, "total 1 leaks 1 cycles 0 husks", more)?;
    expect(
        &rt,
        drawn(alloc, WEAK_TO_ITSELF, &[], true),
        Exit::Fine,
        text.as_str(),
    );
    Ok(())
}

#[test]
fn handles_and_cells_stand_first(rt: HostRuntime) -> Result<(), Fail> {
    let alloc = rt.alloc();
    let lines = "  h0 [label=\"handle 0\" shape=plaintext]
  h1 [label=\"handle 1\" shape=plaintext]
  h3 [label=\"handle 3\" shape=plaintext]
  c1 [label=\"cell 1\" shape=plaintext]
  c3 [label=\"cell 3\" shape=plaintext]
  o1 [label=\"#1\\n3/0\" penwidth=3]
  o4 [label=\"#4\\n1/0\"]
  o5 [label=\"#5\\n2/0\"]
  o7 [label=\"#7\\n1/0\"]
  o9 [label=\"#9\\n1/0\"]
  o12 [label=\"#12\\n2/0\"]
  h0 -> o12 [label=\"since 12\"]
  h1 -> o7 [label=\"since 7\"]
  h3 -> o4 [label=\"since 4\"]
  c1 -> o12 [label=\"since 14\"]
  c3 -> o9 [label=\"since 10\"]
  o4 -> o1 [label=\".1 since 4\"]
  o5 -> o1 [label=\".0 since 5\"]
  o7 -> o5 [label=\".0 since 7\"]
  o9 -> o1 [label=\".2 since 9\"]
  o12 -> o5 [label=\".0 since 12\"]
";
    let text = graph(alloc, "total 0 leaks 0 cycles 0 husks", lines)?;
    expect(
        &rt,
        drawn(alloc, LEAST_WAY, &[1], false),
        Exit::Fine,
        text.as_str(),
    );
    expect(
        &rt,
        drawn(alloc, LEAST_WAY, &[1], true),
        Exit::Fine,
        text.as_str(),
    );
    Ok(())
}

#[test]
fn a_field_of_a_bare_value_has_its_number(rt: HostRuntime) -> Result<(), Fail> {
    let alloc = rt.alloc();
    let lines = "  h2 [label=\"handle 2\" shape=plaintext]
  h3 [label=\"handle 3\" shape=plaintext]
  o1 [label=\"#1\\n2/0\"]
  o3 [label=\"#3\\n0/1\" style=\"rounded,dashed\"]
  h2 -> o1 [label=\".0 since 7\"]
  h2 -> o1 [label=\".1 since 5\"]
  h3 -> o3 [label=\"since 4\" style=dashed color=\"#0072b2\"]
";
    let text = graph(alloc, "total 0 leaks 0 cycles 1 husks", lines)?;
    expect(
        &rt,
        drawn(alloc, BARE_VALUE, &[], true),
        Exit::Fine,
        text.as_str(),
    );
    Ok(())
}

#[test]
fn a_date_is_drawn_with_its_slot(rt: HostRuntime) -> Result<(), Fail> {
    let alloc = rt.alloc();
    let lines = "  h6 [label=\"handle 6\" shape=plaintext]
  h7 [label=\"handle 7\" shape=plaintext]
  o2 [label=\"#2\\n2/0\" penwidth=3]
  o14 [label=\"#14\\n1/0\"]
  h6 -> o14 [label=\"since 14\"]
  h7 -> o2 [label=\"since 15\"]
  o14 -> o2 [label=\".0 since 14\"]
";
    let text = graph(alloc, "total 0 leaks 0 cycles 1 husks", lines)?;
    expect(
        &rt,
        drawn(alloc, SINCE_IS_OF_THE_PLACE, &[2], false),
        Exit::Fine,
        text.as_str(),
    );
    let more = "  h0 [label=\"handle 0\" shape=plaintext]
  h5 [label=\"handle 5\" shape=plaintext]
  h6 [label=\"handle 6\" shape=plaintext]
  h7 [label=\"handle 7\" shape=plaintext]
  o1 [label=\"#1\\n0/1\" style=\"rounded,dashed\"]
  o2 [label=\"#2\\n2/0\"]
  o12 [label=\"#12\\n1/0\"]
  o14 [label=\"#14\\n1/0\"]
  h0 -> o12 [label=\"since 12\"]
  h5 -> o1 [label=\"since 11\" style=dashed color=\"#0072b2\"]
  h6 -> o14 [label=\"since 14\"]
  h7 -> o2 [label=\"since 15\"]
  o14 -> o2 [label=\".0 since 14\"]
";
    let text = graph(alloc, "total 0 leaks 0 cycles 1 husks", more)?;
    expect(
        &rt,
        drawn(alloc, SINCE_IS_OF_THE_PLACE, &[], true),
        Exit::Fine,
        text.as_str(),
    );
    Ok(())
}

#[test]
fn a_husk_may_be_given(rt: HostRuntime) -> Result<(), Fail> {
    let alloc = rt.alloc();
    let lines = "  h4 [label=\"handle 4\" shape=plaintext]
  o8 [label=\"#8\\n0/1\" style=\"rounded,dashed\" penwidth=3]
  h4 -> o8 [label=\"since 9\" style=dashed color=\"#0072b2\"]
";
    let text = graph(alloc, "total 0 leaks 0 cycles 1 husks", lines)?;
    expect(
        &rt,
        drawn(alloc, ENDS, &[8], false),
        Exit::Fine,
        text.as_str(),
    );
    Ok(())
}

#[test]
fn an_object_that_is_gone_is_told(rt: HostRuntime) {
    let text = "no object 6\n";
    expect(
        &rt,
        drawn(rt.alloc(), ENDS, &[8, 6], false),
        Exit::Trace,
        text,
    );
}

#[test]
fn an_empty_trace_has_a_graph_without_objects(rt: HostRuntime) -> Result<(), Fail> {
    let text = graph(rt.alloc(), "total 0 leaks 0 cycles 0 husks", "")?;
    expect(
        &rt,
        drawn(rt.alloc(), b"", &[], true),
        Exit::Fine,
        text.as_str(),
    );
    Ok(())
}

#[test]
fn a_faulty_line_comes_before_a_missing_object(rt: HostRuntime) {
    let fault = "fault line 1 NotJson\n";
    expect(
        &rt,
        drawn(rt.alloc(), b"--\n", &[7], false),
        Exit::Trace,
        fault,
    );
}
