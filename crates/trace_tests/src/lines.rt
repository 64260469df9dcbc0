//! Lines of traces.
use serde_json::{Value, from_slice};
use std::alloc::Global;
use std::fmt::Write;
use std::process::Abort;
use std::test::Fail;
use trace_reader::{fault_line, read_op, read_script, read_trace, write_line, write_trace};
use trace_types::edits::Edit;
use trace_types::limits::{MAX_FIELDS, MAX_INDEX, MAX_LINE};

const OP: &str = "{\"id\":1,\"t\":0,\"op\":\"null\",\"to\":0}";

// What is said of a text: its fault's line, or `read`.
fn told(alloc: Global, text: &[u8]) -> Result<String, Fail> {
    match read_trace(alloc, text) {
        Ok(_) => Ok(format!(in alloc; "read\n")?),
        Err(fault) => Ok(fault_line(alloc, &fault)?),
    }
}

// A line of so many bytes: the operation, and spaces after it.
fn padded(rt: &HostRuntime, size: usize) -> Result<Vec<u8>, Fail> {
    let mut line = Vec::from_slice(rt.alloc(), OP.as_bytes())?;
    for _ in line.len()..size {
        line.push(b' ')?;
    }
    Ok(line)
}

// This is said of each of these texts.
fn assert_told(rt: &impl Abort, alloc: Global, table: &[(&str, &str)]) -> Result<(), Fail> {
    for (text, wanted) in table {
        assert_eq!(rt; told(alloc, text.as_bytes())?.as_str(), *wanted);
    }
    Ok(())
}

#[test]
fn lines_that_are_no_object(rt: HostRuntime) -> Result<(), Fail> {
    let table = [
        ("[1]", "fault line 1 NotObject\n"),
        ("7", "fault line 1 NotObject\n"),
        ("{\"id\":1,", "fault line 1 NotJson\n"),
        ("--", "fault line 1 NotJson\n"),
        ("{}{}", "fault line 1 NotJson\n"),
        ("{\"id\":01}", "fault line 1 NotJson\n"),
        ("{\"id\":1.}", "fault line 1 NotJson\n"),
        ("{\"id\":1e999}", "fault line 1 NotJson\n"),
        ("{\"more\":[{\"a\":-1e999}]}", "fault line 1 NotJson\n"),
        ("{\"id\":NaN}", "fault line 1 NotJson\n"),
        ("{\"more\":\"\\ud800\"}", "fault line 1 NotJson\n"),
        ("{\"\\udc00\":1}", "fault line 1 NotJson\n"),
        ("{\"more\":\"\u{1}\"}", "fault line 1 NotJson\n"),
        ("\u{feff}{\"id\":1}", "fault line 1 NotJson\n"),
    ];
    assert_told(&rt, rt.alloc(), &table)?;
    assert_eq!(rt;
        told(rt.alloc(), b"\xff")?.as_str(),
        "fault line 1 NotJson\n"
    );
    Ok(())
}

#[test]
fn numbers_of_operations(rt: HostRuntime) -> Result<(), Fail> {
    let table = [
        ("\n \t\r\n{\"t\":0}\n", "fault line 3 Missing\n"),
        ("{\"t\":0}", "fault line 1 Missing\n"),
        ("{\"id\":\"1\"}", "fault line 1 WrongType\n"),
        ("{\"id\":null}", "fault line 1 WrongType\n"),
        ("{\"id\":-1}", "fault line 1 WrongType\n"),
        ("{\"id\":-0}", "fault line 1 WrongType\n"),
        ("{\"id\":1.0}", "fault line 1 WrongType\n"),
        ("{\"id\":1e0}", "fault line 1 WrongType\n"),
        ("{\"id\":18446744073709551616}", "fault line 1 WrongType\n"),
        ("{\"id\":18446744073709551615}", "fault line 1 OutOfRange\n"),
        ("{\"id\":0}", "fault line 1 OutOfRange\n"),
        ("{\"id\":1000000000}", "fault line 1 OutOfRange\n"),
        ("{\"id\":999999999}", "fault line 1 Missing\n"),
        ("{\"\\u0069d\":0}", "fault line 1 OutOfRange\n"),
        ("{\"id\":0,\"id\":1}", "fault line 1 Missing\n"),
        ("{\"id\":1,\"id\":0}", "fault line 1 OutOfRange\n"),
    ];
    assert_told(&rt, rt.alloc(), &table)
}

#[test]
fn faulty_lines(rt: HostRuntime) -> Result<(), Fail> {
    let table = [
        ("{\"id\":1,\"t\":65536}", "fault line 1 OutOfRange\n"),
        ("{\"id\":1,\"t\":65535}", "fault line 1 Missing\n"),
        ("{\"id\":1,\"t\":0,\"op\":1}", "fault line 1 WrongType\n"),
        (
            "{\"id\":1,\"t\":0,\"op\":\"nw\"}",
            "fault line 1 UnknownOp\n",
        ),
        (
            "{\"id\":1,\"t\":0,\"op\":\"new\"}",
            "fault line 1 Missing\n",
        ),
        (
            "{\"id\":1,\"t\":0,\"op\":\"null\",\"to\":1000000}",
            "fault line 1 OutOfRange\n",
        ),
        (
            "{\"id\":1,\"t\":0,\"op\":\"null\",\"to\":0}\n{\"id\":1,\"t\":0,\"op\":\"null\",\"to\":0}",
            "fault line 2 IdTaken\n",
        ),
        (
            "{\"id\":1,\"t\":0,\"op\":\"null\",\"to\":999999,\"more\":{}}\r\n\n",
            "read\n",
        ),
        ("", "read\n"),
    ];
    assert_told(&rt, rt.alloc(), &table)
}

#[test]
fn fields_of_a_new_object(rt: HostRuntime) -> Result<(), Fail> {
    let table = [
        ("new", "7", "fault line 1 WrongType\n"),
        ("new", "[0,null]", "read\n"),
        ("new", "[null,\"me\"]", "fault line 1 WrongType\n"),
        ("new_cyclic", "[null,\"me\"]", "read\n"),
        ("new_cyclic", "[\"you\"]", "fault line 1 WrongType\n"),
        ("new", "[1000000,true]", "fault line 1 OutOfRange\n"),
        ("new", "[true,1000000]", "fault line 1 WrongType\n"),
    ];
    for (name, fields, wanted) in table.iter() {
        let line = format!(in rt.alloc();
            "{{\"id\":1,\"t\":0,\"op\":\"{name}\",\"to\":99,\"fields\":{fields}}}"
        )?;
        assert_eq!(rt; told(rt.alloc(), line.as_bytes())?.as_str(), *wanted);
    }
    Ok(())
}

// A new object with so many fields: the first is given, and all others are null.
fn with_fields(rt: &HostRuntime, first: &str, count: usize) -> Result<String, Fail> {
    let mut line = format!(in rt.alloc();
        "{{\"id\":1,\"t\":0,\"op\":\"new\",\"to\":0,\"fields\":[{first}"
    )?;
    for _ in 1..count {
        line.push_str(",null")?;
    }
    line.push_str("]}")?;
    Ok(line)
}

#[test]
fn as_many_fields_as_there_may_be(rt: HostRuntime) -> Result<(), Fail> {
    // Of too many fields the length is told, and no element.
    let table = [
        ("null", MAX_FIELDS, "read\n"),
        ("true", MAX_FIELDS, "fault line 1 WrongType\n"),
        ("null", MAX_FIELDS + 1, "fault line 1 OutOfRange\n"),
        ("true", MAX_FIELDS + 1, "fault line 1 OutOfRange\n"),
    ];
    for (first, count, wanted) in table {
        let line = with_fields(&rt, first, count)?;
        assert_eq!(rt; told(rt.alloc(), line.as_bytes())?.as_str(), wanted);
    }
    Ok(())
}

#[test]
fn greatest_field_number(rt: HostRuntime) -> Result<(), Fail> {
    let members = [
        "\"set\",\"from\":1",
        "\"take\",\"to\":1",
        "\"get\",\"to\":1",
    ];
    for (i, wanted) in [
        (MAX_INDEX, "read\n"),
        (MAX_INDEX + 1, "fault line 1 OutOfRange\n"),
    ] {
        for op in members {
            let line = format!(in rt.alloc();
                "{{\"id\":1,\"t\":0,\"h\":0,\"i\":{i},\"op\":{op}}}"
            )?;
            assert_eq!(rt; told(rt.alloc(), line.as_bytes())?.as_str(), wanted);
        }
    }
    Ok(())
}

#[test]
fn every_operation_is_read(rt: HostRuntime) -> Result<(), Fail> {
    let table = [
        "\"new\",\"to\":0,\"fields\":[]",
        "\"new_cyclic\",\"to\":0,\"fields\":[]",
        "\"new_from\",\"from\":0,\"to\":1",
        "\"weak_new\",\"to\":0",
        "\"null\",\"to\":0",
        "\"clone\",\"from\":0,\"to\":1",
        "\"drop\",\"h\":0",
        "\"downgrade\",\"from\":0,\"to\":1",
        "\"upgrade\",\"from\":0,\"to\":1",
        "\"try_unwrap\",\"h\":0",
        "\"into_inner\",\"h\":0",
        "\"get_mut\",\"h\":0",
        "\"make_mut\",\"h\":0",
        "\"counts\",\"h\":0",
        "\"ptr_eq\",\"a\":0,\"b\":1",
        "\"set\",\"h\":0,\"i\":15,\"from\":1",
        "\"take\",\"h\":0,\"i\":0,\"to\":1",
        "\"get\",\"h\":0,\"i\":0,\"to\":1",
        "\"cell_new\",\"c\":0,\"from\":0",
        "\"cell_load\",\"c\":0,\"to\":0",
        "\"cell_swap\",\"c\":0,\"from\":0,\"to\":1",
        "\"cell_swap\",\"c\":0,\"from\":0,\"to\":null",
        "\"cell_swap\",\"c\":0,\"from\":0",
        "\"cell_cas\",\"c\":0,\"expected\":0,\"desired\":1",
        "\"cell_drop\",\"c\":0",
        "\"scope_end\"",
        "\"scope_end\",\"h\":-1,\"label\":2",
    ];
    for members in table.iter() {
        let line = format!(in rt.alloc(); "{{\"id\":1,\"t\":0,\"op\":{members}}}")?;
        assert_eq!(rt; told(rt.alloc(), line.as_bytes())?.as_str(), "read\n");
    }
    Ok(())
}

#[test]
fn the_longest_line(rt: HostRuntime) -> Result<(), Fail> {
    assert_eq!(rt;
        told(rt.alloc(), padded(&rt, MAX_LINE)?.as_slice())?.as_str(),
        "read\n"
    );
    assert_eq!(rt;
        told(rt.alloc(), padded(&rt, MAX_LINE + 1)?.as_slice())?.as_str(),
        "fault line 1 LineTooLong\n"
    );
    Ok(())
}

// What is said of a text with requests: its fault's line, or how many operations and requests it has.
fn told_script(alloc: Global, text: &str, lone: bool) -> Result<String, Fail> {
    match read_script(alloc, text.as_bytes(), lone) {
        Ok(script) => {
            let ops = script.trace.len();
            let requests = script.requests.len();
            Ok(format!(in alloc; "{ops} {requests}\n")?)
        }
        Err(fault) => Ok(fault_line(alloc, &fault)?),
    }
}

#[test]
fn faulty_requests(rt: HostRuntime) -> Result<(), Fail> {
    let table = [
        ("[1]", "fault line 2 NotObject\n"),
        ("--", "fault line 2 NotJson\n"),
        ("{\"edits\":7}", "fault line 2 Missing\n"),
        ("{\"base\":1000001}", "fault line 2 OutOfRange\n"),
        ("{\"base\":1000000}", "fault line 2 Missing\n"),
        ("{\"base\":0,\"session\":16}", "fault line 2 OutOfRange\n"),
        ("{\"base\":0,\"session\":15}", "fault line 2 Missing\n"),
    ];
    for (line, wanted) in table.iter() {
        let text = format!(in rt.alloc(); "--\n{line}\n")?;
        assert_eq!(rt;
            told_script(rt.alloc(), text.as_str(), false)?.as_str(),
            *wanted
        );
    }
    Ok(())
}

#[test]
fn faulty_edits(rt: HostRuntime) -> Result<(), Fail> {
    let table = [
        ("7", "fault line 2 WrongType\n"),
        ("[7]", "fault line 2 WrongType\n"),
        ("[{}]", "fault line 2 Missing\n"),
        ("[{\"edit\":1}]", "fault line 2 WrongType\n"),
        ("[{\"edit\":\"move\"}]", "fault line 2 UnknownOp\n"),
        (
            "[{\"edit\":\"remove\",\"id\":0}]",
            "fault line 2 OutOfRange\n",
        ),
        ("[{\"edit\":\"remove\",\"id\":1}]", "0 1\n"),
        ("[{\"edit\":\"insert\"}]", "fault line 2 Missing\n"),
        (
            "[{\"edit\":\"insert\",\"after\":1000000000}]",
            "fault line 2 OutOfRange\n",
        ),
        (
            "[{\"edit\":\"insert\",\"after\":0}]",
            "fault line 2 Missing\n",
        ),
        (
            "[{\"edit\":\"insert\",\"after\":0,\"op\":7}]",
            "fault line 2 WrongType\n",
        ),
        (
            "[{\"edit\":\"insert\",\"after\":0,\"op\":{\"id\":1,\"t\":0,\"op\":\"nw\"}}]",
            "fault line 2 UnknownOp\n",
        ),
        (
            "[{\"edit\":\"insert\",\"after\":0,\"op\":{\"id\":1,\"t\":0,\"op\":\"null\",\"to\":0}}]",
            "0 1\n",
        ),
        (
            "[{\"edit\":\"change\",\"id\":0,\"op\":7}]",
            "fault line 2 OutOfRange\n",
        ),
        (
            "[{\"edit\":\"change\",\"id\":1,\"op\":{\"id\":0}}]",
            "fault line 2 OutOfRange\n",
        ),
        ("[]", "0 1\n"),
    ];
    for (edits, wanted) in table.iter() {
        let text = format!(in rt.alloc(); "--\n{{\"base\":0,\"session\":0,\"edits\":{edits}}}\n")?;
        assert_eq!(rt;
            told_script(rt.alloc(), text.as_str(), false)?.as_str(),
            *wanted
        );
    }
    Ok(())
}

// This is said of a text of these parts.
fn assert_script(
    rt: &impl Abort,
    alloc: Global,
    parts: &[&str],
    lone: bool,
    wanted: &str,
) -> Result<(), Fail> {
    let mut text = String::new(alloc);
    for part in parts {
        text.push_str(part)?;
    }
    assert_eq!(rt; told_script(alloc, text.as_str(), lone)?.as_str(), wanted);
    Ok(())
}

const REQUEST: &str = "{\"base\":0,\"session\":0,\"edits\":[]}";

#[test]
fn lines_of_requests_are_counted_on(rt: HostRuntime) -> Result<(), Fail> {
    let two: [&str; 6] = [OP, "\n--\n", REQUEST, "\n \n", REQUEST, "\n"];
    assert_script(&rt, rt.alloc(), &two, false, "1 2\n")?;
    assert_script(&rt, rt.alloc(), &two, true, "fault line 5 TooMany\n")?;
    let faulty: [&str; 4] = [OP, "\n--\n", REQUEST, "\n\n{}\n"];
    assert_script(&rt, rt.alloc(), &faulty, true, "fault line 5 Missing\n")?;
    let trace: [&str; 5] = ["\n", OP, "\n", OP, "\n--\n"];
    assert_script(&rt, rt.alloc(), &trace, false, "fault line 3 IdTaken\n")
}

#[test]
fn scripts_without_requests(rt: HostRuntime) -> Result<(), Fail> {
    assert_script(&rt, rt.alloc(), &[OP, "\n\n--\n"], true, "1 0\n")?;
    assert_script(&rt, rt.alloc(), &[OP], true, "1 0\n")?;
    assert_script(&rt, rt.alloc(), &["--"], true, "0 0\n")?;
    assert_script(&rt, rt.alloc(), &[""], true, "0 0\n")?;
    assert_script(
        &rt,
        rt.alloc(),
        &["--\r\n"],
        false,
        "fault line 1 NotJson\n",
    )?;
    assert_script(&rt, rt.alloc(), &[" --\n"], false, "fault line 1 NotJson\n")
}

fn told_edit(rt: &HostRuntime, edit: &Edit) -> Result<String, Fail> {
    Ok(match edit {
        Edit::Remove { id } => format!(in rt.alloc(); "remove {id}")?,
        Edit::Insert { after, op } => {
            let new = op.id();
            format!(in rt.alloc(); "insert {after} {new}")?
        }
        Edit::Change { id, op } => {
            let new = op.id();
            format!(in rt.alloc(); "change {id} {new}")?
        }
    })
}

#[test]
fn a_request_is_read(rt: HostRuntime) -> Result<(), Fail> {
    let text =
        "--\n{\"base\":7,\"session\":3,\"edits\":[{\"edit\":\"remove\",\"id\":5},{\"edit\":\"insert\",\"after\":6,\"op\":{\"id\":8,\"t\":0,\"op\":\"null\",\"to\":0}},{\"edit\":\"change\",\"id\":9,\"op\":{\"id\":10,\"t\":0,\"op\":\"drop\",\"h\":0}}]}";
    let script = read_script(rt.alloc(), text.as_bytes(), true)?;
    let mut told = String::new(rt.alloc());
    for request in script.requests.as_slice() {
        let base = request.base;
        let session = request.session;
        write!(told, "{base} {session}")?;
        for edit in request.batch.as_slice() {
            told.push_str(", ")?;
            let copy = edit.clone()?;
            told.push_str(told_edit(&rt, &copy)?.as_str())?;
        }
    }
    assert_eq!(rt; told.as_str(), "7 3, remove 5, insert 6 8, change 9 10");
    Ok(())
}

#[test]
fn a_value_is_read(rt: HostRuntime) -> Result<(), Fail> {
    let alloc = rt.alloc();
    let line = "{\"h\":5,\"id\":8,\"op\":\"drop\",\"t\":1}";
    let value = from_slice(alloc, line.as_bytes())?;
    let Ok(op) = read_op(alloc, &value) else {
        return Err(Fail::from("an operation"));
    };
    let written = write_line(alloc, &op)?;
    assert_eq!(rt; written.as_str(), line);
    assert!(rt; read_op(alloc, &Value::Null).is_err());
    Ok(())
}

#[test]
fn canonical_lines_are_written_as_they_were_read(rt: HostRuntime) -> Result<(), Fail> {
    let table = [
        "{\"fields\":[7,null],\"id\":1,\"op\":\"new\",\"t\":0,\"to\":0}\n",
        "{\"fields\":[],\"id\":999999999,\"op\":\"new\",\"t\":65535,\"to\":999999}\n",
        "{\"fields\":[null,\"me\",7,\"me\"],\"id\":1,\"op\":\"new_cyclic\",\"t\":0,\"to\":0}\n",
        "{\"from\":0,\"id\":1,\"op\":\"new_from\",\"t\":0,\"to\":1}\n",
        "{\"id\":1,\"op\":\"weak_new\",\"t\":0,\"to\":0}\n",
        "{\"id\":1,\"op\":\"null\",\"t\":0,\"to\":0}\n",
        "{\"from\":0,\"id\":1,\"op\":\"clone\",\"t\":0,\"to\":1}\n",
        "{\"h\":0,\"id\":1,\"op\":\"drop\",\"t\":0}\n",
        "{\"from\":0,\"id\":1,\"op\":\"downgrade\",\"t\":0,\"to\":1}\n",
        "{\"from\":0,\"id\":1,\"op\":\"upgrade\",\"t\":0,\"to\":1}\n",
        "{\"h\":0,\"id\":1,\"op\":\"try_unwrap\",\"t\":0}\n",
        "{\"h\":0,\"id\":1,\"op\":\"into_inner\",\"t\":0}\n",
        "{\"h\":0,\"id\":1,\"op\":\"get_mut\",\"t\":0}\n",
        "{\"h\":0,\"id\":1,\"op\":\"make_mut\",\"t\":0}\n",
        "{\"h\":0,\"id\":1,\"op\":\"counts\",\"t\":0}\n",
        "{\"a\":0,\"b\":1,\"id\":1,\"op\":\"ptr_eq\",\"t\":0}\n",
        "{\"from\":1,\"h\":0,\"i\":15,\"id\":1,\"op\":\"set\",\"t\":0}\n",
        "{\"h\":0,\"i\":2,\"id\":1,\"op\":\"take\",\"t\":0,\"to\":1}\n",
        "{\"h\":0,\"i\":2,\"id\":1,\"op\":\"get\",\"t\":0,\"to\":1}\n",
        "{\"c\":4,\"from\":5,\"id\":1,\"op\":\"cell_new\",\"t\":0}\n",
        "{\"c\":4,\"id\":1,\"op\":\"cell_load\",\"t\":0,\"to\":5}\n",
        "{\"c\":4,\"from\":5,\"id\":1,\"op\":\"cell_swap\",\"t\":0,\"to\":6}\n",
        "{\"c\":4,\"from\":5,\"id\":1,\"op\":\"cell_swap\",\"t\":0}\n",
        "{\"c\":4,\"desired\":5,\"expected\":6,\"id\":1,\"op\":\"cell_cas\",\"t\":0}\n",
        "{\"c\":4,\"id\":1,\"op\":\"cell_drop\",\"t\":0}\n",
        "{\"id\":6,\"op\":\"scope_end\",\"t\":0}\n",
    ];
    for text in table.iter() {
        let trace = read_trace(rt.alloc(), text.as_bytes())?;
        let lines = write_trace(rt.alloc(), &trace)?;
        assert!(rt; lines.as_slice() == text.as_bytes());
    }
    Ok(())
}

#[test]
fn other_lines_are_written_as_canonical_ones(rt: HostRuntime) -> Result<(), Fail> {
    let text =
        b" {\"to\":1, \"id\":2,\"op\":\"clone\",\"from\":0,\"more\":{},\"t\":1}\r\n\n{\"id\":3,\"t\":0,\"op\":\"cell_swap\",\"c\":0,\"from\":1,\"to\":null}";
    let wanted =
        b"{\"from\":0,\"id\":2,\"op\":\"clone\",\"t\":1,\"to\":1}\n{\"c\":0,\"from\":1,\"id\":3,\"op\":\"cell_swap\",\"t\":0}\n";
    let trace = read_trace(rt.alloc(), text)?;
    let lines = write_trace(rt.alloc(), &trace)?;
    assert!(rt; lines.as_slice() == wanted.as_slice());
    let mut again = String::new(rt.alloc());
    for op in trace.as_slice() {
        again.push_str(write_line(rt.alloc(), op)?.as_str())?;
        again.push('\n')?;
    }
    assert!(rt; again.as_bytes() == wanted.as_slice());
    Ok(())
}
