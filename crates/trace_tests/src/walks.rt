//! Which lines are read in one walk over their bytes, and from where on the others are read token by token.
use std::alloc::AllocError;
use std::test::Fail;
use trace_reader::{read_trace_counted, write_trace};
use trace_types::limits::{MAX_FIELDS, MAX_LINE};

const OP: &str = "\"id\":1,\"t\":0,\"op\":\"null\",\"to\":0";

// How many bytes of a text are read token by token.
fn token_bytes(rt: &HostRuntime, text: &str) -> Result<usize, Fail> {
    Ok(read_trace_counted(rt.alloc(), text.as_bytes())?.token_bytes)
}

// A text of so many letters.
fn letters(rt: &HostRuntime, count: usize) -> Result<String, AllocError> {
    let mut text = String::new(rt.alloc());
    for _ in 0..count {
        text.push('x')?;
    }
    Ok(text)
}

#[test]
fn each_operation_is_read_in_one_walk(rt: HostRuntime) -> Result<(), Fail> {
    let table = [
        "\"new\",\"to\":0,\"fields\":[]",
        "\"new\",\"to\":0,\"fields\":[7]",
        "\"new\",\"to\":0,\"fields\":[7,null]",
        "\"new\",\"to\":0,\"fields\":[7,null,999999]",
        "\"new_cyclic\",\"to\":0,\"fields\":[\"me\"]",
        "\"new_cyclic\",\"to\":0,\"fields\":[null,\"me\",7,\"me\"]",
        "\"new_from\",\"from\":0,\"to\":1",
        "\"weak_new\",\"to\":0",
        "\"null\",\"to\":0",
        "\"clone\",\"from\":0,\"to\":1",
        "\"drop\",\"h\":0",
        "\"downgrade\",\"from\":0,\"to\":1",
        "\"upgrade\",\"from\":0,\"to\":1",
        "\"try_unwrap\",\"h\":0",
        "\"into_inner\",\"h\":0",
        "\"get_mut\",\"h\":0",
        "\"make_mut\",\"h\":0",
        "\"counts\",\"h\":0",
        "\"ptr_eq\",\"a\":0,\"b\":1",
        "\"set\",\"h\":0,\"i\":15,\"from\":1",
        "\"take\",\"h\":0,\"i\":0,\"to\":1",
        "\"get\",\"h\":0,\"i\":0,\"to\":1",
        "\"cell_new\",\"c\":0,\"from\":0",
        "\"cell_load\",\"c\":0,\"to\":0",
        "\"cell_swap\",\"c\":0,\"from\":0,\"to\":1",
        "\"cell_swap\",\"c\":0,\"from\":0,\"to\":null",
        "\"cell_swap\",\"c\":0,\"from\":0",
        "\"cell_cas\",\"c\":0,\"expected\":0,\"desired\":1",
        "\"cell_drop\",\"c\":0",
        "\"scope_end\"",
    ];
    for members in table.iter() {
        let line = format!(in rt.alloc(); "{{\"id\":1,\"t\":0,\"op\":{members}}}\n")?;
        assert_eq!(rt; token_bytes(&rt, line.as_str())?, 0);
        // The canonical line has its members in another order.
        let trace = read_trace_counted(rt.alloc(), line.as_bytes())?.trace;
        let canonical = write_trace(rt.alloc(), &trace)?;
        let read = read_trace_counted(rt.alloc(), canonical.as_slice())?;
        assert_eq!(rt; read.token_bytes, 0);
    }
    Ok(())
}

#[test]
fn what_recorders_write_is_read_in_one_walk(rt: HostRuntime) -> Result<(), Fail> {
    let table = [
        // as `json.dumps` and `jq -c` write it, with spaces inside braces and brackets, in columns, and at the end of a line
        "{\"id\": 1, \"t\": 0, \"op\": \"new\", \"to\": 0, \"fields\": [1, null, 3]}",
        "{\"id\":1,\"t\":0,\"op\":\"new\",\"to\":0,\"fields\":[1,null,3]}",
        "{ \"id\": 1, \"t\": 0, \"op\": \"new\", \"to\": 0, \"fields\": [ 1, null, 3 ] }",
        "{ \"fields\": [ ], \"id\": 1, \"t\": 0, \"to\": 0, \"op\": \"new\" }",
        "{\"id\":    1, \"t\":  0, \"op\": \"new\",  \"to\": 0, \"fields\": [   1]}",
        "{\"id\":1,\"t\":0,\"op\":\"null\",\"to\":0}\r",
        "{\"id\":1,\"t\":0,\"op\":\"null\",\"to\":0}  \t\r",
        // members that no operation asks for
        "{\"id\":1,\"t\":0,\"op\":\"null\",\"to\":0,\"z\":0}",
        "{\"id\":1,\"t\":0,\"op\":\"null\",\"to\":0,\"z\":1700000000123456789}",
        "{\"id\":1,\"t\":0,\"op\":\"null\",\"to\":0,\"z\":null}",
        "{\"id\":1,\"t\":0,\"op\":\"null\",\"to\":0,\"z\":true}",
        "{\"z\":false,\"id\":1,\"t\":0,\"op\":\"null\",\"to\":0}",
        "{ \"z\": true, \"y\": false, \"id\": 1, \"t\": 0, \"op\": \"null\", \"to\": 0, \"x\": \"\" }",
        "{\"id\":1,\"t\":0,\"op\":\"null\",\"to\":0,\"\":\"\"}",
        "{\"id\":1,\"t\":0,\"op\":\"null\",\"to\":0,\"at\":\"src/main.rs:17, in {main}: [1] = /~ ]\"}",
        // of two members of one name the later one counts
        "{\"id\":7,\"t\":0,\"op\":\"drop\",\"to\":0,\"id\":1,\"op\":\"null\"}",
    ];
    for line in table.iter() {
        assert_eq!(rt; token_bytes(&rt, *line)?, 0);
    }
    Ok(())
}

#[test]
fn long_texts_and_names_are_read_in_one_walk(rt: HostRuntime) -> Result<(), Fail> {
    for count in [0, 1, 31, 32, 127, 128, 129, 200, 255, 256, MAX_LINE / 4] {
        let long = letters(&rt, count)?;
        let line = format!(in rt.alloc(); "{{\"at\":\"{long}\",{OP},\"n{long}\":\"{long}\"}}")?;
        assert_eq!(rt; token_bytes(&rt, line.as_str())?, 0);
    }
    Ok(())
}

#[test]
fn as_many_fields_as_there_may_be_are_read_in_one_walk(rt: HostRuntime) -> Result<(), Fail> {
    let mut line = String::new(rt.alloc());
    line.push_str("{\"id\":1,\"t\":0,\"op\":\"new\",\"to\":0,\"fields\":[999999")?;
    for _ in 1..MAX_FIELDS {
        line.push_str(",999999")?;
    }
    line.push_str("]}")?;
    assert_eq!(rt; token_bytes(&rt, line.as_str())?, 0);
    Ok(())
}

// A line whose last member isn't plain, and what tokens read of it.
#[test]
fn tokens_begin_at_the_member_that_is_not_plain(rt: HostRuntime) -> Result<(), Fail> {
    let table = [
        "\"z\":-1",
        "\"z\":1.5",
        "\"z\":1e3",
        "\"z\":{}",
        "\"z\":[1]",
        "\"z\":{\"id\":2,\"op\":\"drop\"}",
        "\"z\":\"a\\nb\"",
        "\"z\":\"ü\"",
        "\"ü\":0",
        "\"\\u007a\":0",
        "\"z\" :0",
        "\"z\":0 ,\"y\":0",
        "\"z\":1.5,\"y\":0",
    ];
    for members in table.iter() {
        let line = format!(in rt.alloc(); "{{{OP},{members}}}")?;
        let read = read_trace_counted(rt.alloc(), line.as_bytes())?;
        assert_eq!(rt; read.token_bytes, members.len() + 1);
        let written = write_trace(rt.alloc(), &read.trace)?;
        assert!(rt;
            written.as_slice() == b"{\"id\":1,\"op\":\"null\",\"t\":0,\"to\":0}\n".as_slice()
        );
        let first = format!(in rt.alloc(); "{{{members},{OP}}}")?;
        assert_eq!(rt; token_bytes(&rt, first.as_str())?, first.len() - 1);
    }
    Ok(())
}

// Wherever it stands in a text: before, at and behind the edges of the blocks that a text is looked at in.
#[test]
fn an_escape_ends_the_walk(rt: HostRuntime) -> Result<(), Fail> {
    for before in [0usize, 1, 126, 127, 128, 129, 254, 255, 256, 1_000] {
        let front = letters(&rt, before)?;
        let line = format!(in rt.alloc(); "{{{OP},\"z\":\"{front}\\\"x\"}}")?;
        assert_eq!(rt; token_bytes(&rt, line.as_str())?, before.saturating_add(10));
        let plain = format!(in rt.alloc(); "{{{OP},\"z\":\"{front}/x\"}}")?;
        assert_eq!(rt; token_bytes(&rt, plain.as_str())?, 0);
    }
    Ok(())
}

#[test]
fn a_line_that_is_not_plain_leaves_the_next_ones_as_they_are(rt: HostRuntime) -> Result<(), Fail> {
    for every in [1u32, 2, 3, 5, 10] {
        let mut text = String::new(rt.alloc());
        let mut wanted = 0usize;
        for id in 1..61u32 {
            let is_plain = id.checked_rem(every) != Some(0);
            let (end, tokens) = if is_plain {
                ("}\n", 0)
            } else {
                (",\"z\":1.5}\n", 8)
            };
            wanted = wanted.saturating_add(tokens);
            let line = format!(in rt.alloc();
                "{{\"id\":{id},\"t\":0,\"op\":\"null\",\"to\":0{end}"
            )?;
            text.push_str(line.as_str())?;
        }
        assert_eq!(rt; token_bytes(&rt, text.as_str())?, wanted);
    }
    Ok(())
}

// A text whose first lines begin with a tab, so that no walk reads them, and whose other lines are plain.
fn tabs_then_plain(rt: &HostRuntime, tabs: u32, plain: u32) -> Result<String, Fail> {
    let mut text = String::new(rt.alloc());
    for id in 1..=tabs.saturating_add(plain) {
        let start = if id <= tabs { "\t" } else { "" };
        let line = format!(in rt.alloc();
            "{start}{{\"id\":{id},\"t\":0,\"op\":\"null\",\"to\":0}}\n"
        )?;
        text.push_str(line.as_str())?;
    }
    Ok(text)
}

// How many bytes of forty plain lines are read token by token behind so many lines that no walk reads.
fn left_out(rt: &HostRuntime, tabs: u32) -> Result<usize, Fail> {
    let before = token_bytes(rt, tabs_then_plain(rt, tabs, 0)?.as_str())?;
    let all = token_bytes(rt, tabs_then_plain(rt, tabs, 40)?.as_str())?;
    Ok(all.saturating_sub(before))
}

// Walks that don't pay are left out, and tried again: behind some of these lines a few plain ones are read token by token.
#[test]
fn walks_are_left_out_where_they_do_not_pay(rt: HostRuntime) -> Result<(), Fail> {
    let mut most = 0;
    for tabs in 110..130 {
        most = most.max(left_out(&rt, tabs)?);
    }
    assert!(rt; 0 < most);
    assert!(rt; most < 450);
    Ok(())
}

// A walk that reads most of each line pays, however long the trace is.
#[test]
fn walks_that_end_late_go_on(rt: HostRuntime) -> Result<(), Fail> {
    let mut text = String::new(rt.alloc());
    for id in 1..=1_000u32 {
        let line = format!(in rt.alloc();
            "{{\"id\":{id},\"t\":0,\"op\":\"null\",\"to\":0,\"z\":1.5}}\n"
        )?;
        text.push_str(line.as_str())?;
    }
    assert_eq!(rt; token_bytes(&rt, text.as_str())?, 8_000);
    Ok(())
}

// The walk keeps members, and the tokens go on: what they find counts as if they had read the whole line.
#[test]
fn faults_behind_members_that_are_kept(rt: HostRuntime) -> Result<(), Fail> {
    let table = [
        ("{\"id\":1,\"id\":1.5}", "WrongType"),
        ("{\"id\":0,\"z\":{},\"id\":1}", "Missing"),
        ("{\"id\":1,\"z\":{\"t\":0}}", "Missing"),
        ("{\"id\":0,\"z\":1.5}", "OutOfRange"),
        ("{\"id\":0,\"z\":1.5,}", "NotJson"),
        ("{\"id\":0,\"z\":1.5", "NotJson"),
        ("{\"id\":0,\"z\":1.5}}", "NotJson"),
        ("{\"id\":0,\"z\":1.5]", "NotJson"),
        ("{\"id\":0,\"z\":1e999}", "NotJson"),
        ("{\"id\":0,\"z\":tru}", "NotJson"),
        ("{\"id\":0,\"z\":\"a\u{1}b\"}", "NotJson"),
        ("{\"id\":0,\"z\":truex}", "NotJson"),
        ("{\"id\":0,}", "NotJson"),
        ("{\"id\":0,,\"t\":0}", "NotJson"),
        ("{\"id\":0, }", "NotJson"),
        ("{\"id\":0]", "NotJson"),
        ("{\"id\":0}x", "NotJson"),
        ("{\"id\":0} {}", "NotJson"),
        ("{\"id\":0,\"z\":true false}", "NotJson"),
        ("{\"id\":0,\"t\":true}", "OutOfRange"),
        ("{\"id\":1,\"t\":true}", "WrongType"),
        ("{\"id\":1,\"t\":0,\"op\":true}", "WrongType"),
        (
            "{\"id\":1,\"t\":0,\"op\":\"new\",\"to\":0,\"fields\":[1,2.5]}",
            "WrongType",
        ),
        (
            "{\"id\":1,\"t\":0,\"op\":\"new\",\"to\":0,\"fields\":[1,2},\"z\":[1}",
            "NotJson",
        ),
    ];
    for (line, wanted) in table.iter() {
        assert_eq!(rt; cause(&rt, line.as_bytes())?.as_str(), *wanted);
    }
    assert_eq!(rt;
        cause(&rt, b"{\"id\":0,\"z\":\"\xff\"}")?.as_str(),
        "NotJson"
    );
    assert_eq!(rt; cause(&rt, b"{\"id\":0,\"\xff\":0}")?.as_str(), "NotJson");
    Ok(())
}

// The cause of a line's fault.
fn cause(rt: &HostRuntime, line: &[u8]) -> Result<String, Fail> {
    match read_trace_counted(rt.alloc(), line) {
        Ok(_) => Ok(String::from_str(rt.alloc(), "none")?),
        Err(fault) => {
            let cause = fault.cause;
            Ok(format!(in rt.alloc(); "{cause}")?)
        }
    }
}

// A line in which arrays nest so deep, in a member behind those that are kept.
fn nested(rt: &HostRuntime, depth: usize) -> Result<String, AllocError> {
    let mut line = format!(in rt.alloc(); "{{{OP},\"z\":")?;
    for _ in 0..depth {
        line.push('[')?;
    }
    for _ in 0..depth {
        line.push(']')?;
    }
    line.push('}')?;
    Ok(line)
}

#[test]
fn arrays_nest_as_deep_behind_members_that_are_kept(rt: HostRuntime) -> Result<(), Fail> {
    assert_eq!(rt; cause(&rt, nested(&rt, 126)?.as_bytes())?.as_str(), "none");
    assert_eq!(rt;
        cause(&rt, nested(&rt, 127)?.as_bytes())?.as_str(),
        "NotJson"
    );
    Ok(())
}
