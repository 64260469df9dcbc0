//! Words, and what the program says of them.
use command_words::{Command, WordsFault, read_words};
use std::alloc::{AllocError, Global};
use std::test::Fail;
use trace_types::limits::{MAX_ID, MAX_WORKERS};
use trace_types::sequence::Sequence;

fn words(alloc: Global, texts: &[&str]) -> Result<Vec<String>, AllocError> {
    let mut words = Vec::new(alloc);
    for text in texts {
        words.push(String::from_str(alloc, text)?)?;
    }
    Ok(words)
}

fn read(alloc: Global, texts: &[&str]) -> Result<Option<Command>, AllocError> {
    let words = words(alloc, texts)?;
    match read_words(alloc, words.as_slice()) {
        Ok(command) => Ok(Some(command)),
        Err(_) => Ok(None),
    }
}

#[test]
fn each_command_is_read(rt: HostRuntime) -> Result<(), Fail> {
    let alloc = rt.alloc();
    let replay = read(alloc, &["arc_scope", "replay"])?;
    assert_eq!(rt; replay, Some(Command::Replay));
    let script = read(alloc, &["arc_scope", "script"])?;
    assert_eq!(rt; script, Some(Command::Script));
    let whatif = read(alloc, &["arc_scope", "whatif"])?;
    assert_eq!(rt; whatif, Some(Command::Whatif));
    let race = read(alloc, &["arc_scope", "race"])?;
    assert_eq!(rt; race, Some(Command::Race(1)));
    let race = read(alloc, &["arc_scope", "race", "--workers", "16"])?;
    assert_eq!(rt; race, Some(Command::Race(MAX_WORKERS)));
    Ok(())
}

fn numbers(alloc: Global, numbers: &[u32]) -> Result<Sequence<u32>, AllocError> {
    Ok(Sequence::from_vec(Vec::from_slice(alloc, numbers)?))
}

#[test]
fn objects_are_read_wherever_the_option_stands(rt: HostRuntime) -> Result<(), Fail> {
    let alloc = rt.alloc();
    let explain = read(alloc, &["arc_scope", "explain"])?;
    assert_eq!(rt;
        explain,
        Some(Command::Explain(numbers(alloc, &[])?, false))
    );
    let explain = read(alloc, &["arc_scope", "explain", "3", "--life", "1", "3"])?;
    assert_eq!(rt;
        explain,
        Some(Command::Explain(numbers(alloc, &[3, 1, 3])?, true))
    );
    let explain = read(alloc, &["arc_scope", "explain", "999999999"])?;
    assert_eq!(rt;
        explain,
        Some(Command::Explain(numbers(alloc, &[MAX_ID])?, false))
    );
    let picture = read(alloc, &["arc_scope", "picture", "--all"])?;
    assert_eq!(rt; picture, Some(Command::Picture(numbers(alloc, &[])?, true)));
    let picture = read(alloc, &["arc_scope", "picture", "2", "1"])?;
    assert_eq!(rt;
        picture,
        Some(Command::Picture(numbers(alloc, &[2, 1])?, false))
    );
    Ok(())
}

#[test]
fn other_words_are_refused(rt: HostRuntime) -> Result<(), Fail> {
    let alloc = rt.alloc();
    assert_eq!(rt; read(alloc, &["arc_scope"])?, None);
    assert_eq!(rt; read(alloc, &["arc_scope", "help"])?, None);
    assert_eq!(rt; read(alloc, &["arc_scope", "--help"])?, None);
    assert_eq!(rt; read(alloc, &["arc_scope", "replay", "twice"])?, None);
    assert_eq!(rt;
        read(alloc, &["arc_scope", "replay", "--workers", "1"])?,
        None
    );
    assert_eq!(rt;
        read(alloc, &["arc_scope", "race", "--workers", "0"])?,
        None
    );
    assert_eq!(rt;
        read(alloc, &["arc_scope", "race", "--workers", "17"])?,
        None
    );
    assert_eq!(rt; read(alloc, &["arc_scope", "race", "--workers"])?, None);
    assert_eq!(rt; read(alloc, &["arc_scope", "run"])?, None);
    assert_eq!(rt; read(alloc, &["arc_scope", "explain", "0"])?, None);
    assert_eq!(rt; read(alloc, &["arc_scope", "explain", "1000000000"])?, None);
    assert_eq!(rt; read(alloc, &["arc_scope", "explain", "1", "x"])?, None);
    assert_eq!(rt; read(alloc, &["arc_scope", "explain", "--all"])?, None);
    assert_eq!(rt; read(alloc, &["arc_scope", "picture", "--life"])?, None);
    Ok(())
}

const HELP: &str = "\
Replays a trace of Arc, Weak and atomic shared_ptr operations and reports what each did

Usage: arc_scope <COMMAND>

Commands:
  replay   Reads a trace, one operation a line in JSON, and writes its report
  script   Reads a trace, a line --, and requests to edit it, and writes the replies and the last version's report
  whatif   Reads a trace, a line --, and one request to edit it, and writes the edited trace and its report
  race     Reads a trace, a line --, and requests to edit it, submits those of each session on a thread of its own, and writes the replies and the last version's report
  explain  Reads a trace, and writes why objects are still there at its end: what holds them, since which operation, and the way to them
  picture  Reads a trace, and writes its end as a graph in DOT: what leaked, the husks, and what leads to them
  help     Print this message or the help of the given subcommand(s)

Options:
  -h, --help  Print help
";

const REPLAY_HELP: &str = "\
Reads a trace, one operation a line in JSON, and writes its report

Usage: arc_scope replay

Options:
  -h, --help  Print help
";

const SCRIPT_HELP: &str = "\
Reads a trace, a line --, and requests to edit it, and writes the replies and the last version's report

Usage: arc_scope script

Options:
  -h, --help  Print help
";

const WHATIF_HELP: &str = "\
Reads a trace, a line --, and one request to edit it, and writes the edited trace and its report

Usage: arc_scope whatif

Options:
  -h, --help  Print help
";

const RACE_HELP: &str = "\
Reads a trace, a line --, and requests to edit it, submits those of each session on a thread of its own, and writes the replies and the last version's report

Usage: arc_scope race [OPTIONS]

Options:
      --workers <N>  How many threads replay ahead what a request changes, 1 to 16; with 1 none does [default: 1]
  -h, --help         Print help
";

const EXPLAIN_HELP: &str = "\
Reads a trace, and writes why objects are still there at its end: what holds them, since which operation, and the way to them

Usage: arc_scope explain [OPTIONS] [N]...

Arguments:
  [N]...  The numbers of objects, which are those of the operations that made them

Options:
      --life  Tells each operation that changed what names an object, or whether it is there
  -h, --help  Print help
";

const PICTURE_HELP: &str = "\
Reads a trace, and writes its end as a graph in DOT: what leaked, the husks, and what leads to them

Usage: arc_scope picture [OPTIONS] [N]...

Arguments:
  [N]...  The numbers of objects, which are those of the operations that made them

Options:
      --all   Shows every object that is there
  -h, --help  Print help
";

const NO_COMMAND: &str = "\
error: 'arc_scope' requires a subcommand but one was not provided
  [subcommands: replay, script, whatif, race, explain, picture, help]

Usage: arc_scope <COMMAND>

For more information, try '--help'.
";

const UNKNOWN_COMMAND: &str = "\
error: unrecognized subcommand 'run'

Usage: arc_scope <COMMAND>

For more information, try '--help'.
";

const WORD_TOO_MANY: &str = "\
error: unexpected argument 'twice' found

Usage: arc_scope replay

For more information, try '--help'.
";

// Whether these words are refused with that text.
fn is_shown(alloc: Global, texts: &[&str], shown: &str) -> Result<bool, AllocError> {
    let words = words(alloc, texts)?;
    match read_words(alloc, words.as_slice()) {
        Err(WordsFault::Usage(error)) => {
            let text = format!(in alloc; "{error}")?;
            Ok(text.as_str() == shown)
        }
        _ => Ok(false),
    }
}

#[test]
fn help_is_shown(rt: HostRuntime) -> Result<(), Fail> {
    let alloc = rt.alloc();
    assert!(rt; is_shown(alloc, &["arc_scope", "--help"], HELP)?);
    assert!(rt; is_shown(alloc, &["arc_scope", "-h"], HELP)?);
    assert!(rt; is_shown(alloc, &["arc_scope", "help"], HELP)?);
    assert!(rt; is_shown(alloc, &["arc_scope", "replay", "--help"], REPLAY_HELP)?);
    assert!(rt; is_shown(alloc, &["arc_scope", "help", "script"], SCRIPT_HELP)?);
    assert!(rt; is_shown(alloc, &["arc_scope", "whatif", "-h"], WHATIF_HELP)?);
    assert!(rt; is_shown(alloc, &["arc_scope", "race", "--help"], RACE_HELP)?);
    assert!(rt; is_shown(alloc, &["arc_scope", "explain", "--help"], EXPLAIN_HELP)?);
    assert!(rt; is_shown(alloc, &["arc_scope", "help", "picture"], PICTURE_HELP)?);
    Ok(())
}

#[test]
fn a_refusal_is_shown(rt: HostRuntime) -> Result<(), Fail> {
    let alloc = rt.alloc();
    assert!(rt; is_shown(alloc, &["arc_scope"], NO_COMMAND)?);
    assert!(rt; is_shown(alloc, &["arc_scope", "run"], UNKNOWN_COMMAND)?);
    assert!(rt; is_shown(alloc, &["arc_scope", "replay", "twice"], WORD_TOO_MANY)?);
    Ok(())
}
