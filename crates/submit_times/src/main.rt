//! Times the requests of an input: how long workers guess before the lock is taken, and how long the reply takes under it.
#![tactic(auto)]

mod measured;
mod words;

use command_serve::read_all;
use measured::answer_all;
use std::process::ExitCode;
use std::{env, io};
use trace_reader::read_script;
use trace_types::devices::StdSource;
use words::read_words;

fn main(rt: HostRuntime) -> io::Result<ExitCode> {
    let words: Vec<String> = env::args(&rt)?.collect(rt.alloc())?;
    let Some(asked) = read_words(words.as_slice()) else {
        eprintln!(rt; "usage: submit_times WORKERS each|first < SCRIPT")?;
        return Ok(ExitCode::from(2));
    };
    let Ok(input) = read_all(rt.alloc(), &mut StdSource::new(rt.reader())) else {
        return Ok(ExitCode::from(3));
    };
    let Ok(script) = read_script(rt.alloc(), input.as_slice(), false) else {
        return Ok(ExitCode::from(1));
    };
    drop(input);
    answer_all(&rt, &rt, script, &asked)?;
    Ok(ExitCode::SUCCESS)
}
