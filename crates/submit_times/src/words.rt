//! The words of the command line.

use live_sessions::Workers;
use trace_types::limits::MAX_WORKERS;

/// What is asked: so many workers, and from which version they guess.
#[derive(Drop)]
pub struct Asked {
    pub workers: Workers,
    /// Whether all guesses are made from the trace that was opened, as if every request had been read while none was answered.
    pub from_first: bool,
}

/// Reads the program's name and the words WORKERS each|first.
pub fn read_words(words: &[String]) -> Option<Asked> {
    let [_, workers, version] = words else {
        return None;
    };
    let workers = workers.as_str().parse::<u32>().ok()?;
    if workers < 1 || MAX_WORKERS < workers {
        return None;
    }
    let from_first = match version.as_str() {
        "each" => false,
        "first" => true,
        _ => return None,
    };
    Some(Asked {
        workers: Workers::new(workers),
        from_first,
    })
}
