//! The words of the command line.

/// What is to be done.
#[derive(Clone, Copy)]
pub enum Job {
    /// `replay`: mixed traces.
    Replay,
    /// `leaks`: traces that leak, and a wide one and a chain.
    Leaks,
    /// `whatif`: mixed traces, each with some batches of edits, one after the other.
    Whatif,
    /// `session`: mixed traces with requests of one edit, anywhere, and some batches.
    Session,
    /// `session_short`: wide, leaking and cell traces, where the effect of most edits ends soon.
    SessionShort,
    /// `session_chain`: chains that are edited near the front, so that all must be replayed.
    SessionChain,
    /// `session_recorded`: the trace of a server whose sessions leak, as a recorder writes it, with requests of one edit, anywhere.
    SessionRecorded,
    /// `all`: each of these.
    All,
    /// `replay_recorded`: mixed traces as recorders write them, with a text in each line that says where it was done.
    ReplayRecorded,
}

/// How much of it.
#[derive(Clone, Copy)]
pub struct Sizes {
    /// How many lines a trace has, or a few fewer.
    pub operations: u32,
    /// How many traces there are, of each kind that the job repeats.
    pub traces: u32,
    /// How many requests a trace gets.
    pub requests: u32,
    pub seed: u64,
}

/// Reads the words JOB OPERATIONS TRACES REQUESTS SEED.
pub fn read_words(words: &[String]) -> Option<(Job, Sizes)> {
    let [job, operations, traces, requests, seed] = words else {
        return None;
    };
    let sizes = Sizes {
        operations: number(operations)?,
        traces: number(traces)?,
        requests: number(requests)?,
        seed: u64::from(number(seed)?),
    };
    Some((job_named(job.as_str())?, sizes))
}

fn number(word: &String) -> Option<u32> {
    word.as_str().parse::<u32>().ok()
}

fn job_named(name: &str) -> Option<Job> {
    match name {
        "replay" => Some(Job::Replay),
        "leaks" => Some(Job::Leaks),
        "whatif" => Some(Job::Whatif),
        "session" => Some(Job::Session),
        "session_short" => Some(Job::SessionShort),
        "session_chain" => Some(Job::SessionChain),
        "session_recorded" => Some(Job::SessionRecorded),
        "all" => Some(Job::All),
        "replay_recorded" => Some(Job::ReplayRecorded),
        _ => None,
    }
}
