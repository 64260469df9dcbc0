//! Workers that guess what a request gives, before it has its turn at the lock.
ghost use Rattle.std.specs.Prelude.{◌≡◌, ◌≤◌, ◌↔◌, IsTrue, IfSome};
ghost use Rattle.run_engine.specs.Jobs.{AreJobsOf};
ghost use Rattle.live_sessions.specs.Guesses.{AreGuesses};

use chunk_workers::{OpenGate, speculate};
use edit_desk::{Published, Request};
use op_step::ChunkRun;
use run_engine::Run;
use std::alloc::Global;
use std::marker::Model;
use std::thread::Threads;
use trace_types::edits::Batch;
use trace_types::limits::MAX_WORKERS;

/// How many workers guess: 1 to 16. Contracts see the number.
#[derive(Drop)]
pub struct Workers {
    number: u32,
}

impl Model for Workers {
    ghost use Rattle.std.specs.Prelude.{ℕ, ◌≤◌};
    ghost use Rattle.std.specs.Coded.{coded_ℕ};
    ghost use Rattle.trace_types.specs.declared.limits.TheConstants.{MAX_WORKERS};

    ghost Value = { ℕ };

    ghost coded = { coded_ℕ };

    ghost view = { λ w. w.number };

    ghost invariant = { λ w. (1 ≤ w.number) × (w.number ≤ MAX_WORKERS) };
}

impl Workers {
    pub fn new(number: u32) -> Workers
        requires { (1 ≤ number) × (number ≤ MAX_WORKERS) }
        ensures { result ≡ number }
    {
        Workers { number }
    }

    /// Whether they guess: one worker doesn't, since it would replay first what the session's thread replays just as fast in its
    /// turn.
    pub fn do_guess(&self) -> bool
        ensures { IsTrue result ↔ (2 ≤ self.now) }
    {
        self.number >= 2
    }

    /// The chunks of the stretches that a request changes in this version, replayed by the workers side by side. There
    /// are none where the request is for an older version, its edits can't be made, or memory is wanting.
    pub fn guesses<S: Threads + Sync>(
        &self,
        rt: &S,
        alloc: Global,
        published: &Published,
        request: &Request,
    ) -> Vec<ChunkRun>
        ensures { AreGuesses published.now.run request.now.batch result.items }
    {
        if request.base < published.version() {
            return Vec::new(alloc);
        }
        match self.chunks(rt, alloc, published.run(), &request.batch) {
            Some(chunks) => chunks,
            None => Vec::new(alloc),
        }
    }

    // The chunks of the jobs that a batch makes of a run.
    fn chunks<S: Threads + Sync>(
        &self,
        rt: &S,
        alloc: Global,
        run: &Run,
        batch: &Batch,
    ) -> Option<Vec<ChunkRun>>
        ensures { IfSome result (λ v. AreJobsOf run.now batch.now v.items) }
    {
        let Ok(jobs) = run.jobs(alloc, batch) else {
            return None;
        };
        match speculate(rt, alloc, jobs, self.number, &OpenGate) {
            Ok(chunks) => Some(chunks),
            Err(_) => None,
        }
    }
}
