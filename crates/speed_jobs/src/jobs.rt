//! The jobs: inputs are made, the commands are called on them, and what they answer is digested.

use crate::cells::cells;
use crate::chain::chain;
use crate::digest::Digest;
use crate::leaks::leaks;
use crate::lines::{Lines, Order, Plan, Spaces};
use crate::mixed::mixed;
use crate::random::Random;
use crate::requests::{BATCHES, Requests};
use crate::server::server;
use crate::wide::wide;
use crate::words::{Job, Sizes};
use command_serve::{serve_replay, serve_script, serve_whatif};
use std::alloc::{AllocError, Global};
use trace_types::devices::{StdSink, StdSource};

// Each so many-th request of a session is a batch.
const BATCH_TURN: u32 = 32;
// Each so many-th recorded trace is one that `json.dumps` wrote.
const DUMP_TURN: u32 = 3;
// How near the front the edits of a chain are.
const FRONT: u32 = 256;

/// Does a job. No input comes twice, since each is made from a seed of its own.
pub fn run(alloc: Global, job: Job, sizes: Sizes) -> Result<Digest, AllocError> {
    let mut jobs = Jobs {
        alloc,
        sizes,
        seeds: Random::new(sizes.seed),
        planned: 0,
        digest: Digest::new(),
    };
    match job {
        Job::Replay => jobs.replay()?,
        Job::Leaks => jobs.leaks()?,
        Job::Whatif => jobs.whatif()?,
        Job::Session => jobs.session()?,
        Job::SessionShort => jobs.session_short()?,
        Job::SessionChain => jobs.session_chain()?,
        Job::SessionRecorded => jobs.session_recorded()?,
        Job::ReplayRecorded => jobs.replay_recorded()?,
        Job::All => jobs.all()?,
    }
    Ok(jobs.digest)
}

#[derive(Clone, Copy)]
enum Command {
    Replay,
    Script,
    Whatif,
}

#[derive(Drop)]
struct Jobs {
    alloc: Global,
    sizes: Sizes,
    seeds: Random,
    // how many traces were planned
    planned: u32,
    digest: Digest,
}

impl Jobs {
    fn all(&mut self) -> Result<(), AllocError> {
        self.replay()?;
        self.leaks()?;
        self.whatif()?;
        self.session()?;
        self.session_short()?;
        self.session_chain()?;
        self.session_recorded()
    }

    fn replay(&mut self) -> Result<(), AllocError> {
        for trace in 0..self.sizes.traces {
            let mut plan = self.plan();
            if trace == 0 {
                plan.spaces = Spaces::Everywhere;
            }
            self.replay_of(mixed(self.alloc, plan)?);
        }
        Ok(())
    }

    fn replay_recorded(&mut self) -> Result<(), AllocError> {
        for trace in 0..self.sizes.traces {
            let mut plan = self.plan();
            plan.order = Order::HeadFirst;
            plan.is_recorded = true;
            if trace % DUMP_TURN == DUMP_TURN - 1 {
                plan.spaces = Spaces::Dumped;
            }
            self.replay_of(mixed(self.alloc, plan)?);
        }
        Ok(())
    }

    fn leaks(&mut self) -> Result<(), AllocError> {
        for _ in 0..self.sizes.traces {
            let plan = self.plan();
            self.replay_of(leaks(self.alloc, plan)?);
        }
        let plan = self.plan();
        self.replay_of(wide(self.alloc, plan)?);
        let plan = self.plan();
        self.replay_of(chain(self.alloc, plan)?);
        Ok(())
    }

    fn whatif(&mut self) -> Result<(), AllocError> {
        for _ in 0..self.sizes.traces {
            let mut requests = self.requests_of_mixed()?;
            for _ in 0..self.sizes.requests.min(BATCHES) {
                requests.batch()?;
                let input = requests.take_input(self.alloc)?;
                self.serve(Command::Whatif, input);
            }
        }
        Ok(())
    }

    fn session(&mut self) -> Result<(), AllocError> {
        for _ in 0..self.sizes.traces {
            let mut requests = self.requests_of_mixed()?;
            for request in 0..self.sizes.requests {
                if request % BATCH_TURN == BATCH_TURN - 1 {
                    requests.batch()?;
                } else {
                    requests.single(self.sizes.operations)?;
                }
            }
            let input = requests.take_input(self.alloc)?;
            self.serve(Command::Script, input);
        }
        Ok(())
    }

    fn session_short(&mut self) -> Result<(), AllocError> {
        let Sizes {
            operations,
            requests,
            ..
        } = self.sizes;
        for _ in 0..self.sizes.traces {
            let plan = self.plan();
            self.singles(wide(self.alloc, plan)?, requests, operations)?;
            // Where much leaks an edit takes some four times as long as in the other two.
            let plan = self.plan();
            self.singles(leaks(self.alloc, plan)?, requests / 4, operations)?;
            let plan = self.plan();
            self.singles(cells(self.alloc, plan)?, requests, operations)?;
        }
        Ok(())
    }

    fn session_chain(&mut self) -> Result<(), AllocError> {
        for _ in 0..self.sizes.traces {
            let plan = self.plan();
            self.singles(chain(self.alloc, plan)?, self.sizes.requests, FRONT)?;
        }
        Ok(())
    }

    fn session_recorded(&mut self) -> Result<(), AllocError> {
        let Sizes {
            operations,
            requests,
            ..
        } = self.sizes;
        for _ in 0..self.sizes.traces {
            let mut plan = self.plan();
            plan.order = Order::HeadFirst;
            plan.is_recorded = true;
            self.singles(server(self.alloc, plan)?, requests, operations)?;
        }
        Ok(())
    }

    // The next trace: the members of its lines stand in another order than those of the last one.
    fn plan(&mut self) -> Plan {
        self.planned = self.planned.wrapping_add(1);
        Plan {
            operations: self.sizes.operations,
            order: Order::by_turn(self.planned),
            spaces: Spaces::Nowhere,
            is_recorded: false,
            seed: self.seeds.draw(),
        }
    }

    fn requests_of_mixed(&mut self) -> Result<Requests, AllocError> {
        let plan = self.plan();
        Requests::new(self.alloc, mixed(self.alloc, plan)?, self.seeds.draw())
    }

    fn replay_of(&mut self, lines: Lines) {
        self.serve(Command::Replay, lines.into_text());
    }

    // A session of requests of one edit each, among the first operations.
    fn singles(&mut self, lines: Lines, count: u32, first: u32) -> Result<(), AllocError> {
        let mut requests = Requests::new(self.alloc, lines, self.seeds.draw())?;
        for _ in 0..count {
            requests.single(first)?;
        }
        let input = requests.take_input(self.alloc)?;
        self.serve(Command::Script, input);
        Ok(())
    }

    // Calls a command over memory.
    fn serve(&mut self, command: Command, input: Vec<u8>) {
        let mut output = Vec::new(self.alloc);
        let mut source = StdSource::new(input.as_slice());
        let mut sink = StdSink::new(&mut output);
        let exit = match command {
            Command::Replay => serve_replay(self.alloc, &mut source, &mut sink),
            Command::Script => serve_script(self.alloc, &mut source, &mut sink),
            Command::Whatif => serve_whatif(self.alloc, &mut source, &mut sink),
        };
        self.digest.add(exit.status(), output.as_slice());
    }
}
