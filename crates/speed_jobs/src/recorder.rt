//! What a recorder adds to the line of an operation: where in the program it was done, and here and there more of it.

use crate::lines::{Plan, Spaces};
use crate::random::Random;
use crate::text::Text;
use std::alloc::AllocError;

// Each has 20 to 46 bytes, so that up to eight of them with what stands between have 20 to 400.
const FRAMES: [&[u8]; 16] = [
    b"pool::run src/pool.rs:88",
    b"pool::Worker::take src/pool/worker.rs:214",
    b"pool::Worker::finish src/pool/worker.rs:301",
    b"pool::Pool::submit src/pool/pool.rs:57",
    b"cache::get src/cache.rs:9",
    b"cache::Shard::look_up src/cache/shard.rs:142",
    b"cache::Shard::evict src/cache/shard.rs:190",
    b"cache::Entry::touch src/cache/entry.rs:33",
    b"graph::link src/graph.rs:61",
    b"graph::Node::add_child src/graph/node.rs:118",
    b"graph::Node::drop_children src/graph/node.rs:127",
    b"graph::Walk::next src/graph/walk.rs:74",
    b"main src/bin/main.rs:12",
    b"server::accept src/server/accept.rs:45",
    b"server::Session::answer src/server/session.rs:266",
    b"tasks::Queue::steal src/tasks/queue.rs:350",
];

const MOST_FRAMES: u32 = 8;

const AT: &[u8] = b",\"at\":\"";

const AT_DUMPED: &[u8] = b", \"at\": \"";

// One line in so many has one of these as well.
const MORE_TURN: u32 = 16;

const MORE: [&[u8]; 4] = [
    b",\"note\":\"the queue \\\"fast\\\" is full\"",
    b",\"span\":{\"file\":\"pool.rs\",\"line\":88}",
    b",\"took\":1.5e-06",
    b",\"is_late\":true",
];

const MORE_DUMPED: [&[u8]; 4] = [
    b", \"note\": \"the queue \\\"fast\\\" is full\"",
    b", \"span\": {\"file\": \"pool.rs\", \"line\": 88}",
    b", \"took\": 1.5e-06",
    b", \"is_late\": true",
];

/// Draws what is added.
#[derive(Drop)]
pub struct Recorder {
    random: Random,
    is_dumped: bool,
}

impl Recorder {
    pub fn new(plan: Plan) -> Self {
        Recorder {
            // Other numbers than those that the operations are drawn from.
            random: Random::new(!plan.seed),
            is_dumped: plan.spaces == Spaces::Dumped,
        }
    }

    /// Adds the member `at`, a text of 20 to 400 bytes, and seldom another member, which is more than a plain text or number.
    pub fn push(&mut self, text: &mut Text) -> Result<(), AllocError> {
        let [first, frames, chance, more] = self.random.parts();
        text.push_bytes(if self.is_dumped { AT_DUMPED } else { AT })?;
        text.push_bytes(one_of(&FRAMES, first))?;
        for _ in 0..frames % MOST_FRAMES {
            text.push_bytes(b" < ")?;
            let next = self.random.below(FRAMES.len() as u32);
            text.push_bytes(one_of(&FRAMES, next))?;
        }
        text.push_bytes(b"\"")?;
        if chance % MORE_TURN == 0 {
            let members = if self.is_dumped { &MORE_DUMPED } else { &MORE };
            text.push_bytes(one_of(members, more))?;
        }
        Ok(())
    }
}

fn one_of(texts: &[&'static [u8]], drawn: u32) -> &'static [u8] {
    let index = drawn as usize % texts.len().max(1);
    texts.get(index).copied().unwrap_or(b"")
}
