//! What a server does whose sessions leak: a registry holds them, and a connection that is resumed may hold its own session.

use crate::lines::{Field, Lines, Plan};
use crate::names::Op;
use crate::writer::Writer;
use std::alloc::{AllocError, Global};

// The shards of the registry, and how many sessions each has room for.
const SHARDS: u32 = 16;

const WIDTH: u32 = 32;
// The handle of the configuration that all sessions hold, and of the first shard.
const CONFIGURATION: u32 = 0;

const FIRST_SHARD: u32 = 16;
// The fields of a session, and the one of a connection that is replaced.
const CONNECTION: u32 = 2;

const LAST: u32 = 3;

const BUFFER: u32 = 1;
// One connection in so many that are resumed holds its session strongly.
const MISTAKE_TURN: u32 = 32;
// How many operations a step takes, at the most.
const OPERATIONS: u32 = 10;

/// Sessions that are opened, served, resumed and closed. Each holds the configuration and its connection, and knows its shard by a
/// `Weak`. Its connection knows it by a `Weak`, but for a mistake. Only operations that can be done are in it.
pub fn server(alloc: Global, plan: Plan) -> Result<Lines, AllocError> {
    let mut server = ServerWriter::new(alloc, plan)?;
    for _ in 0..plan.operations {
        if server.writer.left() < OPERATIONS {
            break;
        }
        server.step()?;
    }
    Ok(server.writer.lines)
}

#[derive(Drop)]
struct ServerWriter {
    writer: Writer,
    // whether each place of the registry has a session
    is_open: Vec<bool>,
}

impl ServerWriter {
    fn new(alloc: Global, plan: Plan) -> Result<Self, AllocError> {
        let mut writer = Writer::new(alloc, plan)?;
        let mut is_open = Vec::new(alloc);
        writer.make(CONFIGURATION, &[])?;
        for shard in 0..SHARDS {
            writer.make(FIRST_SHARD + shard, &[Field::Null; 32])?;
            for _ in 0..WIDTH {
                is_open.push(false)?;
            }
        }
        Ok(ServerWriter { writer, is_open })
    }

    // What one request, or its lack, makes the server do at some place of the registry.
    fn step(&mut self) -> Result<(), AllocError> {
        self.writer.switch();
        let place = self.writer.random.below(SHARDS * WIDTH);
        let shard = FIRST_SHARD + place / WIDTH;
        let entry = place % WIDTH;
        let Some(is_open) = self.is_open.get_mut(place as usize) else {
            return Ok(());
        };
        if !*is_open {
            *is_open = true;
            return open(&mut self.writer, shard, entry);
        }
        match self.writer.random.below(16) {
            0..=2 => {
                *is_open = false;
                close(&mut self.writer, shard, entry)
            }
            3 => resume(&mut self.writer, shard, entry),
            _ => serve(&mut self.writer, shard, entry),
        }
    }
}

fn open(writer: &mut Writer, shard: u32, entry: u32) -> Result<(), AllocError> {
    writer.from(Op::Clone, CONFIGURATION, 1)?;
    writer.from(Op::Downgrade, shard, 2)?;
    let fields = [writer.field(1), writer.field(2), Field::Null, Field::Null];
    writer.make(3, &fields)?;
    connect(writer, Op::Downgrade)?;
    writer.set(shard, entry, 3)
}

// The session of handle 3 gets a new connection, which knows or holds it.
fn connect(writer: &mut Writer, op: Op) -> Result<(), AllocError> {
    writer.from(op, 3, 4)?;
    let fields = [writer.field(4), Field::Null];
    writer.make(5, &fields)?;
    writer.set(3, CONNECTION, 5)
}

fn close(writer: &mut Writer, shard: u32, entry: u32) -> Result<(), AllocError> {
    writer.read(Op::Take, shard, entry, 3)?;
    writer.on(Op::Drop, 3)
}

fn resume(writer: &mut Writer, shard: u32, entry: u32) -> Result<(), AllocError> {
    writer.read(Op::Get, shard, entry, 3)?;
    writer.read(Op::Take, 3, CONNECTION, 4)?;
    writer.on(Op::Drop, 4)?;
    let is_wrong = writer.random.below(MISTAKE_TURN) == 0;
    connect(writer, if is_wrong { Op::Clone } else { Op::Downgrade })?;
    writer.on(Op::Drop, 3)
}

// The session keeps the last response, and its connection gets a new buffer.
fn serve(writer: &mut Writer, shard: u32, entry: u32) -> Result<(), AllocError> {
    writer.read(Op::Get, shard, entry, 3)?;
    writer.make(4, &[])?;
    writer.from(Op::Clone, 4, 5)?;
    writer.set(3, LAST, 4)?;
    writer.on(Op::Drop, 5)?;
    writer.read(Op::Get, 3, CONNECTION, 6)?;
    writer.make(7, &[])?;
    writer.set(6, BUFFER, 7)?;
    writer.on(Op::Drop, 6)?;
    writer.on(Op::Drop, 3)
}
