//! What is written of a report, and devices that fail.
ghost use Rattle.std.specs.Prelude.{Some};

use crate::replayed::{Replayed, counts, report_of};
use leak_report::{Report, WriteFault, find_leaks, write_report};
use object_heap::Heap;
use std::alloc::Global;
use std::process::Abort;
use std::test::Fail;
use trace_types::devices::{Failed, Sink, StdSink};
use trace_types::kinds::Kind;
use trace_types::outcomes::{Answer, Event};
use trace_types::sequence::Sequence;

// An object without fields is made.
fn add_made(alloc: Global, all: &mut Replayed, id: u32, to: u32) -> Result<(), Fail> {
    let fields = Sequence::empty(alloc);
    all.did(
        alloc,
        Kind::New { to, fields },
        Answer::Made,
        counts(id, 1, 0),
        &[],
    )
}

// One object, made and dropped.
fn add_made_and_dropped(alloc: Global, all: &mut Replayed) -> Result<(), Fail> {
    add_made(alloc, all, 1, 0)?;
    let gone = [Event::Destroyed(1), Event::Freed(1)];
    all.did(
        alloc,
        Kind::Drop { h: 0 },
        Answer::Done,
        counts(1, 0, 0),
        &gone,
    )
}

// The report of all operations, with nothing at the end.
fn report_of_all(alloc: Global, all: &Replayed) -> Result<Report<'_>, Fail> {
    report_of(alloc, &all.trace, &all.outcomes, &Heap::empty())
}

const MADE_AND_DROPPED: &str = "\
1 new made #1 1/0
2 drop done #1 0/0 destroyed #1 freed #1
object 1 destroyed 2 freed 2
total 2 ops 0 skipped 1 objects 0 alive 0 leaks 0 husks
";

fn assert_one_life(rt: &impl Abort, shown: &Report) {
    assert_eq!(rt; shown.operations(), 2);
    assert_eq!(rt; shown.skipped(), 0);
    assert_eq!(rt; shown.lives().len(), 1);
    assert_eq!(rt; shown.leaks().leaked.len(), 0);
}

fn assert_written(rt: &impl Abort, alloc: Global, shown: &Report) -> Result<(), Fail> {
    let mut bytes = Vec::new(alloc);
    let mut sink = StdSink::new(&mut bytes);
    write_report(alloc, &mut sink, shown)?;
    assert_eq!(rt; bytes.as_slice(), MADE_AND_DROPPED.as_bytes());
    Ok(())
}

fn assert_is_reported(rt: &impl Abort, alloc: Global, all: &Replayed) -> Result<(), Fail> {
    let shown = report_of_all(alloc, all)?;
    assert_one_life(rt, &shown);
    assert_written(rt, alloc, &shown)
}

#[test]
fn a_report_is_written(rt: HostRuntime) -> Result<(), Fail> {
    let mut all = Replayed::nothing(rt.alloc());
    add_made_and_dropped(rt.alloc(), &mut all)?;
    assert_is_reported(&rt, rt.alloc(), &all)
}

// Takes three bytes at once, until its room is full.
#[derive(Drop)]
struct Narrow {
    bytes: Vec<u8>,
    room: usize,
    failed: bool,
}

impl Sink for Narrow {
    ghost held = { λ s. Some s.bytes.items };

    ghost failed = { λ s. s.failed };

    fn write(&mut self, bytes: &[u8]) -> Result<usize, Failed> {
        let n = bytes.len().min(3).min(self.room);
        if n == 0 && !bytes.is_empty() {
            self.failed = true;
            return Err(Failed);
        }
        if self.bytes.extend_from_slice(&bytes[..n]).is_err() {
            self.failed = true;
            return Err(Failed);
        }
        self.room -= n;
        Ok(n)
    }
}

// Only a front of the report has room.
fn assert_cut_off(rt: &impl Abort, alloc: Global, shown: &Report) {
    let mut sink = Narrow {
        bytes: Vec::new(alloc),
        room: 20,
        failed: false,
    };
    assert_eq!(rt;
        write_report(alloc, &mut sink, shown),
        Err(WriteFault::Device)
    );
    assert!(rt; sink.failed);
    assert_eq!(rt; sink.bytes.as_slice(), "1 new made #1 1/0\n2 ".as_bytes());
}

#[test]
fn a_full_device_has_a_front_of_the_text(rt: HostRuntime) -> Result<(), Fail> {
    let mut all = Replayed::nothing(rt.alloc());
    add_made_and_dropped(rt.alloc(), &mut all)?;
    let shown = report_of_all(rt.alloc(), &all)?;
    assert_cut_off(&rt, rt.alloc(), &shown);
    Ok(())
}

#[test]
fn nothing_leaks_where_nothing_is_held(rt: HostRuntime) -> Result<(), Fail> {
    let leaks = find_leaks(rt.alloc(), &Heap::empty())?;
    assert_eq!(rt; leaks.leaked.len(), 0);
    assert_eq!(rt; leaks.husks.len(), 0);
    Ok(())
}

// Objects with these numbers are made, one after another.
fn add_each(alloc: Global, all: &mut Replayed, ids: &[u32]) -> Result<(), Fail> {
    for id in ids {
        all.number_next(*id);
        add_made(alloc, all, *id, *id)?;
    }
    Ok(())
}

fn assert_lives(rt: &impl Abort, shown: &Report, due: &[u32]) {
    assert_eq!(rt; shown.lives().len(), due.len());
    for (life, object) in shown.lives().iter().zip(due) {
        assert_eq!(rt; life.object, *object);
    }
}

#[test]
fn lives_rise_where_numbers_do_not(rt: HostRuntime) -> Result<(), Fail> {
    let mut all = Replayed::nothing(rt.alloc());
    add_each(rt.alloc(), &mut all, &[5, 7, 2, 6, 9])?;
    let shown = report_of_all(rt.alloc(), &all)?;
    assert_lives(&rt, &shown, &[2, 5, 6, 7, 9]);
    Ok(())
}

#[test]
fn faults_are_told(rt: HostRuntime) -> Result<(), Fail> {
    let table = [
        (WriteFault::Device, "a write failed"),
        (WriteFault::Memory, "out of memory"),
    ];
    for (fault, text) in table {
        let told = format!(in rt.alloc(); "{fault}")?;
        assert_eq!(rt; told.as_str(), text);
    }
    Ok(())
}
