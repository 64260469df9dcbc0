//! A trace of lines.
ghost use Rattle.std.specs.Prelude.{◌≡◌, ◌≢◌, ◌≤◌, length, Ok, Err, IfOk, IfErr, OnOk};
ghost use Rattle.trace_types.specs.Trace.{pushed};
ghost use Rattle.trace_reader.specs.Reading.{after_line, push_cause, lines_of, IsReadUpTo};
ghost use Rattle.trace_reader.specs.Reading as Reading;

use crate::fault::{LineCause, LineFault};
use crate::line_scratch::LineScratch;
use crate::lines::{cut_line, is_blank};
use crate::op::line_op;
use std::alloc::Global;
use trace_types::limits::MAX_LINE;
use trace_types::ops::{Op, TraceFault};
use trace_types::trace::Trace;

/// The trace that a text is, or its first fault.
///
/// Each line is a JSON object, as `read_op` reads it; blank lines are skipped.
pub fn read_trace(alloc: Global, bytes: &[u8]) -> Result<Trace, LineFault>
    ensures ok { IfOk result (λ t. Reading.read_trace bytes.now ≡ Ok t) }
    ensures fault { IfErr result
        (λ e. e.cause ≢ LineCause.Memory → Reading.read_trace bytes.now ≡ Err e) }
    // Where memory runs out, no line before was faulty.
    ensures memory { IfErr result (λ e. IsReadUpTo e.line (Reading.read_trace bytes.now)) }
    ensures line { IfErr result (λ e. (1 ≤ e.line) × (e.line ≤ length (lines_of bytes.now))) }
{
    let mut scratch = LineScratch::new(alloc);
    read_lines(alloc, bytes, &mut scratch)
}

/// A trace, and how many bytes of its text were read token by token: those of each line that isn't plain, from its first member on that isn't.
#[derive(Drop)]
pub struct CountedTrace {
    pub trace: Trace,
    pub token_bytes: usize,
}

/// The trace that a text is, as `read_trace` reads it, and what that took.
pub fn read_trace_counted(alloc: Global, bytes: &[u8]) -> Result<CountedTrace, LineFault>
    ensures ok { IfOk result (λ read. Reading.read_trace bytes.now ≡ Ok read.trace) }
    ensures fault { IfErr result
        (λ e. e.cause ≢ LineCause.Memory → Reading.read_trace bytes.now ≡ Err e) }
    // Where memory runs out, no line before was faulty.
    ensures memory { IfErr result (λ e. IsReadUpTo e.line (Reading.read_trace bytes.now)) }
    ensures line { IfErr result (λ e. (1 ≤ e.line) × (e.line ≤ length (lines_of bytes.now))) }
{
    let mut scratch = LineScratch::new(alloc);
    let trace = read_lines(alloc, bytes, &mut scratch)?;
    Ok(CountedTrace {
        trace,
        token_bytes: scratch.token_bytes,
    })
}

fn read_lines(alloc: Global, bytes: &[u8], scratch: &mut LineScratch) -> Result<Trace, LineFault>
    ensures ok { IfOk result (λ t. Reading.read_trace bytes.now ≡ Ok t) }
    ensures fault { IfErr result
        (λ e. e.cause ≢ LineCause.Memory → Reading.read_trace bytes.now ≡ Err e) }
    ensures memory { IfErr result (λ e. IsReadUpTo e.line (Reading.read_trace bytes.now)) }
    ensures line { IfErr result (λ e. (1 ≤ e.line) × (e.line ≤ length (lines_of bytes.now))) }
{
    let mut trace = Trace::new(alloc);
    let mut rest = bytes;
    let mut number = 1;
    'lines: loop {
        let (line, more) = cut_line(rest);
        if let Err(cause) = read_line(alloc, line, &mut trace, scratch) {
            return Err(LineFault {
                line: number,
                cause,
            });
        }
        let Some(next) = more else {
            return Ok(trace);
        };
        rest = next;
        number += 1;
    }
}

/// Adds the operation of a line, if it has one.
#[tactic(auto, unfolding(crate::specs::Reading::after_line))]
pub fn read_line(
    alloc: Global,
    line: &[u8],
    trace: &mut Trace,
    scratch: &mut LineScratch,
) -> Result<(), LineCause>
    ensures ok { OnOk result (after_line trace.old line.now ≡ Ok trace.new) }
    ensures fault { IfErr result
        (λ e. e ≢ LineCause.Memory → after_line trace.old line.now ≡ Err e) }
{
    if line.len() > MAX_LINE {
        return Err(LineCause::LineTooLong);
    }
    if is_blank(line) {
        return Ok(());
    }
    let op = line_op(alloc, line, scratch)?;
    push(trace, op)
}

fn push(trace: &mut Trace, op: Op) -> Result<(), LineCause>
    ensures ok { OnOk result (push_cause (pushed trace.old op) ≡ Ok trace.new) }
    ensures fault { IfErr result
        (λ e. e ≢ LineCause.Memory → push_cause (pushed trace.old op) ≡ Err e) }
{
    match trace.push(op) {
        Ok(()) => Ok(()),
        Err(TraceFault::IdTaken) => Err(LineCause::IdTaken),
        Err(TraceFault::TooMany) => Err(LineCause::TooMany),
        Err(TraceFault::BadOp) => Err(LineCause::OutOfRange),
        Err(TraceFault::Memory) => Err(LineCause::Memory),
    }
}
