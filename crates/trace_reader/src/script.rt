//! A trace with the requests that follow it.
ghost use Rattle.std.specs.Prelude.{◌≡◌, ◌≢◌, ◌<◌, ◌≤◌, ◌+◌, ◌^◌, [], length, true, false, Ok, Err, IfOk, IfErr, OnOk};
ghost use Rattle.trace_reader.specs.Reading.{lines_of, IsReadUpTo};
ghost use Rattle.trace_reader.specs.Scripts.{is_divider, joined, after_request, after_requests};
ghost use Rattle.trace_reader.specs.Scripts as Scripts;

use crate::fault::{LineCause, LineFault};
use crate::line_scratch::LineScratch;
use crate::lines::{cut_line, is_blank, json};
use crate::request::{RequestLine, read_request};
use crate::trace::read_line;
use std::alloc::Global;
use trace_types::limits::MAX_LINE;
use trace_types::sequence::Sequence;
use trace_types::trace::Trace;

/// A trace, and the requests that follow it, in order.
#[derive(Drop)]
pub struct Script {
    pub trace: Trace,
    pub requests: Sequence<RequestLine>,
}

/// The trace and the requests that a text is, or its first fault.
///
/// Lines of a trace come first, then a line that is exactly `--`, and lines of requests; lines are counted on. Without `--`
/// there are no requests. Where a request is to be `lone`, the fault of another one that has none of its own is
/// `TooMany`.
pub fn read_script(alloc: Global, bytes: &[u8], lone: bool) -> Result<Script, LineFault>
    ensures ok { IfOk result (λ script. Scripts.read_script lone bytes.now ≡ Ok script) }
    ensures fault { IfErr result
        (λ e. e.cause ≢ LineCause.Memory → Scripts.read_script lone bytes.now ≡ Err e) }
    // Where memory runs out, no line before was faulty.
    ensures memory { IfErr result (λ e. IsReadUpTo e.line (Scripts.read_script lone bytes.now)) }
    ensures line { IfErr result (λ e. (1 ≤ e.line) × (e.line ≤ length (lines_of bytes.now))) }
{
    let mut trace = Trace::new(alloc);
    let mut scratch = LineScratch::new(alloc);
    let mut rest = bytes;
    let mut number = 1;
    'lines: loop {
        let (line, more) = cut_line(rest);
        if is_divider(line) {
            let Some(next) = more else {
                let requests = Sequence::empty(alloc);
                return Ok(Script { trace, requests });
            };
            let requests = read_requests(alloc, next, number + 1, lone)?;
            return Ok(Script { trace, requests });
        }
        if let Err(cause) = read_line(alloc, line, &mut trace, &mut scratch) {
            return Err(LineFault {
                line: number,
                cause,
            });
        }
        let Some(next) = more else {
            let requests = Sequence::empty(alloc);
            return Ok(Script { trace, requests });
        };
        rest = next;
        number += 1;
    }
}

// The requests of these lines, the first of which has number `first`.
fn read_requests(
    alloc: Global,
    bytes: &[u8],
    first: usize,
    lone: bool,
) -> Result<Sequence<RequestLine>, LineFault>
    requires { first + length bytes.now < 2 ^ 64 }
    ensures ok { IfOk result
        (λ requests. after_requests lone [] first (lines_of bytes.now) ≡ Ok requests) }
    ensures fault { IfErr result (λ e. e.cause ≢ LineCause.Memory
        → after_requests lone [] first (lines_of bytes.now) ≡ Err e) }
    ensures memory { IfErr result
        (λ e. IsReadUpTo e.line (after_requests lone [] first (lines_of bytes.now))) }
    ensures line { IfErr result
        (λ e. (first ≤ e.line) × (e.line < first + length (lines_of bytes.now))) }
{
    let mut requests = Sequence::empty(alloc);
    let mut rest = bytes;
    let mut number = first;
    'lines: loop {
        let (line, more) = cut_line(rest);
        if let Err(cause) = read_request_line(alloc, line, &mut requests, lone) {
            return Err(LineFault {
                line: number,
                cause,
            });
        }
        let Some(next) = more else {
            return Ok(requests);
        };
        rest = next;
        number += 1;
    }
}

// Adds the request of a line, if it has one.
#[tactic(auto, unfolding(crate::specs::Scripts::after_request))]
fn read_request_line(
    alloc: Global,
    line: &[u8],
    requests: &mut Sequence<RequestLine>,
    lone: bool,
) -> Result<(), LineCause>
    ensures ok { OnOk result (after_request lone requests.old line.now ≡ Ok requests.new) }
    ensures fault { IfErr result
        (λ e. e ≢ LineCause.Memory → after_request lone requests.old line.now ≡ Err e) }
{
    if line.len() > MAX_LINE {
        return Err(LineCause::LineTooLong);
    }
    if is_blank(line) {
        return Ok(());
    }
    let value = json(alloc, line)?;
    let request = read_request(alloc, &value)?;
    join(requests, request, lone)
}

fn join(
    requests: &mut Sequence<RequestLine>,
    request: RequestLine,
    lone: bool,
) -> Result<(), LineCause>
    ensures ok { OnOk result (joined lone requests.old request ≡ Ok requests.new) }
    ensures fault { IfErr result
        (λ e. e ≢ LineCause.Memory → joined lone requests.old request ≡ Err e) }
{
    if lone && requests.len() > 0 {
        return Err(LineCause::TooMany);
    }
    Ok(requests.push(request)?)
}

fn is_divider(line: &[u8]) -> bool
    ensures { result ≡ Scripts.is_divider line.now }
{
    line == b"--".as_slice()
}
