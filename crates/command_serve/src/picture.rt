//! The command `picture`: a trace in, and its end as a graph in DOT out.
ghost use Rattle.std.specs.Prelude.{IfOk};
ghost use Rattle.retention_report.specs.Pictured.{Pictures};
ghost use Rattle.command_serve.specs.Serve.{Serves};
ghost use Rattle.command_serve.specs.Picture.{IsPictureDue};

use crate::due::{Due, fault_due};
use crate::exits::Exit;
use crate::serve::{Answers, serve};
use retention_report::picture;
use std::alloc::{AllocError, Global};
use trace_reader::read_trace;
use trace_types::devices::{Sink, Source};
use trace_types::trace::Trace;

/// Reads a trace, and writes as a graph in DOT the objects with these numbers and what leads to them; where there are no numbers, what leaked
/// and the husks; with all, every object. A number of which there is no object at the end gives a line that says so and exit Trace, and a
/// faulty line the line of the first fault.
pub fn serve_picture<S: Source, K: Sink>(
    alloc: Global,
    source: &mut S,
    sink: &mut K,
    objects: &[u32],
    with_all: bool,
) -> Exit
    ensures { Serves (IsPictureDue objects.now with_all)
        S.Source source.old source.new K.Sink sink.old sink.new result }
{
    let asked = Picturing { objects, with_all };
    serve(&asked, alloc, source, sink)
}

// What is asked of a trace.
#[derive(Drop)]
struct Picturing<'a> {
    objects: &'a [u32],
    with_all: bool,
}

impl Answers for Picturing<'_> {
    ghost use Rattle.command_serve.specs.Picture.{IsPictureDue};

    ghost IsDue = { λ asked. IsPictureDue asked.objects.now asked.with_all };

    fn answer(&self, alloc: Global, input: Vec<u8>) -> Result<Due, AllocError> {
        picture_due(alloc, input, self.objects, self.with_all)
    }
}

fn picture_due(
    alloc: Global,
    input: Vec<u8>,
    objects: &[u32],
    with_all: bool,
) -> Result<Due, AllocError>
    ensures { IfOk result (IsPictureDue objects.now with_all input.items) }
{
    match read_trace(alloc, &input) {
        Ok(trace) => {
            drop(input);
            told(alloc, &trace, objects, with_all)
        }
        Err(fault) => fault_due(alloc, &fault),
    }
}

// What is drawn of a trace.
fn told(alloc: Global, trace: &Trace, objects: &[u32], with_all: bool) -> Result<Due, AllocError>
    ensures { IfOk result (λ due. Pictures with_all trace.now objects.now due.text due.is_fault) }
{
    let answer = picture(alloc, trace.as_slice(), objects, with_all)?;
    Ok(Due::of_answer(answer))
}
