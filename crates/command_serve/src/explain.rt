//! The command `explain`: a trace in, and why its objects are still there out.
ghost use Rattle.std.specs.Prelude.{IfOk};
ghost use Rattle.retention_report.specs.Explained.{Explains};
ghost use Rattle.command_serve.specs.Serve.{Serves};
ghost use Rattle.command_serve.specs.Explain.{IsExplainDue};

use crate::due::{Due, fault_due};
use crate::exits::Exit;
use crate::serve::{Answers, serve};
use retention_report::explain;
use std::alloc::{AllocError, Global};
use trace_reader::read_trace;
use trace_types::devices::{Sink, Source};
use trace_types::trace::Trace;

/// Reads a trace, and writes why the objects with these numbers are there at its end; where there are no numbers, of each cycle the least
/// object and each husk, and then the total. With lives it also writes what each operation did to them. A number with which no object was
/// made gives a line that says so and exit Trace, and a faulty line the line of the first fault.
pub fn serve_explain<S: Source, K: Sink>(
    alloc: Global,
    source: &mut S,
    sink: &mut K,
    objects: &[u32],
    with_lives: bool,
) -> Exit
    ensures { Serves (IsExplainDue objects.now with_lives)
        S.Source source.old source.new K.Sink sink.old sink.new result }
{
    let asked = Explaining {
        objects,
        with_lives,
    };
    serve(&asked, alloc, source, sink)
}

// What is asked of a trace.
#[derive(Drop)]
struct Explaining<'a> {
    objects: &'a [u32],
    with_lives: bool,
}

impl Answers for Explaining<'_> {
    ghost use Rattle.command_serve.specs.Explain.{IsExplainDue};

    ghost IsDue = { λ asked. IsExplainDue asked.objects.now asked.with_lives };

    fn answer(&self, alloc: Global, input: Vec<u8>) -> Result<Due, AllocError> {
        explain_due(alloc, input, self.objects, self.with_lives)
    }
}

fn explain_due(
    alloc: Global,
    input: Vec<u8>,
    objects: &[u32],
    with_lives: bool,
) -> Result<Due, AllocError>
    ensures { IfOk result (IsExplainDue objects.now with_lives input.items) }
{
    match read_trace(alloc, &input) {
        Ok(trace) => {
            drop(input);
            told(alloc, &trace, objects, with_lives)
        }
        Err(fault) => fault_due(alloc, &fault),
    }
}

// What is told of a trace.
fn told(alloc: Global, trace: &Trace, objects: &[u32], with_lives: bool) -> Result<Due, AllocError>
    ensures { IfOk result (λ due. Explains with_lives trace.now objects.now due.text due.is_fault) }
{
    let answer = explain(alloc, trace.as_slice(), objects, with_lives)?;
    Ok(Due::of_answer(answer))
}
