//! The text of `explain`: why objects are still there at the end of a trace.
ghost use Rattle.std.specs.Prelude.{◌≡◌, ◌++◌, ℕ, List, string_bytes, IfOk, OnOk};
ghost use Rattle.trace_types.specs.Trace.{IsTrace};
ghost use Rattle.retention_report.specs.Explained.{Explains, IsTold, IsSummary};
ghost use Rattle.retention_report.specs.Sources.{IsToldOf, AreLivesIn, AreMade};

use crate::answer::{Answer, no_object};
use crate::lines::{push_lines, push_totals_line};
use crate::lives::{first_unmade, lives_in};
use crate::told::Told;
use leak_report::Life;
use retention::{objects_of_note, tell};
use std::alloc::{AllocError, Global};
use trace_types::ops::Op;

/// What is told of the objects with these numbers, in their order; or where there are none of each cycle's least object and each husk, and
/// then the total. With lives, also each operation that changed what names an object, or what stands for it.
pub fn explain(
    alloc: Global,
    ops: &[Op],
    objects: &[u32],
    with_lives: bool,
) -> Result<Answer, AllocError>
    requires { IsTrace ops.now }
    ensures { IfOk result (λ a.
        Explains with_lives ops.now objects.now (string_bytes a.text) a.is_missing) }
{
    let story = tell(alloc, ops, with_lives)?;
    let lives = lives_in(alloc, &story)?;
    match first_unmade(lives.as_slice(), objects) {
        Some(object) => {
            let answer = no_object(alloc, object)?;
            Ok(answer)
        }
        None => {
            let mut told = Told::of(alloc, story, with_lives)?;
            let text = text_of(alloc, ops, lives.as_slice(), &mut told, objects, with_lives)?;
            Ok(Answer {
                text,
                is_missing: false,
            })
        }
    }
}

// The text, where each of the objects was made.
fn text_of(
    alloc: Global,
    ops: &[Op],
    lives: &[Life],
    told: &mut Told,
    objects: &[u32],
    with_lives: bool,
) -> Result<String, AllocError>
    requires told { IsToldOf with_lives ops.now told.old }
    requires lives { AreLivesIn ops.now lives.now }
    requires made { AreMade ops.now objects.now }
    ensures { IfOk result (λ s. IsTold with_lives ops.now objects.now (string_bytes s)) }
{
    let mut text = String::new(alloc);
    if objects.is_empty() {
        push_summary(&mut text, alloc, ops, lives, told, with_lives)?;
        return Ok(text);
    }
    push_lines(&mut text, alloc, ops, lives, told, objects, with_lives)?;
    Ok(text)
}

// Adds what is told where no object is given.
fn push_summary(
    text: &mut String,
    alloc: Global,
    ops: &[Op],
    lives: &[Life],
    told: &mut Told,
    with_lives: bool,
) -> Result<(), AllocError>
    requires told { IsToldOf with_lives ops.now told.old }
    requires lives { AreLivesIn ops.now lives.now }
    ensures { OnOk result ((piece : List ℕ) × IsSummary with_lives ops.now piece
        × (string_bytes text.new ≡ string_bytes text.old ++ piece)) }
{
    let noted = objects_of_note(alloc, &told.end)?;
    push_lines(text, alloc, ops, lives, told, &noted, with_lives)?;
    push_totals_line(text, ops, told, with_lives)?;
    Ok(())
}
