//! The lines of a life: what each operation did to an object.
ghost use Rattle.std.specs.Prelude.{◌≡◌, ◌++◌, string_bytes, slice_get, OnOk};
ghost use Rattle.std.specs.Option.{option_copied};
ghost use Rattle.retention_text.specs.Turns.{mark_text, event_text, head_text, line_head, line_start, line_end, life_lines, weak_text};
ghost use Rattle.retention_text.specs.Turns as definition;
ghost use Rattle.retention_text.specs.Pieces.{place_text};

use crate::pieces::push_place;
use retention_model::{Mark, Marked, Place};
use std::alloc::AllocError;
use text_pieces::{push_labelled, push_name};
use trace_types::ops::Op;
use trace_types::outcomes::Event;

/// Adds the lines of a life, by its marks: those of one operation stand in one line.
pub fn push_life(text: &mut String, ops: &[Op], life: &[Marked]) -> Result<(), AllocError>
    ensures { OnOk result
        (string_bytes text.new ≡ string_bytes text.old ++ life_lines ops.now life.now) }
{
    let mut last = None;
    for marked in life {
        push_start(text, ops, last, marked)?;
        push_mark(text, marked.mark)?;
        last = Some(marked.position);
    }
    push_end(text, last)
}

// Begins a line, where the mark is the first of its operation.
fn push_start(
    text: &mut String,
    ops: &[Op],
    last: Option<usize>,
    marked: &Marked,
) -> Result<(), AllocError>
    ensures { OnOk result
        (string_bytes text.new ≡ string_bytes text.old ++ line_start ops.now last marked.now) }
{
    if is_at(last, marked.position) {
        return Ok(());
    }
    push_end(text, last)?;
    push_line_head(text, ops, marked)?;
    Ok(())
}

// Begins the line of the operation that left a mark.
fn push_line_head(text: &mut String, ops: &[Op], marked: &Marked) -> Result<(), AllocError>
    ensures { OnOk result (string_bytes text.new ≡ string_bytes text.old
        ++ line_head (slice_get ops.now marked.now.position) marked.now) }
{
    match op_at(ops, marked.position) {
        Some(op) => push_head(text, op, marked),
        None => Ok(()),
    }
}

fn op_at(ops: &[Op], position: usize) -> Option<&Op>
    ensures { option_copied result ≡ slice_get ops.now position }
{
    ops.get(position)
}

// Whether the last mark was one of the operation at this position.
fn is_at(last: Option<usize>, position: usize) -> bool
    ensures { result ≡ definition.is_at last position }
{
    match last {
        Some(last) => last == position,
        None => false,
    }
}

// Ends the line of an operation, if one was begun.
fn push_end(text: &mut String, last: Option<usize>) -> Result<(), AllocError>
    ensures { OnOk result (string_bytes text.new ≡ string_bytes text.old ++ line_end last) }
{
    if last.is_some() {
        text.push('\n')?;
    }
    Ok(())
}

fn push_head(text: &mut String, op: &Op, marked: &Marked) -> Result<(), AllocError>
    ensures { OnOk result
        (string_bytes text.new ≡ string_bytes text.old ++ head_text op.now marked.now) }
{
    push_labelled(text, "  ", op.id() as u64)?;
    text.push_str(" ")?;
    push_name(text, op.kind().name())?;
    push_labelled(text, " ", marked.strong)?;
    push_labelled(text, "/", marked.weak)?;
    Ok(())
}

fn push_mark(text: &mut String, mark: Mark) -> Result<(), AllocError>
    ensures { OnOk result (string_bytes text.new ≡ string_bytes text.old ++ mark_text mark) }
{
    match mark {
        Mark::Lost(place, is_weak) => {
            text.push_str(" -")?;
            push_slot_place(text, place, is_weak)
        }
        Mark::Gained(place, is_weak) => {
            text.push_str(" +")?;
            push_slot_place(text, place, is_weak)
        }
        Mark::Ended(event) => push_event(text, event),
    }
}

fn push_slot_place(text: &mut String, place: Place, is_weak: bool) -> Result<(), AllocError>
    ensures { OnOk result
        (string_bytes text.new ≡ string_bytes text.old ++ (weak_text is_weak ++ place_text place)) }
{
    if is_weak {
        text.push_str("weak ")?;
    }
    push_place(text, place)
}

fn push_event(text: &mut String, event: Event) -> Result<(), AllocError>
    ensures { OnOk result (string_bytes text.new ≡ string_bytes text.old ++ event_text event) }
{
    match event {
        Event::Destroyed(_) => text.push_str(" destroyed"),
        Event::Unwrapped(_) => text.push_str(" unwrapped"),
        Event::Moved(_) => text.push_str(" moved"),
        Event::Freed(_) => text.push_str(" freed"),
    }
}
