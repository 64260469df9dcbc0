//! The canonical lines of operations: member names in the order of their bytes, no spaces.
ghost use Rattle.std.specs.Prelude.{◌≡◌, List, Some, Ok, IfOk, OnOk, IsTrue, false, codes, decimal, string_bytes};
ghost use Rattle.std.specs.Option.{option_map};
ghost use Rattle.std.specs.List.{list_all};
ghost use Rattle.serde_json.specs.Written.{comma_if};
ghost use Rattle.text_pieces.specs.Pieces.{Adds};
ghost use Rattle.trace_types.specs.Limits.{is_within_limits};
ghost use Rattle.trace_types.specs.Operation.{Operation};
ghost use Rattle.trace_types.specs.Trace.{IsTrace};
ghost use Rattle.trace_reader.specs.Reading.{read_trace};
ghost use Rattle.trace_reader.specs.Writing.{line_of, lines_text, op_of_line};
ghost use Rattle.trace_reader.specs.LineText.{text_ahead, field_text, elements_text, fields_text, to_text, text_before, text_after, text_between, line_text};

use std::alloc::{AllocError, Global};
use text_pieces::{push_decimal, push_labelled, push_name};
use trace_types::kinds::{Field, Kind};
use trace_types::ops::Op;
use trace_types::trace::Trace;

/// The canonical line of an operation, without its newline.
pub fn write_line(alloc: Global, op: &Op) -> Result<String, AllocError>
    ensures line { IfOk result (λ line. string_bytes line ≡ line_of op.now) }
    ensures reads_back { IfOk result (λ line. op_of_line (string_bytes line) ≡ Ok op.now) }
{
    line(alloc, op)
}

/// The canonical lines of a trace, each with its newline.
pub fn write_trace(alloc: Global, trace: &Trace) -> Result<Vec<u8>, AllocError>
    ensures lines { IfOk result (λ text. text.items ≡ lines_text trace.now) }
    ensures reads_back { IfOk result (λ text. read_trace text.items ≡ Ok trace.now) }
{
    lines(alloc, trace.as_slice())
}

/// The canonical lines of operations, each with its newline: of operations that a caller has without a trace.
pub fn write_ops(alloc: Global, ops: &[Op]) -> Result<Vec<u8>, AllocError>
    ensures lines { IfOk result (λ text. text.items ≡ lines_text ops.now) }
    ensures within { IfOk result (λ _. IsTrue (list_all is_within_limits ops.now)) }
{
    lines(alloc, ops)
}

/// The canonical lines of a trace read as the trace.
pub fn lines_read_back()
    ensures { (ops : List Operation) → IsTrace ops → IsTrue (list_all is_within_limits ops)
        → read_trace (lines_text ops) ≡ Ok ops }
{}

fn line(alloc: Global, op: &Op) -> Result<String, AllocError>
    ensures { IfOk result
        (λ line. (string_bytes line ≡ line_of op.now) × IsTrue (is_within_limits op.now)) }
{
    let mut line = String::new(alloc);
    push_line(&mut line, op)?;
    Ok(line)
}

fn lines(alloc: Global, ops: &[Op]) -> Result<Vec<u8>, AllocError>
    ensures { IfOk result
        (λ text. (text.items ≡ lines_text ops.now) × IsTrue (list_all is_within_limits ops.now)) }
{
    let mut text = String::new(alloc);
    for op in ops {
        push_line(&mut text, op)?;
        text.push('\n')?;
    }
    Ok(text.into_bytes())
}

#[tactic(auto, using(crate::proofs::LinePieces::line_text_is))]
fn push_line(text: &mut String, op: &Op) -> Result<(), AllocError>
    ensures line { OnOk result (Adds text.old text.new (line_of op.now)) }
    ensures within { OnOk result (IsTrue (is_within_limits op.now)) }
{
    push_pieces(text, op)?;
    Ok(())
}

#[tactic(auto, unfolding(crate::specs::LineText::line_text))]
fn push_pieces(text: &mut String, op: &Op) -> Result<(), AllocError>
    ensures line { OnOk result (Adds text.old text.new (line_text op.now)) }
    ensures within { OnOk result (IsTrue (is_within_limits op.now)) }
{
    text.push('{')?;
    push_before(text, op.kind())?;
    push_between(text, op)?;
    push_after(text, op.kind())?;
    text.push('}')?;
    Ok(())
}

// The members of every operation.
fn push_between(text: &mut String, op: &Op) -> Result<(), AllocError>
    ensures text { OnOk result (Adds text.old text.new (text_between op.now)) }
    ensures within { OnOk result (IsTrue (is_within_limits op.now)) }
{
    push_labelled(text, "\"id\":", op.id() as u64)?;
    text.push_str(",\"op\":\"")?;
    push_name(text, op.kind().name())?;
    push_labelled(text, "\",\"t\":", op.thread() as u64)
}

// The members whose names come before `id`.
fn push_before(text: &mut String, kind: &Kind) -> Result<(), AllocError>
    ensures { OnOk result (Adds text.old text.new (text_before kind.now)) }
{
    match kind {
        Kind::New { fields, .. } | Kind::NewCyclic { fields, .. } => {
            push_fields(text, fields.as_slice())
        }
        Kind::NewFrom { from, .. }
        | Kind::Clone { from, .. }
        | Kind::Downgrade { from, .. }
        | Kind::Upgrade { from, .. } => push_number(text, "from", *from),
        Kind::Drop { h }
        | Kind::TryUnwrap { h }
        | Kind::IntoInner { h }
        | Kind::GetMut { h }
        | Kind::MakeMut { h }
        | Kind::Counts { h } => push_number(text, "h", *h),
        Kind::PtrEq { a, b } => {
            push_number(text, "a", *a)?;
            push_number(text, "b", *b)
        }
        Kind::Set { from, h, i } => {
            push_number(text, "from", *from)?;
            push_number(text, "h", *h)?;
            push_number(text, "i", *i)
        }
        Kind::Take { h, i, .. } | Kind::Get { h, i, .. } => {
            push_number(text, "h", *h)?;
            push_number(text, "i", *i)
        }
        Kind::CellNew { c, from } | Kind::CellSwap { c, from, .. } => {
            push_number(text, "c", *c)?;
            push_number(text, "from", *from)
        }
        Kind::CellLoad { c, .. } | Kind::CellDrop { c } => push_number(text, "c", *c),
        Kind::CellCas {
            c,
            desired,
            expected,
        } => {
            push_number(text, "c", *c)?;
            push_number(text, "desired", *desired)?;
            push_number(text, "expected", *expected)
        }
        Kind::WeakNew { .. } | Kind::Null { .. } | Kind::ScopeEnd => Ok(()),
    }
}

// The members whose names come after `t`.
fn push_after(text: &mut String, kind: &Kind) -> Result<(), AllocError>
    ensures { OnOk result (Adds text.old text.new (text_after kind.now)) }
{
    match kind {
        Kind::New { to, .. }
        | Kind::NewCyclic { to, .. }
        | Kind::NewFrom { to, .. }
        | Kind::WeakNew { to }
        | Kind::Null { to }
        | Kind::Clone { to, .. }
        | Kind::Downgrade { to, .. }
        | Kind::Upgrade { to, .. }
        | Kind::Take { to, .. }
        | Kind::Get { to, .. }
        | Kind::CellLoad { to, .. } => push_to(text, *to),
        Kind::CellSwap { to, .. } => push_perhaps_to(text, *to),
        Kind::Drop { .. }
        | Kind::TryUnwrap { .. }
        | Kind::IntoInner { .. }
        | Kind::GetMut { .. }
        | Kind::MakeMut { .. }
        | Kind::Counts { .. }
        | Kind::PtrEq { .. }
        | Kind::Set { .. }
        | Kind::CellNew { .. }
        | Kind::CellCas { .. }
        | Kind::CellDrop { .. }
        | Kind::ScopeEnd => Ok(()),
    }
}

#[tactic(auto, unfolding(crate::specs::LineText::text_ahead))]
fn push_number(text: &mut String, name: &str, n: u32) -> Result<(), AllocError>
    ensures { OnOk result (Adds text.old text.new (text_ahead name.now (decimal n))) }
{
    text.push('"')?;
    text.push_str(name)?;
    push_labelled(text, "\":", n as u64)?;
    text.push(',')?;
    Ok(())
}

fn push_to(text: &mut String, to: u32) -> Result<(), AllocError>
    ensures { OnOk result (Adds text.old text.new (to_text (Some (decimal to)))) }
{
    push_labelled(text, ",\"to\":", to as u64)
}

fn push_perhaps_to(text: &mut String, to: Option<u32>) -> Result<(), AllocError>
    ensures { OnOk result (Adds text.old text.new (to_text (option_map decimal to))) }
{
    match to {
        Some(to) => push_to(text, to),
        None => Ok(()),
    }
}

#[tactic(auto, unfolding(crate::specs::LineText::text_ahead))]
fn push_fields(text: &mut String, fields: &[Field]) -> Result<(), AllocError>
    ensures { OnOk result (Adds text.old text.new
        (text_ahead (codes "fields") (fields_text fields.now))) }
{
    text.push_str("\"fields\":[")?;
    push_elements(text, fields)?;
    text.push(',')?;
    Ok(())
}

// The elements, with the closing bracket.
fn push_elements(text: &mut String, fields: &[Field]) -> Result<(), AllocError>
    ensures { OnOk result (Adds text.old text.new (elements_text false fields.now)) }
{
    let mut later = false;
    for field in fields {
        push_comma_if(text, later)?;
        push_field(text, *field)?;
        later = true;
    }
    text.push(']')?;
    Ok(())
}

fn push_comma_if(text: &mut String, later: bool) -> Result<(), AllocError>
    ensures { OnOk result (Adds text.old text.new (comma_if later)) }
{
    if !later {
        return Ok(());
    }
    text.push(',')?;
    Ok(())
}

fn push_field(text: &mut String, field: Field) -> Result<(), AllocError>
    ensures { OnOk result (Adds text.old text.new (field_text field)) }
{
    match field {
        Field::Held(h) => push_handle(text, h),
        Field::Null => text.push_str("null"),
        Field::Me => text.push_str("\"me\""),
    }
}

fn push_handle(text: &mut String, h: u32) -> Result<(), AllocError>
    ensures { OnOk result (Adds text.old text.new (decimal h)) }
{
    push_decimal(text, h as u64)
}
