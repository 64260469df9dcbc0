//! A request of a line: edits of one version of a trace.
ghost use Rattle.std.specs.Prelude.{◌≡◌, [], Some, IfOk};
ghost use Rattle.serde_json.specs.View.{view, items_view};
ghost use Rattle.trace_reader.specs.Members.{Gives};
ghost use Rattle.trace_reader.specs.Requests.{insert_at, remove_at, change_at, edit_named, members_of_edit, edit_of, edits_from, edits_at, op_at, members_of_request};
ghost use Rattle.trace_reader.specs.Requests as Requests;

use crate::fault::LineCause;
use crate::op::object_op;
use crate::values::{number, text};
use serde_json::Value;
use std::alloc::Global;
use trace_types::edits::{Batch, Edit};
use trace_types::limits::{MAX_ID, MAX_SESSION, MAX_VERSION};
use trace_types::ops::Op;
use trace_types::sequence::Sequence;

/// A request as a line has it: edits that session `session` (0 to `MAX_SESSION`) made for version `base` (0 to `MAX_VERSION`). How many
/// there are, and whether they can be made, is not asked yet.
#[derive(Debug, Drop)]
pub struct RequestLine {
    pub base: u32,
    pub session: u32,
    pub batch: Batch,
}

/// The request that a value is, or its first fault.
///
/// It is an object with the members `base`, `session` and `edits`, tried in this order as those of an operation. An
/// edit is an object with `edit`: `insert` with `after` (0 to `MAX_ID`) and `op`, `remove` with `id` (1 to
/// `MAX_ID`), or `change` with `id` and `op`; `op` is an operation as a trace's line has it.
#[tactic(auto, unfolding(crate::specs::Requests::read_request))]
pub fn read_request(alloc: Global, value: &Value) -> Result<RequestLine, LineCause>
    ensures { Gives result (Requests.read_request (view value.now)) }
{
    if !value.is_object() {
        return Err(LineCause::NotObject);
    }
    members_of_request(alloc, value)
}

#[tactic(auto, unfolding(crate::specs::Requests::members_of_request))]
fn members_of_request(alloc: Global, value: &Value) -> Result<RequestLine, LineCause>
    ensures { Gives result (Requests.members_of_request (view value.now)) }
{
    let base = number(value, "base", 0, MAX_VERSION)?;
    let session = number(value, "session", 0, MAX_SESSION)?;
    let batch = edits(alloc, value)?;
    Ok(RequestLine {
        base,
        session,
        batch,
    })
}

#[tactic(auto, unfolding(crate::specs::Requests::edits_at))]
fn edits(alloc: Global, value: &Value) -> Result<Batch, LineCause>
    ensures { Gives result (edits_at (view value.now)) }
{
    let Some(member) = value.get("edits") else {
        return Err(LineCause::Missing);
    };
    let Some(items) = member.as_array() else {
        return Err(LineCause::WrongType);
    };
    elements(alloc, items.as_slice())
}

fn elements(alloc: Global, items: &[Value]) -> Result<Batch, LineCause>
    ensures { Gives result (edits_from [] (items_view items.now)) }
{
    let mut edits = Sequence::empty(alloc);
    for item in items {
        let edit = edit(alloc, item)?;
        edits.push(edit)?;
    }
    Ok(edits)
}

#[tactic(auto, unfolding(crate::specs::Requests::edit_of))]
fn edit(alloc: Global, value: &Value) -> Result<Edit, LineCause>
    ensures { Gives result (edit_of (view value.now)) }
{
    if !value.is_object() {
        return Err(LineCause::WrongType);
    }
    members_of_edit(alloc, value)
}

#[tactic(auto, unfolding(crate::specs::Requests::members_of_edit))]
fn members_of_edit(alloc: Global, value: &Value) -> Result<Edit, LineCause>
    ensures { Gives result (Requests.members_of_edit (view value.now)) }
{
    let name = text(value, "edit")?;
    named(alloc, name, value)
}

#[tactic(auto, unfolding(crate::specs::Requests::edit_named))]
fn named(alloc: Global, name: &str, value: &Value) -> Result<Edit, LineCause>
    ensures { Gives result (edit_named name.now (view value.now)) }
{
    match name {
        "insert" => insert(alloc, value),
        "remove" => remove(value),
        "change" => change(alloc, value),
        _ => Err(LineCause::UnknownOp),
    }
}

#[tactic(auto, unfolding(crate::specs::Requests::insert_at))]
fn insert(alloc: Global, value: &Value) -> Result<Edit, LineCause>
    ensures { Gives result (insert_at (view value.now)) }
{
    let after = number(value, "after", 0, MAX_ID)?;
    let op = op(alloc, value)?;
    Ok(Edit::Insert { after, op })
}

#[tactic(auto, unfolding(crate::specs::Requests::remove_at))]
fn remove(value: &Value) -> Result<Edit, LineCause>
    ensures { Gives result (remove_at (view value.now)) }
{
    let id = number(value, "id", 1, MAX_ID)?;
    Ok(Edit::Remove { id })
}

#[tactic(auto, unfolding(crate::specs::Requests::change_at))]
fn change(alloc: Global, value: &Value) -> Result<Edit, LineCause>
    ensures { Gives result (change_at (view value.now)) }
{
    let id = number(value, "id", 1, MAX_ID)?;
    let op = op(alloc, value)?;
    Ok(Edit::Change { id, op })
}

// The operation of an edit.
#[tactic(auto, unfolding(crate::specs::Requests::op_at))]
fn op(alloc: Global, value: &Value) -> Result<Op, LineCause>
    ensures { Gives result (op_at (view value.now)) }
{
    let Some(member) = value.get("op") else {
        return Err(LineCause::Missing);
    };
    object_op(alloc, member, LineCause::WrongType)
}
