//! The edges of a picture: the slots that name a shown object.
ghost use Rattle.std.specs.Prelude.{◌≡◌, ◌++◌, string_bytes, OnOk};
ghost use Rattle.retention_text.specs.Pictures.{node_text, index_text, label_text, line_text, edge_text};

use retention_model::{Held, Place};
use std::alloc::AllocError;
use text_pieces::push_labelled;

/// Adds a slot and the object that it names: dashed where it is a `Weak`, bold where it is in a cycle.
pub fn push_slot(
    text: &mut String,
    held: Held,
    object: u32,
    is_weak: bool,
    is_in_cycle: bool,
) -> Result<(), AllocError>
    ensures { OnOk result (string_bytes text.new ≡ string_bytes text.old
        ++ edge_text held.place object held.since is_weak is_in_cycle) }
{
    push_end(text, held.place)?;
    push_labelled(text, " -> o", object as u64)?;
    push_label(text, held)?;
    push_line(text, is_weak, is_in_cycle)?;
    text.push_str("]\n")
}

// Which field a slot is, and since when.
fn push_label(text: &mut String, held: Held) -> Result<(), AllocError>
    ensures { OnOk result
        (string_bytes text.new ≡ string_bytes text.old ++ label_text held.place held.since) }
{
    text.push_str(" [label=\"")?;
    push_index(text, held.place)?;
    push_labelled(text, "since ", held.since as u64)?;
    text.push('"')?;
    Ok(())
}

// How the line is drawn, where it is not plain.
fn push_line(text: &mut String, is_weak: bool, is_in_cycle: bool) -> Result<(), AllocError>
    ensures { OnOk result
        (string_bytes text.new ≡ string_bytes text.old ++ line_text is_weak is_in_cycle) }
{
    match (is_weak, is_in_cycle) {
        (true, _) => text.push_str(" style=dashed color=\"#0072b2\""),
        (false, true) => text.push_str(" penwidth=2.5 color=\"#c0392b\""),
        (false, false) => Ok(()),
    }
}

// The node that a slot stands in.
fn push_end(text: &mut String, place: Place) -> Result<(), AllocError>
    ensures { OnOk result (string_bytes text.new ≡ string_bytes text.old ++ node_text place) }
{
    match place {
        Place::Handle(handle, _) => push_labelled(text, "  h", handle as u64),
        Place::Cell(cell) => push_labelled(text, "  c", cell as u64),
        Place::Field(object, _) => push_labelled(text, "  o", object as u64),
    }
}

// Which field it is, where it is one.
fn push_index(text: &mut String, place: Place) -> Result<(), AllocError>
    ensures { OnOk result (string_bytes text.new ≡ string_bytes text.old ++ index_text place) }
{
    match place {
        Place::Handle(_, Some(index)) | Place::Field(_, index) => {
            push_labelled(text, ".", index as u64)?;
            text.push(' ')?;
            Ok(())
        }
        Place::Handle(_, None) | Place::Cell(_) => Ok(()),
    }
}
