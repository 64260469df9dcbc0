//! Pieces of lines: places, and totals.
ghost use Rattle.std.specs.Prelude.{◌≡◌, ◌++◌, string_bytes, OnOk};
ghost use Rattle.retention_text.specs.Pieces.{place_text, index_text, held_text, totals_text};

use retention_model::{Held, Place, Totals};
use std::alloc::AllocError;
use text_pieces::push_labelled;

/// Adds a place by its kind and numbers: `handle 3`, `handle 3.1`, `cell 0`, `field 5.0`.
pub fn push_place(text: &mut String, place: Place) -> Result<(), AllocError>
    ensures { OnOk result (string_bytes text.new ≡ string_bytes text.old ++ place_text place) }
{
    match place {
        Place::Handle(handle, field) => {
            push_labelled(text, "handle ", handle as u64)?;
            push_index(text, field)
        }
        Place::Cell(cell) => push_labelled(text, "cell ", cell as u64),
        Place::Field(object, index) => {
            push_labelled(text, "field ", object as u64)?;
            push_labelled(text, ".", index as u64)
        }
    }
}

fn push_index(text: &mut String, field: Option<u32>) -> Result<(), AllocError>
    ensures { OnOk result (string_bytes text.new ≡ string_bytes text.old ++ index_text field) }
{
    match field {
        Some(index) => push_labelled(text, ".", index as u64),
        None => Ok(()),
    }
}

/// Adds a place and since when it holds what it does, behind a label.
pub fn push_held(text: &mut String, label: &str, held: Held) -> Result<(), AllocError>
    ensures { OnOk result
        (string_bytes text.new ≡ string_bytes text.old ++ held_text label.now held) }
{
    text.push_str(label)?;
    push_place(text, held.place)?;
    push_labelled(text, " since ", held.since as u64)?;
    text.push('\n')?;
    Ok(())
}

/// Adds how many objects leaked, how many cycles they form and how many husks are left: `total 2 leaks 1 cycles 0 husks`.
pub fn push_totals(text: &mut String, totals: Totals) -> Result<(), AllocError>
    ensures { OnOk result (string_bytes text.new ≡ string_bytes text.old ++ totals_text totals) }
{
    push_labelled(text, "total ", totals.leaks as u64)?;
    push_labelled(text, " leaks ", totals.cycles as u64)?;
    push_labelled(text, " cycles ", totals.husks as u64)?;
    text.push_str(" husks")
}
