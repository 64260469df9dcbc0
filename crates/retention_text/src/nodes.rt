//! The nodes of a picture: handles, cells and objects.
ghost use Rattle.std.specs.Prelude.{◌≡◌, ◌++◌, [], string_bytes, if◌then◌else◌, OnOk};
ghost use Rattle.retention_text.specs.Pictures.{root_text, counts_text, look_text, object_text};

use retention_model::Place;
use std::alloc::AllocError;
use text_pieces::push_labelled;
use trace_types::outcomes::Counts;

/// Adds a handle or a cell.
pub fn push_root(text: &mut String, root: Place) -> Result<(), AllocError>
    ensures { OnOk result (string_bytes text.new ≡ string_bytes text.old ++ root_text root) }
{
    match root {
        Place::Handle(handle, _) => {
            push_labelled(text, "  h", handle as u64)?;
            push_labelled(text, " [label=\"handle ", handle as u64)?;
        }
        Place::Cell(cell) => {
            push_labelled(text, "  c", cell as u64)?;
            push_labelled(text, " [label=\"cell ", cell as u64)?;
        }
        Place::Field(_, _) => return Ok(()),
    }
    text.push_str("\" shape=plaintext]\n")
}

/// How an object is drawn.
#[derive(Clone, Copy, Debug)]
pub struct Look {
    /// It leaked.
    pub is_leaked: bool,
    /// Its value is gone.
    pub is_husk: bool,
    /// Its number was given.
    pub is_given: bool,
}

/// Adds an object, with its counts.
pub fn push_object(text: &mut String, counts: Counts, look: Look) -> Result<(), AllocError>
    ensures { OnOk result (string_bytes text.new ≡ string_bytes text.old
        ++ object_text counts.object counts.strong counts.weak look.is_leaked look.is_husk look.is_given) }
{
    push_counts(text, counts)?;
    push_look(text, look)?;
    text.push_str("]\n")
}

// Its number, and how many slots name it.
fn push_counts(text: &mut String, counts: Counts) -> Result<(), AllocError>
    ensures { OnOk result
        (string_bytes text.new ≡ string_bytes text.old
        ++ counts_text counts.object counts.strong counts.weak) }
{
    push_labelled(text, "  o", counts.object as u64)?;
    push_labelled(text, " [label=\"#", counts.object as u64)?;
    push_labelled(text, "\\n", counts.strong)?;
    push_labelled(text, "/", counts.weak)?;
    text.push_str("\"")?;
    Ok(())
}

fn push_look(text: &mut String, look: Look) -> Result<(), AllocError>
    ensures { OnOk result
        (string_bytes text.new ≡ string_bytes text.old
        ++ look_text look.is_leaked look.is_husk look.is_given) }
{
    push_if(text, look.is_leaked, " fillcolor=\"#f6b26b\"")?;
    push_if(text, look.is_husk, " style=\"rounded,dashed\"")?;
    push_if(text, look.is_given, " penwidth=3")?;
    Ok(())
}

fn push_if(text: &mut String, is_so: bool, piece: &str) -> Result<(), AllocError>
    ensures { OnOk result
        (string_bytes text.new ≡ string_bytes text.old ++ (if is_so then piece.now else [])) }
{
    if is_so { text.push_str(piece) } else { Ok(()) }
}
