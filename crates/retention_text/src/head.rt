//! The lines of a picture before its nodes.
ghost use Rattle.std.specs.Prelude.{◌≡◌, ◌++◌, string_bytes, OnOk};
ghost use Rattle.retention_text.specs.Pictures.{head_text};

use crate::pieces::push_totals;
use retention_model::Totals;
use std::alloc::AllocError;

/// Adds them: what is left at the end, what the looks mean, and how nodes and edges are drawn.
pub fn push_head(text: &mut String, totals: Totals) -> Result<(), AllocError>
    ensures { OnOk result (string_bytes text.new ≡ string_bytes text.old ++ head_text totals) }
{
    text.push_str(
        "digraph heap {\n  graph [rankdir=LR ranksep=0.7 fontname=\"Helvetica\" fontsize=12 label=\"",
    )?;
    push_totals(text, totals)?;
    text.push_str("\\nfilled: leaked. bold: in its cycle. dashed: weak, or a husk.")?;
    text.push_str("\\n1/0: strong and weak count. .1 since 2: field 1, since operation 2.\"]\n")?;
    text.push_str(
        "  node [shape=box style=\"rounded,filled\" fillcolor=\"white\" fontname=\"Helvetica\"]\n",
    )?;
    text.push_str("  edge [fontname=\"Helvetica\" fontsize=10]\n")
}
