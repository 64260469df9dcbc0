//! The names of the operations.
ghost use Rattle.std.specs.Prelude.{◌≡◌, string_bytes, OnOk, OnErr};
ghost use Rattle.text_pieces.specs.Pieces.{Adds};
ghost use Rattle.trace_types.specs.Names.{name_text};

use std::alloc::AllocError;
use trace_types::names::OpName;

/// Adds the name of an operation, as a trace's line and a report write it. May take memory for the text.
// Each name is added where it is known, so that its bytes are stored at once; a text of any length is copied by a call.
pub fn push_name(text: &mut String, name: OpName) -> Result<(), AllocError>
    ensures name { OnOk result (Adds text.old text.new (name_text name)) }
    ensures unchanged { OnErr result (string_bytes text.new ≡ string_bytes text.old) }
{
    match name {
        OpName::New => text.push_str("new"),
        OpName::NewCyclic => text.push_str("new_cyclic"),
        OpName::NewFrom => text.push_str("new_from"),
        OpName::WeakNew => text.push_str("weak_new"),
        OpName::Null => text.push_str("null"),
        OpName::Clone => text.push_str("clone"),
        OpName::Drop => text.push_str("drop"),
        OpName::Downgrade => text.push_str("downgrade"),
        OpName::Upgrade => text.push_str("upgrade"),
        OpName::TryUnwrap => text.push_str("try_unwrap"),
        OpName::IntoInner => text.push_str("into_inner"),
        OpName::GetMut => text.push_str("get_mut"),
        OpName::MakeMut => text.push_str("make_mut"),
        OpName::Counts => text.push_str("counts"),
        OpName::PtrEq => text.push_str("ptr_eq"),
        OpName::Set => text.push_str("set"),
        OpName::Take => text.push_str("take"),
        OpName::Get => text.push_str("get"),
        OpName::CellNew => text.push_str("cell_new"),
        OpName::CellLoad => text.push_str("cell_load"),
        OpName::CellSwap => text.push_str("cell_swap"),
        OpName::CellCas => text.push_str("cell_cas"),
        OpName::CellDrop => text.push_str("cell_drop"),
        OpName::ScopeEnd => text.push_str("scope_end"),
    }
}
