//! The names of the operations.
ghost use Rattle.std.specs.Prelude.{◌≡◌};
ghost use Rattle.trace_types.specs.Names.{name_of};
ghost use Rattle.trace_types.specs.Names as Names;

use crate::kinds::Kind;

/// The name of an operation, as a trace's line and a report write it.
#[derive(Clone, Copy, Debug, PartialEq, Eq)]
pub enum OpName {
    New,
    NewCyclic,
    NewFrom,
    WeakNew,
    Null,
    Clone,
    Drop,
    Downgrade,
    Upgrade,
    TryUnwrap,
    IntoInner,
    GetMut,
    MakeMut,
    Counts,
    PtrEq,
    Set,
    Take,
    Get,
    CellNew,
    CellLoad,
    CellSwap,
    CellCas,
    CellDrop,
    ScopeEnd,
}

/// The operation that is written so, if one is.
#[tactic(auto, unfolding(crate::specs::Names::name_of))]
pub fn read_name(text: &str) -> Option<OpName>
    ensures { result ≡ name_of text.now }
{
    match text {
        "new" => Some(OpName::New),
        "new_cyclic" => Some(OpName::NewCyclic),
        "new_from" => Some(OpName::NewFrom),
        "weak_new" => Some(OpName::WeakNew),
        "null" => Some(OpName::Null),
        "clone" => Some(OpName::Clone),
        "drop" => Some(OpName::Drop),
        "downgrade" => Some(OpName::Downgrade),
        "upgrade" => Some(OpName::Upgrade),
        "try_unwrap" => Some(OpName::TryUnwrap),
        "into_inner" => Some(OpName::IntoInner),
        "get_mut" => Some(OpName::GetMut),
        "make_mut" => Some(OpName::MakeMut),
        "counts" => Some(OpName::Counts),
        "ptr_eq" => Some(OpName::PtrEq),
        "set" => Some(OpName::Set),
        "take" => Some(OpName::Take),
        "get" => Some(OpName::Get),
        "cell_new" => Some(OpName::CellNew),
        "cell_load" => Some(OpName::CellLoad),
        "cell_swap" => Some(OpName::CellSwap),
        "cell_cas" => Some(OpName::CellCas),
        "cell_drop" => Some(OpName::CellDrop),
        "scope_end" => Some(OpName::ScopeEnd),
        _ => None,
    }
}

impl Kind {
    /// The operation's name.
    pub fn name(&self) -> OpName
        ensures { result ≡ Names.name_of_kind self.now }
    {
        match self {
            Kind::New { .. } => OpName::New,
            Kind::NewCyclic { .. } => OpName::NewCyclic,
            Kind::NewFrom { .. } => OpName::NewFrom,
            Kind::WeakNew { .. } => OpName::WeakNew,
            Kind::Null { .. } => OpName::Null,
            Kind::Clone { .. } => OpName::Clone,
            Kind::Drop { .. } => OpName::Drop,
            Kind::Downgrade { .. } => OpName::Downgrade,
            Kind::Upgrade { .. } => OpName::Upgrade,
            Kind::TryUnwrap { .. } => OpName::TryUnwrap,
            Kind::IntoInner { .. } => OpName::IntoInner,
            Kind::GetMut { .. } => OpName::GetMut,
            Kind::MakeMut { .. } => OpName::MakeMut,
            Kind::Counts { .. } => OpName::Counts,
            Kind::PtrEq { .. } => OpName::PtrEq,
            Kind::Set { .. } => OpName::Set,
            Kind::Take { .. } => OpName::Take,
            Kind::Get { .. } => OpName::Get,
            Kind::CellNew { .. } => OpName::CellNew,
            Kind::CellLoad { .. } => OpName::CellLoad,
            Kind::CellSwap { .. } => OpName::CellSwap,
            Kind::CellCas { .. } => OpName::CellCas,
            Kind::CellDrop { .. } => OpName::CellDrop,
            Kind::ScopeEnd => OpName::ScopeEnd,
        }
    }
}
