//! The limits of a trace and of all that is read, and the tests of an operation's members.
ghost use Rattle.std.specs.Prelude.{◌≡◌};
ghost use Rattle.std.specs.List.{list_all};
ghost use Rattle.trace_types.specs.Limits as Limits;

use crate::kinds::{Field, Kind};

/// The greatest number of a handle or a cell.
pub const MAX_NAME: u32 = 999_999;

/// The greatest number of an operation, and so of an object.
pub const MAX_ID: u32 = 999_999_999;

/// The greatest label of a thread.
pub const MAX_THREAD: u32 = 65_535;

/// How many fields a value may have.
pub const MAX_FIELDS: usize = 64;

/// The greatest number of a field; the first is 0.
pub const MAX_INDEX: u32 = MAX_FIELDS as u32 - 1;

/// How many operations a trace may have.
pub const MAX_OPS: usize = 1_000_000;

/// How many edits a batch may have.
pub const MAX_EDITS: usize = 64;

/// How many entries the history of a desk may have.
pub const MAX_ENTRIES: usize = 1_000_000;

/// The greatest version of a trace: one entry of the history makes at most one.
pub const MAX_VERSION: u32 = MAX_ENTRIES as u32;

/// The greatest number of a session; the first is 0.
pub const MAX_SESSION: u32 = 15;

/// How many workers may guess ahead; the fewest are 1.
pub const MAX_WORKERS: u32 = 16;

/// How many bytes a line may have, without its newline.
pub const MAX_LINE: usize = 4_096;

/// How many bytes an input may have.
pub const MAX_INPUT: usize = 1_000_000_000;

fn is_field(field: Field) -> bool
    ensures { result ≡ Limits.is_field field }
{
    match field {
        Field::Held(h) => is_name(h),
        Field::Null => true,
        Field::Me => false,
    }
}

fn is_cyclic_field(field: Field) -> bool
    ensures { result ≡ Limits.is_cyclic_field field }
{
    match field {
        Field::Held(h) => is_name(h),
        Field::Null | Field::Me => true,
    }
}

fn are_fields(fields: &[Field]) -> bool
    ensures { result ≡ list_all Limits.is_field fields.now }
{
    fields.iter().all(|field| is_field(*field))
}

fn are_cyclic_fields(fields: &[Field]) -> bool
    ensures { result ≡ list_all Limits.is_cyclic_field fields.now }
{
    fields.iter().all(|field| is_cyclic_field(*field))
}

fn is_name(h: u32) -> bool
    ensures { result ≡ Limits.is_name h }
{
    h <= MAX_NAME
}

fn is_index(i: u32) -> bool
    ensures { result ≡ Limits.is_index i }
{
    i <= MAX_INDEX
}

fn is_perhaps_name(h: Option<u32>) -> bool
    ensures { result ≡ Limits.is_perhaps_name h }
{
    match h {
        Some(h) => is_name(h),
        None => true,
    }
}

/// Whether all numbers of the members are within their limits, the fields are not too many, and `new` has no `Me`.
pub fn is_kind(kind: &Kind) -> bool
    ensures { result ≡ Limits.is_kind kind.now }
{
    match kind {
        Kind::New { to, fields } => {
            is_name(*to) && fields.len() <= MAX_FIELDS && are_fields(fields.as_slice())
        }
        Kind::NewCyclic { to, fields } => {
            is_name(*to) && fields.len() <= MAX_FIELDS && are_cyclic_fields(fields.as_slice())
        }
        Kind::NewFrom { from, to } => is_name(*from) && is_name(*to),
        Kind::WeakNew { to } => is_name(*to),
        Kind::Null { to } => is_name(*to),
        Kind::Clone { from, to } => is_name(*from) && is_name(*to),
        Kind::Drop { h } => is_name(*h),
        Kind::Downgrade { from, to } => is_name(*from) && is_name(*to),
        Kind::Upgrade { from, to } => is_name(*from) && is_name(*to),
        Kind::TryUnwrap { h } => is_name(*h),
        Kind::IntoInner { h } => is_name(*h),
        Kind::GetMut { h } => is_name(*h),
        Kind::MakeMut { h } => is_name(*h),
        Kind::Counts { h } => is_name(*h),
        Kind::PtrEq { a, b } => is_name(*a) && is_name(*b),
        Kind::Set { h, i, from } => is_name(*h) && is_index(*i) && is_name(*from),
        Kind::Take { h, i, to } => is_name(*h) && is_index(*i) && is_name(*to),
        Kind::Get { h, i, to } => is_name(*h) && is_index(*i) && is_name(*to),
        Kind::CellNew { c, from } => is_name(*c) && is_name(*from),
        Kind::CellLoad { c, to } => is_name(*c) && is_name(*to),
        Kind::CellSwap { c, from, to } => is_name(*c) && is_name(*from) && is_perhaps_name(*to),
        Kind::CellCas {
            c,
            expected,
            desired,
        } => is_name(*c) && is_name(*expected) && is_name(*desired),
        Kind::CellDrop { c } => is_name(*c),
        Kind::ScopeEnd => true,
    }
}
