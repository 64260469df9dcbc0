//! The operations that a trace may have.
ghost use Rattle.std.specs.Prelude.{◌≡◌, ◌↔◌, IsTrue};

use crate::sequence::Sequence;

/// An element of `fields`: the handle whose holding becomes the field, an empty pointer, or, in `new_cyclic` alone, the
/// `Weak` to the object that is being made.
#[derive(Clone, Copy, Debug, PartialEq, Eq)]
pub enum Field {
    Held(u32),
    Null,
    Me,
}

/// What an operation does, with its members in the order in which reasons to skip it are tried.
///
/// `h`, `from`, `a`, `b`, `expected` and `desired` are handles, `c` is a cell, `i` the index of a field from 0, and `to`
/// a handle that is to be made.
#[derive(Clone, Debug, Drop)]
pub enum Kind {
    /// `Arc::new`
    New { to: u32, fields: Sequence<Field> },
    /// `Arc::new_cyclic`
    NewCyclic { to: u32, fields: Sequence<Field> },
    /// `Arc::new` of a value that was moved out of another `Arc`
    NewFrom { from: u32, to: u32 },
    /// `Weak::new`
    WeakNew { to: u32 },
    /// an empty pointer
    Null { to: u32 },
    /// `Arc::clone`, `Weak::clone`
    Clone { from: u32, to: u32 },
    /// `drop`
    Drop { h: u32 },
    /// `Arc::downgrade`
    Downgrade { from: u32, to: u32 },
    /// `Weak::upgrade`
    Upgrade { from: u32, to: u32 },
    /// `Arc::try_unwrap`
    TryUnwrap { h: u32 },
    /// `Arc::into_inner`
    IntoInner { h: u32 },
    /// `Arc::get_mut`
    GetMut { h: u32 },
    /// `Arc::make_mut`
    MakeMut { h: u32 },
    /// `Arc::strong_count` and `Arc::weak_count`, or those of `Weak`
    Counts { h: u32 },
    /// `Arc::ptr_eq`
    PtrEq { a: u32, b: u32 },
    /// a field takes what a handle holds
    Set { h: u32, i: u32, from: u32 },
    /// a field is moved out
    Take { h: u32, i: u32, to: u32 },
    /// a field is cloned
    Get { h: u32, i: u32, to: u32 },
    /// `atomic<shared_ptr<T>>`'s constructor
    CellNew { c: u32, from: u32 },
    /// `atomic<shared_ptr<T>>::load`
    CellLoad { c: u32, to: u32 },
    /// `atomic<shared_ptr<T>>::exchange`, or `store` where there is no `to`
    CellSwap { c: u32, from: u32, to: Option<u32> },
    /// `atomic<shared_ptr<T>>::compare_exchange_strong`
    CellCas { c: u32, expected: u32, desired: u32 },
    /// `atomic<shared_ptr<T>>`'s destructor
    CellDrop { c: u32 },
    /// the end of the scope of the operation's thread label
    ScopeEnd,
}

impl Kind {
    /// Whether both are the same kind with the same members.
    pub fn same(&self, other: &Kind) -> bool
        ensures { IsTrue result ↔ (self.now ≡ other.now) }
    {
        match (self, other) {
            (
                Kind::New { to, fields },
                Kind::New {
                    to: other_to,
                    fields: other_fields,
                },
            ) => *to == *other_to && fields.same(other_fields),
            (
                Kind::NewCyclic { to, fields },
                Kind::NewCyclic {
                    to: other_to,
                    fields: other_fields,
                },
            ) => *to == *other_to && fields.same(other_fields),
            (
                Kind::NewFrom { from, to },
                Kind::NewFrom {
                    from: other_from,
                    to: other_to,
                },
            ) => *from == *other_from && *to == *other_to,
            (Kind::WeakNew { to }, Kind::WeakNew { to: other_to }) => *to == *other_to,
            (Kind::Null { to }, Kind::Null { to: other_to }) => *to == *other_to,
            (
                Kind::Clone { from, to },
                Kind::Clone {
                    from: other_from,
                    to: other_to,
                },
            ) => *from == *other_from && *to == *other_to,
            (Kind::Drop { h }, Kind::Drop { h: other_h }) => *h == *other_h,
            (
                Kind::Downgrade { from, to },
                Kind::Downgrade {
                    from: other_from,
                    to: other_to,
                },
            ) => *from == *other_from && *to == *other_to,
            (
                Kind::Upgrade { from, to },
                Kind::Upgrade {
                    from: other_from,
                    to: other_to,
                },
            ) => *from == *other_from && *to == *other_to,
            (Kind::TryUnwrap { h }, Kind::TryUnwrap { h: other_h }) => *h == *other_h,
            (Kind::IntoInner { h }, Kind::IntoInner { h: other_h }) => *h == *other_h,
            (Kind::GetMut { h }, Kind::GetMut { h: other_h }) => *h == *other_h,
            (Kind::MakeMut { h }, Kind::MakeMut { h: other_h }) => *h == *other_h,
            (Kind::Counts { h }, Kind::Counts { h: other_h }) => *h == *other_h,
            (
                Kind::PtrEq { a, b },
                Kind::PtrEq {
                    a: other_a,
                    b: other_b,
                },
            ) => *a == *other_a && *b == *other_b,
            (
                Kind::Set { h, i, from },
                Kind::Set {
                    h: other_h,
                    i: other_i,
                    from: other_from,
                },
            ) => *h == *other_h && *i == *other_i && *from == *other_from,
            (
                Kind::Take { h, i, to },
                Kind::Take {
                    h: other_h,
                    i: other_i,
                    to: other_to,
                },
            ) => *h == *other_h && *i == *other_i && *to == *other_to,
            (
                Kind::Get { h, i, to },
                Kind::Get {
                    h: other_h,
                    i: other_i,
                    to: other_to,
                },
            ) => *h == *other_h && *i == *other_i && *to == *other_to,
            (
                Kind::CellNew { c, from },
                Kind::CellNew {
                    c: other_c,
                    from: other_from,
                },
            ) => *c == *other_c && *from == *other_from,
            (
                Kind::CellLoad { c, to },
                Kind::CellLoad {
                    c: other_c,
                    to: other_to,
                },
            ) => *c == *other_c && *to == *other_to,
            (
                Kind::CellSwap { c, from, to },
                Kind::CellSwap {
                    c: other_c,
                    from: other_from,
                    to: other_to,
                },
            ) => *c == *other_c && *from == *other_from && *to == *other_to,
            (
                Kind::CellCas {
                    c,
                    expected,
                    desired,
                },
                Kind::CellCas {
                    c: other_c,
                    expected: other_expected,
                    desired: other_desired,
                },
            ) => *c == *other_c && *expected == *other_expected && *desired == *other_desired,
            (Kind::CellDrop { c }, Kind::CellDrop { c: other_c }) => *c == *other_c,
            (Kind::ScopeEnd, Kind::ScopeEnd) => true,
            _ => false,
        }
    }
}
