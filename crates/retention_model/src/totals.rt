//! How much is left at the end of a trace.

/// How many objects leaked, how many cycles they form, and how many husks are left.
#[derive(Clone, Copy, Debug, PartialEq, Eq)]
pub struct Totals {
    pub leaks: usize,
    pub cycles: usize,
    pub husks: usize,
}
