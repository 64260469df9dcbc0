//! Operations beside what they did, where they stand.
ghost use Rattle.std.specs.Prelude.{◌≡◌, length};

use crate::ops::Op;
use crate::outcomes::Outcome;

/// Operations one behind the other, and the outcome of each. Both are borrowed.
#[derive(Clone, Copy)]
pub struct Stretch<'a> {
    pub ops: &'a [Op],
    pub outcomes: &'a [Outcome],
    ghost even: { length outcomes.now ≡ length ops.now },
}
