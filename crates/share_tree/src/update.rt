//! What becomes of a value that is there.
ghost use Rattle.std.specs.Prelude.{◌≡◌, Bool, IfOk, OnOk, OnErr};

use std::alloc::{AllocError, Global};

/// Makes another value of one, where it stands or beside it, and answers a question about what was there. Contracts see both.
pub trait Update<V> {
    /// Whether it can be made of the value.
    ghost can: { Self → V → Type 0 };

    /// The value that it makes.
    ghost to: { Self → V → V };

    /// What it answers of the value that was there.
    ghost answer: { Self → V → Bool };

    /// Changes the value where it stands, and answers. Where it fails the value stays.
    fn update(&self, alloc: Global, value: &mut V) -> Result<bool, AllocError>
        requires { can self.now value.old }
        ensures answer { IfOk result (λ b. b ≡ answer self.now value.old) }
        ensures ok { OnOk result (value.new ≡ to self.now value.old) }
        ensures err { OnErr result (value.new ≡ value.old) };

    /// The value that it makes of one which stays, and the answer.
    fn updated(&self, alloc: Global, value: &V) -> Result<(V, bool), AllocError>
        requires { can self.now value.now }
        ensures answer { IfOk result (λ r. r.1 ≡ answer self.now value.now) }
        ensures made { IfOk result (λ r. r.0 ≡ to self.now value.now) };
}
