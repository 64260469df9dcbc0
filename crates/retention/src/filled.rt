//! Lists of one value.
ghost use Rattle.std.specs.Prelude.{◌≡◌, false, replicate, IfOk};

use std::alloc::{AllocError, Global};

/// A list of so many zeros.
pub fn zeros(alloc: Global, count: usize) -> Result<Vec<usize>, AllocError>
    ensures { IfOk result (λ v. v.items ≡ replicate count 0) }
{
    let zeros = vec![in alloc; 0usize; count]?;
    Ok(zeros)
}

/// As `zeros`, of smaller numbers.
pub fn zeros32(alloc: Global, count: usize) -> Result<Vec<u32>, AllocError>
    ensures { IfOk result (λ v. v.items ≡ replicate count 0) }
{
    let zeros = vec![in alloc; 0u32; count]?;
    Ok(zeros)
}

/// A list of so many falsehoods.
pub fn falses(alloc: Global, count: usize) -> Result<Vec<bool>, AllocError>
    ensures { IfOk result (λ v. v.items ≡ replicate count false) }
{
    let falses = vec![in alloc; false; count]?;
    Ok(falses)
}
