//! The number by which workers claim jobs.
use std::sync::atomic::Rule;

/// The number may be any: each chunk says which job it is of, so a job that two workers had would do no harm.
pub struct Claims;

impl Rule for Claims {
    ghost invariant = { λ _. Unit {0} };
}
