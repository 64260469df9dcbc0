//! Lines, token by token.
pub mod line;
mod numbers;
mod object;
mod pass;
