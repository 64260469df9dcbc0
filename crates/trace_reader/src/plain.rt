//! Lines of one plain object, in one walk over their bytes.
mod elements;
pub mod line;
mod names;
mod numbers;
mod scalars;
mod texts;
