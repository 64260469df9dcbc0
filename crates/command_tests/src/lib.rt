//! Tests of the commands: the program's words, and what each command writes and how it ends.
#![tactic(auto)]

#[cfg(test)]
mod edits;
#[cfg(test)]
mod explain;
#[cfg(test)]
mod memory;
#[cfg(test)]
mod picture;
#[cfg(test)]
mod replay;
#[cfg(test)]
mod traces;
#[cfg(test)]
mod words;
