//! The laws of cycles: each object that is alive is explained, and what two cycles retain is apart.
#![tactic(auto)]

pub mod laws;
