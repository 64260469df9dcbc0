//! The desk: one trace in versions, and a reply to each request to edit it.
#![tactic(auto)]

mod desk;
mod entries;
mod kept;
mod prepared;
mod published;
mod replies;

pub use desk::Desk;
pub use entries::{Entry, Request};
pub use kept::{KEPT_CHUNKS, KEPT_MARKS, KEPT_NAMES};
pub use prepared::Prepared;
pub use published::{Published, export, what_if};
pub use replies::{Reply, push_reply};
