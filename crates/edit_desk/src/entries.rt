//! What a desk is asked, and what it keeps of it.
use crate::replies::Reply;
use trace_types::edits::Batch;

/// Edits that were made for a version of the trace.
#[derive(Debug, Drop)]
pub struct Request {
    pub base: u32,
    pub batch: Batch,
}

/// A request that was answered, with the session that made it and the reply.
#[derive(Debug, Drop)]
pub struct Entry {
    pub session: u32,
    pub request: Request,
    pub reply: Reply,
}
