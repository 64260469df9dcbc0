//! Lines of a trace and of requests: which operations and edits a text says, or what is wrong with its first faulty line.
#![tactic(auto)]

mod fault;
mod fields;
mod kinds;
mod line_scratch;
mod lines;
mod look;
mod member_slots;
mod members;
mod names;
mod op;
mod plain;
mod request;
mod script;
mod tokens;
mod trace;
mod values;
mod write;

pub use fault::{LineCause, LineFault, fault_line};
pub use op::read_op;
pub use request::{RequestLine, read_request};
pub use script::{Script, read_script};
pub use trace::{CountedTrace, read_trace, read_trace_counted};
pub use write::{lines_read_back, write_line, write_ops, write_trace};
