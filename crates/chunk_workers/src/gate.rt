//! What a worker passes before and after a job.

/// What workers call before and after each job that they run. By it a test sees which jobs run side by side.
pub trait Gate {
    fn before(&self, job: usize);

    fn after(&self, job: usize);
}

/// A gate that lets all pass. Takes no memory.
pub struct OpenGate;

impl Gate for OpenGate {
    fn before(&self, _job: usize) {}

    fn after(&self, _job: usize) {}
}
