//! Where a schedule of threads may be steered from outside.

/// It is told of each event of a job, and returns. No answer of the program depends on it.
pub trait Gate {
    /// Comes after each answered `load` or `dict` of job `job`, with the answer's number in the job from 0. The
    /// number stays at the greatest `u64` once it is there.
    fn step(&self, job: u64, event: u64);
}

/// The gate that does nothing.
#[derive(Clone, Copy)]
pub struct OpenGate;

impl Gate for OpenGate {
    fn step(&self, _job: u64, _event: u64) {}
}
