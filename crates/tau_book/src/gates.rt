//! Gates around the evaluation of a job.

/// What a worker passes before and after it evaluates a job up to its next effect (docs/rules.md, "Workers"). Both calls return.
pub trait Gate {
    /// The worker is about to evaluate the job of this turn.
    fn enter(&self, worker: u32, turn: u32);

    /// The worker has evaluated the job of this turn.
    fn leave(&self, worker: u32, turn: u32);
}

/// The gate that holds nobody.
#[derive(Clone, Copy)]
pub struct OpenGate;

impl Gate for OpenGate {
    fn enter(&self, _worker: u32, _turn: u32) {}

    fn leave(&self, _worker: u32, _turn: u32) {}
}
