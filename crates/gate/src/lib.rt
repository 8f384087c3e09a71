//! A gate, which is told when workers begin and end. Whoever starts threads takes a gate. In tests a gate can hold a
//! worker up for a while.
#![tactic(auto)]

/// A gate is told by each worker, in the worker's thread. The calls return, and change nothing that a worker sees.
pub trait Gate {
    /// The worker with this number, from 0, has begun.
    fn enter(&self, worker: usize);

    /// The worker with this number is at its end.
    fn leave(&self, worker: usize);
}

/// A gate that does nothing.
#[derive(Clone, Copy)]
pub struct NoGate;

impl Gate for NoGate {
    fn enter(&self, _worker: usize) {}

    fn leave(&self, _worker: usize) {}
}
