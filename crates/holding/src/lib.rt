//! A gate that holds one worker until another has begun. Tests show by it that two threads are there at one time: a
//! body that works on one thread reaches the limit of the turns.
#![tactic(auto)]

use gate::Gate;
use std::sync::atomic::{AtomicU64, Ordering};
use std::thread;

/// How many turns a worker is held at most.
const TURNS: u64 = 1_000_000;

/// Holds worker 0 at its end until worker 1 has begun, but no longer than for its turns.
#[derive(Drop)]
pub struct Holding {
    /// 1 once worker 1 has begun.
    begun: AtomicU64,
    /// 1 once worker 0 has seen that.
    seen: AtomicU64,
}

impl Holding {
    /// A gate that no worker has passed.
    pub fn new() -> Holding {
        Holding {
            begun: AtomicU64::new(0),
            seen: AtomicU64::new(0),
        }
    }

    /// Whether worker 0 has seen worker 1 within its turns.
    pub fn has_seen(&self) -> bool {
        self.seen.load(Ordering::SeqCst) == 1
    }
}

impl Gate for Holding {
    fn enter(&self, worker: usize) {
        if worker == 1 {
            self.begun.store(1, Ordering::SeqCst);
        }
    }

    fn leave(&self, worker: usize) {
        if worker != 0 {
            return;
        }
        for _ in 0..TURNS {
            if self.begun.load(Ordering::SeqCst) == 1 {
                self.seen.store(1, Ordering::SeqCst);
                return;
            }
            thread::yield_now();
        }
    }
}
