//! What a load is.

use counted_calls::locked_log::Policy;
use load_keys::Load;
use std::alloc::Global;

/// What the threads of a load do.
#[derive(Clone, Copy)]
pub struct Plan {
    pub alloc: Global,
    pub load: Load,
    /// How many threads call: 1 to 63.
    pub threads: u64,
    /// How many operations each of them makes: fewer than 2^40.
    pub operations: u64,
    /// The bytes of a value: at most 1,048,576.
    pub length: usize,
    /// What the keys and the calls are drawn from.
    pub seed: u64,
    /// Whether each call has a line of a trace.
    pub is_traced: bool,
    /// Whether the first thread shows on standard error how far it is.
    pub is_shown: bool,
    /// Whether a cleaner runs beside the threads. Without it a thread cleans if it finds no room.
    pub has_cleaner: bool,
    /// When a cleaner begins something.
    pub policy: Policy,
}

/// What one thread has to do.
#[derive(Clone, Copy)]
pub(crate) struct Task {
    pub(crate) plan: Plan,
    /// Which thread it is, from 1.
    pub(crate) thread: u64,
}
