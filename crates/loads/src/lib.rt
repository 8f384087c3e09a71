//! Loads over one store: client threads with shared keys, a cleaner beside them, and what they leave behind.
//!
//! `run_load` has each thread make the operations of a core load of the Yahoo Cloud Serving Benchmark (`load_keys`),
//! over a store of its own over a master. A thread counts how long its calls took, and writes a line of a trace for
//! each of them if it is asked to. If a thread's operations were all answered, its seat made just so many records as
//! the thread counts calls (`specs/Threads.antt`). The master that comes back is valid, and its history begins with the
//! records that it had.
//!
//! One thread at a time cleans, the cleaner or one that finds no room, with notes that all of them share. The others
//! that find no room sleep meanwhile. If they all cleaned at once, each step would wait for the lock behind the steps
//! of the others. While memory is short, each thread also cleans a little behind each of its puts.
//!
//! `object_of` and `fresh_value` are the keys and values of a load, for whoever fills the store before.
//!
//! The crate stands on `counted_calls`, `load_keys` and `load_report`. It starts threads, reads the clock, and shows on
//! standard error how far it is.
#![tactic(auto)]

mod asking;
mod cleaning;
mod client;
mod objects;
mod operations;
mod plan;
mod running;
mod store;
mod tracing;
mod work;

pub use client::Thread;
pub use counted_calls::{locked_log, master};
pub use load_keys::{Act, Keys, Load, Spread, Words};
pub use load_report::{Latencies, Lines};
pub use objects::{fresh_value, object_of};
pub use plan::Plan;
pub use store::{Outcome, run_load};
pub use tracing::{nanos, trace_answer};
pub use work::Work;
