//! Client threads and a cleaner's thread over one store.
//!
//! `run_clients` has each seat of a store make its rounds of a put and a get, in a thread of its own, beside a
//! cleaner. A client that answers a count answers twice the rounds, and its seat made just so many records
//! (`specs/Clients.antt`).
//!
//! `clients_over` runs clients over a master with a history: it makes a store, runs its clients, and takes the master
//! back. If all calls were accepted, the history has twice the rounds more records of each client and no others, and
//! all are durable (`specs/Workloads.antt`).
//!
//! The crate stands on `locked_log` and `gate`. It starts threads, and waits for them.
#![tactic(auto)]

mod cleaning;
mod client;
mod running;
mod task;
mod workload;

pub use client::Client;
pub use counted_calls::{locked_log, master};
pub use running::run_clients;
pub use workload::{Outcome, SEATS, Workload, clients_over};
