//! Replicas on backups: the ops that change them, and what a fleet of backups promises.
//!
//! The layer above uses `Fleet` alone. An op is taken whole or not at all, changes only the replica that it names, and
//! is counted. What a backup shows is what it took. A fleet that is a `Bench` can be stopped after any take, can be
//! asked to let a take end in a fault, and can free what other masters left.
#![tactic(auto)]

mod bytes;
mod fleet;
mod holding;
mod label;
mod op;
mod spot;

pub use bytes::Bytes;
pub use fleet::{Bench, Fleet};
pub use holding::{Holding, Inventory};
pub use label::{Label, Labels, add_labels};
pub use op::{Act, Op, TakeFault};
pub use spot::Spot;
