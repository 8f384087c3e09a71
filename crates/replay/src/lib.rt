//! A master that goes on with what a log stands for.
//!
//! `adopt` makes such a master from a rebuilt list, under a number that has no replicas. `seglets_needed` says how much
//! memory that takes. The crates below (`claims`, `partition_replay`, `rebuilding`, `rebuild_threads`) say what a log
//! is rebuilt to, and by which calls. This crate exports their names, too.
#![tactic(auto)]

mod adopting;
mod needs;

pub use adopting::{adopt, adopt_list};
pub use claims::{Objects, Rebuilt, ReplayFault};
pub use driving;
pub use driving::master;
pub use needs::seglets_needed;
pub use partition_replay::{Replay, Replayed};
pub use rebuild_threads::rebuild_threads;
pub use rebuilding::{rebuild, rebuild_plain};
