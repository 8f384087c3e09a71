//! From one master of a node to the next.
//!
//! `recover_node` recovers what a master left, by a will, has the next master adopt the table, and frees the replicas
//! of all others. `specs/Recoveries.antt` says each way in which it ends, and `specs/Succession.antt` that one life
//! ends and the next begins with the table that was found. The next master has the least number above all that were
//! used and all that the backups show (`specs/Numbers.antt`). `node_needs` finds the table too, and answers how many
//! seglets a new master needs to adopt it. `configuration` and `whole_will` make the configuration of a master and its
//! first will from the options of the command line. `later_options` says which options later masters have, and
//! `can_begin` whether these are within their limits. `with_limit` puts the greatest limit of live bytes into options
//! that ask for it. The crate stands on `cluster` and `recovery`.
#![tactic(auto)]

mod later;
mod limits;
mod needing;
mod recovering;
mod setup;

pub use cluster;
pub use cluster::{answers, driving, master, recovery, replay};
pub use later::{Later, can_begin, later_options};
pub use limits::with_limit;
pub use needing::node_needs;
pub use recovering::{Recovery, Request, next_number, recover_node};
pub use setup::{configuration, whole_will};
