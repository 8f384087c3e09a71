//! A store whose backups have files: it begins with the table that a start found, and serves commands.
//!
//! `start` makes the next master over a fleet with files (`file_fleet`), has it adopt a table, and names it in the
//! registry: from then on a start recovers this master. A new store adopts an empty table. `put`, `get` and `delete` do
//! what those of `embedded` do, and an answer is on the disk of each home of its segment before it comes. The crate
//! stands on `file_fleet` and `embedded`.
#![tactic(auto)]

mod groups;
mod starting;
mod store;

pub use embedded::{If, Options, Reply, Status};
pub use starting::{NotStarted, empty_table, start};
pub use store::FileStore;
