//! Rebuilds a log with several workers, each in a thread of its own.
//!
//! `rebuild_threads` promises what `rebuilding::rebuild` does, clause for clause, however many workers there are and
//! however they take turns. The calling thread divides the log segment by segment (`divider`), and sends each group
//! over a channel to the worker of its partition (`threads`). A worker keeps the groups that come (`worker`), and ends
//! with the lists of its partitions, which the calling thread joins (`lists`). The types of `partitions` say what a
//! group, a list and their join are, so no proof rests on what a channel delivers. If a group is lost or comes twice,
//! the calling thread answers by `rebuild`.
#![tactic(auto)]

mod divider;
mod lists;
mod threads;
mod worker;

pub use threads::rebuild_threads;
