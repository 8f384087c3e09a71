//! Rebuilds a log partition by partition: it has groups on their way to workers, what a worker gathers of a partition,
//! and the joined lists of all partitions.
//!
//! A `Division` names one log and one will. Each value here belongs to a division, and its type says what it is: a
//! `Parcel` is a group of the division's log, a `Share` has what came of one partition, a `PartList` is what a
//! partition stands for, and `Joined` is what the first partitions stand for. So none of them can be taken for another
//! on its way between threads, and no promise about their delivery is needed. `Joined::finish` gives what the log is
//! rebuilt to.
#![tactic(auto)]

mod listing;
mod parcel;
mod setback;
mod share;

pub use listing::{Joined, PartList};
pub use parcel::{Division, Parcel};
pub use setback::Setback;
pub use share::Share;
