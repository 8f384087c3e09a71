//! Wills: which partition each place of a crashed master's tablets goes to.
//!
//! A recovery is divided into partitions, and each partition is replayed on its own. `make_will` cuts the tablets where
//! a partition would have too many bytes or objects. `specs/Rule.antt` is the rule. If `make_will` answers Ok, each
//! place of a tablet has exactly one partition, and no other place has one (`Divides`). `Will::partition_of` finds the
//! partition of a key by a binary search, and takes no memory. The crate stands on `entry`, and re-exports its `Tablet`
//! and `Size`.
#![tactic(auto)]

mod cutting;
mod fault;
mod group;
mod laws;
mod making;
mod part;
mod sizes;
mod will;

pub use entry::{Size, Tablet};
pub use fault::WillFault;
pub use laws::each_place_has_one_partition;
pub use making::make_will;
pub use part::Part;
pub use will::Will;
