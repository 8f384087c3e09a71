//! How a segment is divided by a will.
//!
//! `divide` sends the objects and tombstones of a segment to the partitions of their keys. `specs/Division.antt`
//! defines what each partition gets. A group keeps the offset of each of its entries in the segment, in 4 bytes. Its
//! entries are read again from the segment's bytes, which takes no memory. The crate knows nothing of the backup that
//! holds the segment, nor of who replays the groups.
#![tactic(auto)]

mod dividing;
mod fault;
mod gathered;
mod group;
mod placed;
mod straying;

pub use dividing::divide;
pub use fault::DivideFault;
pub use group::Group;
pub use placed::{EntriesLeft, GroupEntries};
