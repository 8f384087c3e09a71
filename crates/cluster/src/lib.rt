//! A node: a fleet of backups, and the master over it if there is one.
//!
//! Each method of `Node` does what one line of a script asks for: it drives the node's own master, shows something of
//! it, drops it, or does something to the fleet. Each promises two things. `specs/Served.antt` and `specs/Waits.antt`
//! say what it makes of this node, and `specs/Told.antt` says what its answer tells of the life of the node's master
//! (`AnswersLine`). A line changes nothing else. If the fleet takes no more ops, the master is dropped and the limit
//! lifted. Recoveries of a node are in the crate above, `next_master`, and lines of clients in `cluster_lines`.
#![tactic(auto)]

mod forgetting;
mod listing;
mod node;
mod tended;
mod tried;
mod will;

pub use answers;
pub use answers::driving::master;
pub use answers::{driving, recovery, replay};
pub use node::Node;
pub use raw_answers;
pub use tending::Notes;
pub use tried::Tried;
