//! Rebuilds what the log of a plan stands for: the objects that are left, and a safe version for what follows.
//!
//! The layers above use `rebuild_plain` and `rebuild`: with Ok the objects are what the segments mean, in order, each
//! key once. `GroupOrder` says in which order the groups are replayed. Nothing here knows a master: what is rebuilt
//! follows from the segments alone.
#![tactic(auto)]

mod checking;
mod ids;
mod naming;
mod order;
mod plain;
mod rebuilding;
mod want;

pub use checking::check_order;
pub use order::{GroupOrder, numbers, numbers_for};
pub use plain::rebuild_plain;
pub use rebuilding::rebuild;
