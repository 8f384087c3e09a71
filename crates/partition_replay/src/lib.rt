//! Replays a partition of a log group by group.
//!
//! `Replay` takes a partition's group of each segment, in any order, and ends with the objects that the groups mean.
//! Nothing here knows a master or a whole log.
#![tactic(auto)]

mod keeping;
mod kept;
mod replay;

pub use replay::{Replay, Replayed};
