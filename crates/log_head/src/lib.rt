//! The head of a master's log: its image, where each unit of it ends, and how many units each replica has.
//!
//! A head appends a unit whole or not at all. It tells which replica lags most and which bytes that replica lacks, and
//! it counts the units that replicas took. It calls no backup: the layer above hands the bytes to backups.
//! `specs/Head.antt` says what a head is, and `specs/Steps.antt` how each call changes it. The image is a
//! `segment::Segment`. `specs/Log.antt` says which head of a log, in the words of `log_laws`, an image holds.
#![tactic(auto)]

mod head;
mod lagging;
mod laws;
mod leaving;
mod next;
mod rolling;

pub use head::{Head, Roll, UnitEnd};
pub use laws::{digests_go_on, heads_are_read, images_go_on, rolls_go_on};
pub use next::Next;
pub use rolling::{Leaving, RollMemory};
