//! How a core rolls to the next head, and what the end of a roll leaves of a pass. The functions of this crate hand no
//! op to the fleet.
//!
//! `begin_roll` begins a roll, `next_push` says which push comes next, and `took` counts a push that was taken. A roll
//! that begins when a pass is ready is the commit of this pass. With the last push of that roll `end_pass` ends the
//! pass (`specs/Ends.antt`). A failover makes a new head too. So its crate also asks here which segments the next
//! digest leaves out (`leaving_victims`) and takes in (`entering`).
#![tactic(auto)]

mod ending;
mod rolling;

pub use ending::end_pass;
pub use rolling::{begin_roll, entering, leaving_victims, mark, next_push, next_push_for, took};
