//! How many bytes of each segment are kept, counted as they come and go.
//!
//! What is kept of a segment are its live objects and its tombstones that name a segment of the log. `Tallies` has both
//! sums for the segments of a log, so that a choice of victims looks at no entry. The laws of `specs/Right.antt` say
//! that tallies stay right with each step.
#![tactic(auto)]

mod laws;
mod placing;
mod tallies;
mod walking;

pub use laws::{
    bytes_are_compacted, bytes_are_set, kept_is_both, segments_fill_at_once, stones_are_kept,
    tallies_stay_right,
};
pub use tallies::{Tallies, Tally};
pub use walking::{opening_len, stones_in};
