//! Memory compaction: a new segment is made of the kept entries of a segment, in their order.
//!
//! `kept` returns true if an entry is kept, by the index and the log set. `kept_bytes` counts the bytes of a segment's
//! kept objects and tombstones, and `kept_len` those of all its kept entries. `compact` makes the new segment, and the
//! index then leads to each kept object there. `compact_to_len` does so without a count of the bytes.
#![tactic(auto)]

mod compacting;
mod keeping;
mod laws;
mod log_set;

pub use compacting::{compact, compact_to_len};
pub use keeping::{kept, kept_bytes, kept_len};
pub use laws::index_follows;
pub use log_set::LogSet;
