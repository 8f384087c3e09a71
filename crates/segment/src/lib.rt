//! Segments: entries in an order that is allowed, and the bytes of these entries.
//!
//! A `Segment` holds the bytes, and a contract sees the list of its entries. Each call that makes, reads or changes a
//! segment leaves a valid one, whose bytes are the text of its entries. A `SegmentRef` is a segment in borrowed bytes.
//! A reader accepts the text of each segment of at most 8,388,608 bytes. For other bytes it names the first test that
//! they fail (`specs/Faults.antt`).
//!
//! The crate stands on `entry`, for entries and their spelling.
#![tactic(auto)]

mod entries;
mod expected;
mod fault;
mod growing;
mod laws;
mod reading;
mod segment;
mod unit;
mod view;

pub use entries::Entries;
pub use fault::{AppendFault, SegmentFault};
pub use growing::{append_text, append_unit, trim_text};
pub use laws::one_fault;
pub use reading::read_segment;
pub use segment::{MAX_SEGMENT_LEN, Segment};
pub use view::SegmentRef;
