//! The history of a log: its accepted commands with their replies, packed. A record takes a row of 32 bytes, and its
//! key and value lie in large blocks of text.
//!
//! A contract sees a list of records. `reserve` allocates a block when the last one is full, and `push` allocates no
//! memory. A record never moves. `forget` frees the first records, by blocks of 1,024; a contract still sees them in
//! the list. `RecordRef` is a view of a record, which borrows its bytes from a history or from a `Record`;
//! *shown_record* is the record that it shows.
#![tactic(auto)]

mod forgotten;
mod laws;
mod numbers;
mod owning;
mod packing;
mod reading;
mod records;
mod rows;
mod texts;
mod view;

pub use laws::replies_have_one_value;
pub use owning::{len_of, view_command, view_reply};
pub use packing::key_of;
pub use records::History;
pub use view::{CommandRef, RecordRef, ReplyRef, ValueRef};
