//! The text of an op: the bytes that a backup's journal keeps of a take.
//!
//! `write_op` spells an op, and `read_op` reads it. Both are exact: an op is read back from its text (`one_op`), and no
//! other bytes are read as this op (`one_text`). `specs/OpText.antt` has the format.
#![tactic(auto)]

mod laws;
mod reading;
mod writing;

pub use laws::{one_op, one_text};
pub use reading::read_op;
pub use writing::write_op;
