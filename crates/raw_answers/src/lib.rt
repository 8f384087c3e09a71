//! What a script with raw bytes prints: a key or a value as its length, a colon, and so many bytes.
//!
//! `write_told` promises that it wrote the text of an answer as this kind of script prints it, and nothing else. Only
//! if the writer failed, it wrote a front of that text. `write_reply_in` promises the same for a reply that lies
//! elsewhere. `specs/Texts.antt` defines the texts.
#![tactic(auto)]

mod telling;

pub use answers;
pub use raw_lines;
pub use telling::{write_reply_in, write_told};
