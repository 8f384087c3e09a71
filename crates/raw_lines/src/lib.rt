//! The lines of a script with raw bytes: a key or a value is written as its length, a colon, and so many bytes of any
//! kind.
//!
//! `parse_text` reads a line of either kind of script. With Ok it promises that the text is that of its line, and with
//! Err that the text is that of no line. `specs/Raw.antt` defines how each line is written, and uses nothing of the
//! parser.
#![tactic(auto)]

mod commands;
mod laws;
mod parse;
mod rest;

pub use laws::one_plain_line;
pub use lines;
pub use parse::parse_text;
