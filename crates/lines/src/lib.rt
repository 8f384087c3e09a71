//! The lines of a script: read one at a time from any reader, and parsed.
//!
//! `LineReader::next_line` promises which bytes it took from the reader and where they ended, also after a fault. With
//! Ok `parse_line` promises that the text is that of its line, and with Err that the text is that of no line.
//! `specs/Grammar.antt` defines how each line is written, and uses nothing of the parser.
#![tactic(auto)]

mod command;
mod laws;
mod line;
mod numbers;
mod parse;
mod reading;
mod reason;
mod scan;
mod why;
mod words;

pub use command::{CommandLine, KeyWord};
pub use laws::one_line;
pub use line::{Line, ReplayOrder};
pub use numbers::Numbers;
pub use parse::parse_line;
pub use reading::{LineReader, ReadFault, Taken};
pub use reason::{Reason, Shape};
pub use words::parse_number;
