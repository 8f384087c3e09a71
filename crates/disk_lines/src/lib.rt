//! The lines of a script over a store whose backups have files.
//!
//! `run_lines` takes lines from a reader, in order, and writes what is printed of each. A put, a get or a delete is
//! carried out, and its reply is written once its record is on the disk of each home of its segment. Those whose lines
//! are at hand together are pushed together (`specs/Groups.antt`). `list T` shows a table. Lines that only a store in
//! memory runs are refused (`specs/Lines.antt`). `specs/Runs.antt` says what a run of lines is, and `specs/Skips.antt`
//! what one is that goes on behind bad lines. The crate stands on `file_store` and `raw_answers`.
#![tactic(auto)]

mod answering;
mod gathering;
mod printing;
mod running;
mod serving;
mod skipping;
mod upkeep;

pub use answers::{ErrorOutput, ScriptFault, report};
pub use file_store;
pub use skipping::run_lines;
pub use upkeep::Upkeep;
