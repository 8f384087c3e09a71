//! What a script prints: the answers of its lines, and the lines that say how a run ended.
//!
//! `write_answer` promises that it wrote the text of its answer, and nothing else. Only if the writer failed, it wrote
//! a front of that text. `write_reply` promises the same for a reply that lies elsewhere. `report` and `report_config`
//! promise the lines of a fault and the program's exit status, on an `ErrorOutput`, which writes no more once writing
//! has failed. `specs/Texts.antt` defines how each answer, refusal and fault is printed. The crate does nothing with a
//! master.
#![tactic(auto)]

mod answer;
mod counts;
mod errors;
mod fault;
mod handing;
mod limits;
mod segment_rows;
mod short_line;
mod tables;

pub use answer::{Answer, write_answer, write_number, write_reply};
pub use errors::ErrorOutput;
pub use fault::{ScriptFault, report, report_config};
pub use handing::{WriteFailed, hand};
pub use limits::Limits;
pub use recovery;
pub use recovery::{driving, replay};
