//! What a command does to a core, and how a core is loaded before its history begins. Neither hands the fleet any op.
//!
//! `apply` applies a command whole or not at all. It answers what the versioned map replies, and adds the record to the
//! history and the unit to the head. `answer` does so with a command that the caller keeps, and `accept` returns only
//! the place of its record, from which the reply may be read. `load` adds an object that has its version already.
//! `specs/Change.antt` says what a command does to its key, `specs/Index.antt` says what becomes of the index, and
//! `specs/Counts.antt` says what becomes of the counts of segments.
#![tactic(auto)]

mod applying;
mod change;
mod counting;
mod getting;
mod index;
mod judging;
mod laws;
mod loading;
mod unit;

pub use applying::{accept, answer, answer_to, apply, would};
pub use laws::loading_goes_on;
pub use loading::{begin_history, can_finish, load, presize};
