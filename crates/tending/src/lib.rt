//! A cleaner that makes a few steps of a master at a time, so that whoever serves commands cleans between them.
//!
//! `tend` goes on with what is under way. If nothing is, and few whole segments are free, it compacts a segment or
//! begins a pass, as its `Policy` says. `tend_behind` does so behind a command: there it makes few steps behind a
//! compaction. `make_room` makes a whole round of such steps for a command that finds no room. Their contracts say
//! which steps were made, in which order, and with which refusal they stopped (`specs/Tends.antt`,
//! `specs/Rounds.antt`). They make no record, so history and map stay. The crate stands on `driving`.
#![tactic(auto)]

mod behind;
mod choosing;
mod finding;
mod notes;
mod policy;
mod rounds;
mod steps;
mod weighing;

pub use behind::tend_behind;
pub use driving;
pub use notes::Notes;
pub use policy::Policy;
pub use rounds::make_room;
pub use steps::{choose_step, tend};
