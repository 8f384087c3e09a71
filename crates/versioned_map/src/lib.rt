//! The versioned map: the commands of clients, what each command does and what is replied to it, and when the entries
//! of a log represent a map.
//!
//! `specs/` has the definitions, which need no code: a command's step (*after_command*, *reply_to*), the folds over
//! many commands (*after*, *replies*), what a command appends to a log (*unit_of*), and when a log's entries represent
//! a map (*Represents*). `laws` has the theorems on these definitions. `VersionedMap` and `meaning` are plain and slow
//! programs that meet them; tests compare faster code with these programs. The crate uses `entry`.
#![tactic(auto)]

mod bag;
mod command;
mod copies;
mod fault;
mod laws;
mod map;

pub use bag::meaning;
pub use command::{Command, If, Record, Reply};
pub use fault::ApplyFault;
pub use laws::{
    empty_represented, entries_bounded, meaning_by_members, members_represent, one_meaning,
    represented_safe, run_represented, states_go_on, unit_represented, units_are_data, units_go_on,
    versions_bounded,
};
pub use map::VersionedMap;
