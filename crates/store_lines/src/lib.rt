//! What the lines of a script ask of a store, and how its answers are printed.
//!
//! A line is a command, with which a seat calls (`command_of`), some turns of the cleaner or of the log (`turn_line`),
//! a look (`look_line`, `renew`), or something that ends a life or belongs between two lives. `Dialogue` is the open
//! script. No contract says what a store did under its lock, so of lines nothing is promised but that the code is
//! safe. `first_master` and `next_config` say what a life begins with, and `check_later`
//! whether later lives can begin.
//!
//! The crate stands on `locked_log`, and on `next_master` for options, answers and faults. It waits, and starts no
//! thread.
#![tactic(auto)]

mod command;
mod dialogue;
mod fault;
mod looks;
mod succession;
mod turns;

pub use command::command_of;
pub use command_line::{Options, options};
pub use dialogue::Dialogue;
pub use fault::{LineFault, tell};
pub use locked_log;
pub use looks::{look_line, renew};
pub use next_master::answers::{
    Answer, ErrorOutput, ScriptFault, report, report_config, write_answer,
};
pub use next_master::{Later, configuration, master, recovery, replay, with_limit};
pub use succession::{FIRST_MASTER, check_later, first_master, next_config, want};
pub use turns::{Phase, refuse, take_all, turn_line};
