//! The script: lines come in, drive a master and its recovery, and replies and rebuilt tables come out.
//!
//! `run_script` runs lines in order, and prints exactly their answers. What they tell is one life of a master after
//! another (`specs/Runs.antt`). `run_program` goes from the words of the command line to the exit status
//! (`specs/Program.antt`). Inside, a session is what the lines drive: a node with the coordinator's will and numbers
//! (`specs/Sessions.antt`). The crate stands on `cluster`, `next_master` and `answers`, and reads with `lines` and
//! `command_line`.
#![tactic(auto)]

mod line_commands;
mod outcome;
mod printing;
mod program;
mod running;
mod serving;
mod session;

pub use backup::{MemoryBackup, MemoryFleet};
pub use cluster_lines::locked_log;
pub use command_line::{Options, options};
pub use lines::Reason;
pub use next_master;
pub use next_master::answers::{
    Answer, ErrorOutput, Limits, ScriptFault, report, report_config, write_answer,
};
pub use next_master::recovery::{
    Drill, Plan, PlanFault, Rebuilt, RecoveryFault, ReplayFault, acknowledged_recovered,
    inventory_of, plan, rebuild_plain, recover, run_drill,
};
pub use next_master::{configuration, master, recovery, replay};
pub use program::{run_options, run_program};
pub use running::run_script;
