//! One backup that outlives its process.
//!
//! `FileBackup` holds replicas in memory, and writes each op that it takes to a journal in a file. An op is on the
//! disk before it is answered, and memory changes only then. `specs/Mirror.antt` says what a file shows, and what a
//! crash may leave of it.
#![tactic(auto)]

mod fault;
mod laws;
mod mirror;
mod reading;
mod writing;

pub use fault::BackupFault;
pub use laws::crashes_are_opened;
pub use mirror::FileBackup;
