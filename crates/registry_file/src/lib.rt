//! The registry of a store on disk: which file is each backup's journal, and what else a recovery has to know.
//!
//! A `RegistryFile` has a journal of records, and keeps in memory what they say (`Registry`). A record is on the disk
//! before it is answered, and memory changes only then. `specs/Kept.antt` says what the records of a file keep, and
//! `specs/File.antt` what a crash may leave of the file.
#![tactic(auto)]

mod fault;
mod file;
mod laws;
mod registry;
mod whole;

pub use fault::RegistryFault;
pub use file::RegistryFile;
pub use laws::crashes_are_opened;
pub use registry::{BackupJournal, JournalFile, LeastHead, Registry};
