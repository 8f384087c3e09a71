//! A file on the disk, as a device of a journal.
//!
//! A `Folder` is locked by one process. It makes and opens files, each a `DiskFile`, which is a `take_journal::Device`.
//! Each call of the system on a file is noted with its answer, in a list that only contracts read.
//! `specs/Standing.antt` says what such a list tells: what a read of the file returns, and what a crash may leave. That
//! the disk keeps to it is a premise. The system is asked in `noted.rt` and in `Folder::open`, and nowhere else.
#![tactic(auto)]

mod disk;
mod error;
mod folder;
mod history;
mod noted;

pub use disk::DiskFile;
pub use error::OpenError;
pub use folder::{Folder, Opened};
