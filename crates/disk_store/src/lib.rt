//! A store that has its backups in the files of a folder, or of several.
//!
//! `DiskStore::open` locks a folder, finds what the last life left in it, and recovers the table. The next master
//! adopts it, and serves through `DiskStore::store`: what it answers is on the disk of each home of its segment.
//! `DiskStore::shorten` writes files anew that have grown long. `specs/Opened.antt` says what an opened store is, and
//! why one isn't opened. The crate stands on `store_folders`, `found_recovery` and `file_store`.
#![tactic(auto)]

mod asked;
mod fault;
mod filing;
mod finding;
mod opening;
mod shortening;

pub use disk_file::DiskFile;
pub use fault::NotOpened;
pub use file_store::{FileStore, If, NotStarted, Options, Reply, Status};
pub use finding::kept_options;
pub use opening::DiskStore;
pub use registry_file::RegistryFile;
pub use shortening::shorten;
pub use store_folders::{Folders, StoreFault};
