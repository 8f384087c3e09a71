//! A store in folders: its files, by their names.
//!
//! The folders have one store. The file `registry` says with which options the store was made, and which file is each
//! backup's journal: `backup-B-ID`. `Folders::open` locks the folders. `find_registry` and `find_backups` open what is
//! there, and write nothing but that they mend torn ends. `make_registry` begins a store, `put_fresh` gives a missing
//! backup a file, and `renew` gives another file to one whose own failed. A start that recovers before it calls
//! `put_fresh` leaves a store that it refuses as it was. `rewrite` gives a shorter file to a backup of a fleet, amid
//! its life. The crate stands on `disk_file` and `fleet_start`.
#![tactic(auto)]

mod backups;
mod fault;
mod folders;
mod fresh;
mod naming;
mod opening;
mod options;
mod registry;

pub use backups::{find_backups, member_in};
pub use fault::StoreFault;
pub use folders::Folders;
pub use fresh::{put_fresh, renew, rewrite};
pub use naming::FileName;
pub use options::{OPTIONS, test_options};
pub use registry::{find_registry, make_registry, registry_in};
