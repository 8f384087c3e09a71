//! A fleet of backups that outlives its process.
//!
//! Each backup has a journal in a file, and a registry has the least heads, and of each backup how much of its journal
//! counts. A take is on the disk before it is answered. `specs/Files.antt` says what the files show, and
//! `specs/Moments.antt` what a crash leaves of them.
#![tactic(auto)]

mod acks;
mod asked;
mod fleet;
mod member;
mod members;
mod noting;
mod registry;

pub use fleet::FileFleet;
pub use member::Member;
pub use members::Members;
pub use registry::{FleetRegistry, NoteFault, Span};
