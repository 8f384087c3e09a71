//! What a start finds of a fleet that outlives its process, and how it becomes a fleet again.
//!
//! A `Found` has the registry and the backups whose files were found, and lists their replicas for a recovery. It
//! changes nothing. `put` gives a missing backup a file of its own, and `into_members` makes the fleet once none is
//! missing. A new store is one of which all backups are missing. `specs/Found.antt` says what is found, in the words of
//! what files show.
#![tactic(auto)]

mod first;
mod found;
mod opening;
mod options;

pub use first::{JOURNAL, first_text, is_journal_of};
pub use found::{Found, FoundFault};
pub use opening::{begin_member, begin_registry, open_member, open_registry};
pub use options::first_other;
