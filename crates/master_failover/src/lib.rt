//! The pushes of a core: which comes next, its op, and its count. The functions of this crate hand no op to the fleet.
//!
//! While no failover is open, the pushes are those of the head (`log_head`) and of a roll (`master_rolls`). After the
//! failure of a backup a core makes a new head on the backups that are left, and then makes its lost replicas anew.
//! `next_push` says which push comes next, `push_op` makes its op, and `took` counts the push once it was taken. Two
//! pushes have functions of their own. `raised` counts the raise of the registry. The push Turn makes the new head
//! (`new_head`), and its first Open hands the head's image to a backup. Once the backup took this Open, or may have
//! taken it, `NewHead::put` puts the new head into the core, and `opened` counts the Open. `specs/Mending.antt` says in
//! which order the pushes come, and what each makes of a core.
#![tactic(auto)]

mod laws;
mod left;
mod lost;
mod mending;
mod opening;
mod push;
mod turning;

pub use laws::pushes_lower;
pub use mending::{failover_left, opened, raised};
pub use opening::{begin_opening, ledger_of_turn, new_head, victims_of_commit};
pub use push::{Push, next_push, push_op, took};
pub use turning::NewHead;
