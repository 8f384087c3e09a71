//! A store for a program that embeds one: a master with its fleet of backups in memory, on one thread.
//!
//! `Store::open` makes it, and `put`, `get` and `delete` take any bytes. A `Reply` says what came of a command, and
//! `specs/Replies.antt` says what each status means for the history of the master (`Means`). After `crash`, backups
//! may be lost (`lose`), and `recover` makes the next master of what is left (`specs/Lives.antt`). `what_survives`
//! says what the next master has then. No call requires anything of its caller, takes a lock or starts a thread.
//!
//! Whoever has backups of another kind implements `replica::Fleet`, makes a `Master` over them, and calls `carry_out`,
//! which does what a put, get or delete does behind its checks (`is_key`, `is_value`). The crate stands on `tending`
//! and `recovery`.
#![tactic(auto)]

mod carrying;
mod commands;
mod laws;
mod life;
mod next;
mod options;
mod reply;
mod rescue;
mod store;
mod upkeep;

pub use backup::MemoryFleet;
pub use carrying::carry_out;
pub use commands::{is_key, is_value, key_ref, put_command, value_of};
pub use laws::{what_is_lost, what_survives};
pub use life::Life;
pub use options::{Options, configuration, whole_will};
pub use recovery;
pub use recovery::{master, replay};
pub use reply::{Reply, Status};
pub use rescue::NotRecovered;
pub use store::{NotOpened, Stats, Store};
pub use tending::Notes;
pub use versioned_map::If;
