//! Who calls a store: seats, what the store's books have of them, and their calls over whatever lies under the lock.
//!
//! A `Seat` has numbers, its part of the ledger, and a receipt of its last record. `file` puts a record into its cell,
//! the book and the ledger, and `settle` answers a seat up to a durable place; both are exact about all that they
//! change (`specs/Accounts.antt`). `claim` hands a seat a record of its own again. A `Shared` is a log under a lock,
//! and a mark beside it that nobody waits for. Its calls say what they do to the seat (`specs/Calls.antt`,
//! `specs/Claims.antt`), from what the log promises for each holding of the lock (`Log`).
//!
//! The crate knows no master but for its refusals and its configuration. It stands on `history_row` and `mark_word`. It
//! waits, and starts no thread.
#![tactic(auto)]

mod account;
mod claiming;
mod fault;
mod filing;
mod forgetting;
mod log;
mod naming;
mod seat;
mod shared;
mod waiting;

pub use account::{Account, is_known};
pub use claiming::{claim, owns};
pub use fault::CallFault;
pub use filing::{file, settle};
pub use forgetting::settled_to;
pub use history_row::{Receipt, Row};
pub use log::{Applied, Attempt, Log, Progress};
pub use naming::Naming;
pub use seat::Seat;
pub use shared::Shared;
pub use waiting::take;
