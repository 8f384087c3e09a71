//! What a master knows: its configuration, its log in memory, its index, its history, and how far it has cleaned.
//!
//! `Core` has all of this in fields that the crates above read and change. Every core has the invariant of
//! `specs/Invariant.antt`, and each function that borrows a core to change it has to leave a core that has the
//! invariant. `specs/Log.antt` says which log a core has, `specs/Causes.antt` why a step is refused, and
//! `specs/Steps.antt` what an accepted step makes of a core.
//!
//! The steps themselves are in crates above: `master_commands`, `master_rolls`, `master_space` and `master_failover`.
//! This crate has what they share: how much memory is counted, when a roll may begin, and what a fault leaves.
#![tactic(auto)]

mod budget;
mod config;
mod failover;
mod image;
mod ledger;
mod loaded;
mod losing;
mod posting;
mod state;
mod step;
mod waiting;

pub use config::{Config, ConfigFault};
pub use failover::{Failed, Failover, Part};
pub use hash_index::{KeyHasher, Secret};
pub use image::image_of;
pub use ledger::{Abandoned, Ledger, Posting};
pub use loaded::Loaded;
pub use state::Core;
pub use step::{Refusal, Step, StepAnswer};
pub use waiting::Waiting;
