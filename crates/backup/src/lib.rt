//! Backups that hold replicas in memory.
//!
//! `MemoryFleet` keeps the promises of `replica::Fleet` and `replica::Bench`, and ends a take in a fault only where
//! `fault_at` asked for that (`specs/Faults.antt`).
//! It keeps the registry of least heads.
//! `specs/State.antt` defines the picture of what its backups hold. A backup divides the segments that it holds for a
//! recovery: `divide` is the crate `division`'s.
#![tactic(auto)]

mod acks;
mod fleet;
mod memory;
mod registry;
mod shelf;
mod slots;
mod stored;
mod taking;

pub use division::{DivideFault, Group, divide};
pub use fleet::MemoryFleet;
pub use memory::MemoryBackup;
