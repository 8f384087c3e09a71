//! A fleet in memory, or one with files.
//!
//! Whoever has a `Fleets` needs one type for both. `specs/State.antt` says what each of them is to the contract of a
//! fleet.
#![tactic(auto)]

mod fleets;
mod inventory;

pub use fleets::Fleets;
