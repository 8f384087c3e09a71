//! A recovery from what a start finds in the files of a fleet.
//!
//! `recover_found` lists the replicas of the backups that were found, and recovers a master from them and from the
//! registry's least head. `specs/Starts.antt` says what comes back, in the words of `recovery` and of `fleet_start`.
#![tactic(auto)]

mod recovering;

pub use recovering::recover_found;
