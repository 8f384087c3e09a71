//! Under a limit of live bytes a next master has room for whatever a recovery finds.
//!
//! A master whose configuration limits the bytes of its live objects refuses each put that would pass the limit. A
//! configuration is valid only if a new master has room for any table within its limit. So whatever a recovery finds
//! of such a master, the next master can adopt it, and it keeps the limit again. An adoption may still fail if a backup
//! fails meanwhile, but not for the table.
//!
//! The crate has no code that runs. The laws are the contracts of `limits_are_kept`, `recoveries_fit` and
//! `drilled_fit`. They speak of the relations of `master`, `replay` and `recovery`. `specs/Limit.antt` says when a
//! table, a log and a master are within a limit.
#![tactic(auto)]

mod laws;

pub use laws::{drilled_fit, limits_are_kept, recoveries_fit};
