//! What the objects and tombstones of a log claim of their keys, and what a log with these claims is rebuilt to.
//!
//! A claim says that at some version a key has a value, or was deleted. `rebuilt_from` rebuilds a log from its claims,
//! whatever their order: with Ok the objects are what the log means, each key once (`specs/Rebuilt.antt`). The crates
//! that rebuild a log, or a part of one, gather its claims and call this one.
#![tactic(auto)]

mod claim;
mod fault;
mod gathering;
mod growing;
mod objects;
mod placed;
mod rebuilt;
mod scanning;
mod settling;

pub use claim::Claim;
pub use fault::ReplayFault;
pub use gathering::{add_claims, claims_in};
pub use objects::{Objects, ObjectsLeft};
pub use placed::PlacedKey;
pub use rebuilt::Rebuilt;
pub use scanning::{is_last, safe_above, winners};
pub use settling::rebuilt_from;
