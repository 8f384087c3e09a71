//! How objects are packed into the segments of a new log, how many seglets of memory a master needs to load them, and
//! how many bytes of objects a master can load, whatever they are and whatever their order.
//!
//! The crate knows lengths alone, no objects and no master. It counts by the rule of a load: a head is closed once the
//! next object doesn't fit, and the next head opens only if two whole segments stay free.
#![tactic(auto)]

mod laws;
mod limits;
mod new_log;
mod sizes;

pub use laws::limits_hold;
pub use limits::{greatest_limit, is_limit};
pub use new_log::NewLog;
pub use sizes::Sizes;
