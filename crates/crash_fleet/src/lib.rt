//! A fleet with files whose power may be cut.
#![tactic(auto)]

mod fleet;
mod image;
mod opening;
mod power;
mod reading;
mod same;

pub use fleet::CrashFleet;
pub use image::CrashImage;
