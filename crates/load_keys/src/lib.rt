//! Which keys the calls of a load touch, and what the calls are.
//!
//! `Words` gives pseudorandom words of a seed. `Keys` draws keys below a bound: uniformly, by Zipf's law over scrambled
//! keys, or the latest keys by Zipf's law. `Load` names the core loads A, B, C, D and F of the Yahoo Cloud Serving
//! Benchmark and the load W of updates alone, and says which call a drawn percent stands for. All arithmetic is of
//! whole numbers, so a seed gives the same calls on each machine.
//!
//! The crate stands on nothing.
#![tactic(auto)]

mod keys;
mod load;
mod words;
mod zipf;

pub use keys::{Keys, Spread};
pub use load::{Act, Load};
pub use words::{Words, mixed};
pub use zipf::Zipf;
