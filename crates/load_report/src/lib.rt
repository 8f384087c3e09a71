//! What a load leaves behind: how long its calls took, and the lines of a trace.
//!
//! `Latencies` counts calls by how long they took, and answers percentiles that are at most one part in 32 above the
//! true ones. `Lines` is text that is written word by word, as the lines of a trace that `bin/linearizable` reads.
//!
//! The crate knows no store: of the crates below it uses the refusals of memory alone.
#![tactic(auto)]

mod latencies;
mod lines;

pub use latencies::Latencies;
pub use lines::Lines;
