//! The headline across a power cut: a master over files, and what the next start recovers of them.
//!
//! `run_file_drill` lets a master take any steps over files. Any device may fail at any call, and the power may be cut
//! amid any of them. Then the files are opened as a start opens them, and the master is recovered. Its contract is the
//! headline of `recovery`, word for word, for these files.
#![tactic(auto)]

mod drill;

pub use crash_fleet;
pub use drill::{FileDrill, FileDrillFault, run_file_drill};
