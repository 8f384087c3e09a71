//! The steps of a master as a store makes them: a seat's command, and the turns of a cleaner.
//!
//! Each call makes at most one step of the master, and its contract says which one, by the master's own relations
//! (`specs/Turns.antt`). The crate stands on `master` alone. Nothing here waits.
#![tactic(auto)]

mod steps;
mod turn;

pub use master;
pub use steps::{apply_command, make_turn};
pub use turn::CleanTurn;
