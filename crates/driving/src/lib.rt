//! What drives a master over many steps: pushes until nothing waits, a whole roll, a command until its record is
//! durable, and a whole cleaning. The first two also drive a master that is loaded (`Driven`).
//!
//! Each contract says which steps were made, in which order, and with which refusal they stopped (`specs/`). No step
//! but these is made. The crate stands on `master`.
#![tactic(auto)]

mod driven;
mod pushing;
mod serving;
mod whole_pass;

pub use driven::Driven;
pub use master;
pub use master::master_core;
pub use pushing::{push_all, push_until, roll_all};
pub use serving::serve;
pub use whole_pass::clean_all;
