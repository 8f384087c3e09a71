//! The command line of the program: fourteen options that each take a number, and one that takes none. `options` reads
//! them from the words; its contract gives what they are set to, and when the words are refused. The crate uses `clap`
//! alone.
#![tactic(auto)]

mod flag_option;
mod help;
mod number_option;
mod reading;
mod settings;

pub use reading::options;
pub use settings::Options;
