//! The tests of scripts: the options, clients, and faults of reading and of writing. Whole scripts are in `examples/`.
#![tactic(auto)]

#[cfg(test)]
mod clients;
#[cfg(test)]
mod faults;
#[cfg(test)]
mod options;
#[cfg(test)]
mod scripts;
