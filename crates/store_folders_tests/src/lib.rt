//! The tests of a store in a folder: what its faults say, and a store that is made, found and mended in a folder of the
//! system.
#![tactic(auto)]

#[cfg(test)]
mod lived;
#[cfg(test)]
mod told;
