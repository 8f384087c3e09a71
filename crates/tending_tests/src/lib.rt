//! The tests of a cleaner that makes a few steps at a time.
#![tactic(auto)]

#[cfg(test)]
mod commands;
#[cfg(test)]
mod counted;
#[cfg(test)]
mod masters;
#[cfg(test)]
mod rooms;
