//! The tests of backups that outlive their process: the texts of ops and of a registry, and backups and registries
//! whose device stops at each of its calls.
//!
//! A test is a table of rows. A function owns one backup at most and lends it to the next.
#![tactic(auto)]

#[cfg(test)]
mod copied;
#[cfg(test)]
mod fleet;
#[cfg(test)]
mod kept;
#[cfg(test)]
mod memories;
#[cfg(test)]
mod recorded;
#[cfg(test)]
mod spelled;
#[cfg(test)]
mod stopped;
