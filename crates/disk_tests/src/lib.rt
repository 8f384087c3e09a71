//! The tests of backups on disk: journals on devices that stop at each of their calls, and files that are damaged.
//!
//! A test is a table of rows. A function owns one journal at most and lends it to the next.
#![tactic(auto)]

#[cfg(test)]
mod damaged;
#[cfg(test)]
mod stopped;
