//! The tests of fleets with files: one row of calls over such a fleet and over one in memory, a stop amid each call,
//! and a store whose lives follow one another.
//!
//! A test is a table of rows. A function owns one fleet at most and lends it to the next.
#![tactic(auto)]

#[cfg(test)]
mod alike;
#[cfg(test)]
mod calls;
#[cfg(test)]
mod left;
#[cfg(test)]
mod lives;
#[cfg(test)]
mod making;
