//! The tests of a store and of its clients: days of its seats, each a table of what they ask, of what they are answered
//! and of how many takes that makes, failovers among them; days of a store that is renewed; days of a small master
//! whose clients and cleaner make their rounds and passes; that the mark waits for nobody, and that a call lets others
//! in between its pushes; and that stores, seats and receipts cross threads.
#![tactic(auto)]

mod crossing;

pub use crossing::crosses;

#[cfg(test)]
mod asks;
#[cfg(test)]
mod clients;
#[cfg(test)]
mod days;
#[cfg(test)]
mod guests;
#[cfg(test)]
mod marks;
#[cfg(test)]
mod masters;
#[cfg(test)]
mod renewals;
#[cfg(test)]
mod slow;
#[cfg(test)]
mod stores;
#[cfg(test)]
mod turns;
