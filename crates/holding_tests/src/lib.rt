//! The test of how often a call of a store holds the lock. A store is taken apart, and a log that counts the holdings
//! is put around its state.
#![tactic(auto)]

#[cfg(test)]
mod counted;
#[cfg(test)]
mod holdings;
