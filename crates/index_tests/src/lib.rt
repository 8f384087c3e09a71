//! The tests of the index of a log, over buckets and over chains.
//!
//! What a test does is generic over the table. `keys` is a log of made-up places, which tells the key that stands at
//! each. `plain` compares an index with the plain one, which is a list, and `each` has each call once. `one_hash` has
//! keys that fall together, `growth` an index that grows and shrinks, and `secrets` the hashes of keys.
#![tactic(auto)]

#[cfg(test)]
mod each;
#[cfg(test)]
mod growth;
#[cfg(test)]
mod keys;
#[cfg(test)]
mod one_hash;
#[cfg(test)]
mod plain;
#[cfg(test)]
mod secrets;
