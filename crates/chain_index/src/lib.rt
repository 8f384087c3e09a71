//! An index of chains: the second form of the index of a log.
//!
//! Its table consists of chains of places. The first three places of a chain lie in the table itself, and the others
//! in memory of their own. A look-up walks one chain, which has on average at most three places if memory sufficed to
//! grow. Once there are more than three keys for each chain, `grow` at least doubles the number of chains. It puts
//! each place into its new chain by the hash that is held with it, and reads no key. While a table grows, the old
//! table and the new one both take memory.
#![tactic(auto)]

mod chain;
mod front;
mod table;

pub use place_index::PlaceIndex;
pub use table::ChainTable;

/// A map from keys to places of a log, over chains.
pub type ChainIndex<H> = PlaceIndex<H, ChainTable>;
