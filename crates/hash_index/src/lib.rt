//! The index of a log: a map from each key to the place of its object in the log.
//!
//! The index holds no keys. With each place it holds a piece of the hash of the key there, and the owner of the log
//! gives the key at each place (`Resolve`). The places are in buckets of 128 bytes. A bucket has up to eight places in
//! slots, with an array for each field: first the tags, which are 16 bits of the piece, then the offsets with the
//! other nine bits, then the segments. Other places overflow into a list, of which each bucket has its own. A look-up
//! takes a piece of hash and reads one bucket. It reads a key only where the whole piece agrees.
//!
//! The table grows bucket by bucket. A new bucket takes its places from one other bucket, by their pieces, so that no
//! key is read. A call of `grow` adds at most one bucket, and an allocation takes memory for 64 buckets.
//!
//! `get`, `set`, `remove` and `move_to` take a key. A caller that looked a key up, or that moves objects within the
//! log, knows the key's hash and place: `insert`, `relocate`, `take_out` and `holds` take these two, and read no key.
#![tactic(auto)]

mod address;
mod blocks;
mod bucket;
mod dividing;
mod near;
mod overflow;
mod packed;
mod slots;
mod table;

pub use place_index::PlaceIndex;
pub use places::{Held, KeyHash, KeyHasher, Place, Resolve, Secret};
pub use table::BucketTable;

/// A map from keys to places of a log, over buckets.
pub type Index<H = KeyHasher> = PlaceIndex<H, BucketTable>;
