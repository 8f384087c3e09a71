//! The places in the log to which an index leads, one for each key.
//!
//! An index holds each place with a hash of the key that stands there (`Held`). It holds no keys: the owner of the log
//! gives the key at a place (`Resolve`). The places are a map from keys if a key stands at each of them, and no key
//! stands at two (*AreKept*). `specs/Map.antt` says what such a map has (*found*) and how it changes (*IsSet*). Crates
//! above an index use the words of `specs/Relocation.antt` (*names*, *moved*, *goes_all*), which need no hash and no
//! order of the places. Laws tie these words to the map.
//!
//! An index hashes keys by a `KeyHash`; `KeyHasher` is the default. It keeps a piece of each hash (`piece`).
#![tactic(auto)]

mod hashing;
mod laws;
mod place;
mod resolve;

pub use hashing::{KeyHash, KeyHasher, Secret, piece};
pub use laws::{found_places_move, names_what_is_found, resolvers_agree};
pub use place::{Held, Place};
pub use resolve::{Resolve, stands};
