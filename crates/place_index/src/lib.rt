//! An index over any table of places.
//!
//! `PlaceIndex` is a map from keys to places of a log. It hashes keys by a `KeyHash`, and keeps the places in a
//! `Table`, which knows places and hashes and no keys. A place for which the table gets no memory waits in a list, so
//! that a change can't fail. `run` carries out a list of calls, over an index with any table.
//!
//! `PlaceList` is the plainest table: a list, which each look-up walks.
#![tactic(auto)]

mod call;
mod index;
mod keyed;
mod list;
mod running;
mod table;
mod walk;

pub use call::{MapAnswer, MapCall};
pub use index::PlaceIndex;
pub use list::PlaceList;
pub use running::run;
pub use table::Table;
pub use walk::{first_slot, is_place_of, is_same_held, slot_at, slot_of};
