//! The calls of an index as values, and their answers.

use entry::Key;
use places::Place;

/// A call of a map from keys to places of a log.
#[derive(Drop)]
pub enum MapCall {
    /// Asks for the key's place.
    Get(Key),
    /// Makes this the place of the key, whether or not the key had one.
    Set(Key, Place),
    /// Removes the key, and asks for the place that it had.
    Remove(Key),
    /// Makes this the place of the key if the key has one.
    MoveTo(Key, Place),
}

/// The answer to a call of a map.
#[derive(Clone, Copy)]
pub enum MapAnswer {
    /// The answer to `Get` and `Remove`: the place that the key had before the call.
    Found(Option<Place>),
    /// The answer to `Set`.
    Set,
    /// The answer to `MoveTo`: true if the key had a place.
    Moved(bool),
}
