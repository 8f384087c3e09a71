//! Places in the log, and places as an index holds them.

/// A place in the log, where an entry lies.
#[derive(Clone, Copy, Default)]
pub struct Place {
    /// The id of the segment.
    pub segment: u64,
    /// The offset of the entry in the segment's image, in bytes.
    pub at: usize,
}

/// A place as an index holds it: with the hash of the key that stands there.
#[derive(Clone, Copy, Default)]
pub struct Held {
    /// The piece of the key's hash that the index keeps.
    pub hash: u64,
    pub place: Place,
}
