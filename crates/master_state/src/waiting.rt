//! Segments that left the log and whose replicas are to be freed.

/// A segment that left the log. Its replicas are freed one after the other, from number `freed` to `replicas` - 1.
#[derive(Clone, Copy)]
pub struct Waiting {
    /// The segment's id.
    pub segment: u64,
    /// How many replicas were freed. They are the first ones.
    pub freed: u32,
    /// How many replicas the segment has, those included that were freed.
    pub replicas: u32,
}
