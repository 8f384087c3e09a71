//! The places of a segment's entries in one partition, before a group is made of them.

/// The offsets of a partition's objects and tombstones in the segment's bytes, in order.
#[derive(Drop)]
pub(crate) struct Gathered {
    pub partition: u32,
    pub places: Vec<u32>,
}
