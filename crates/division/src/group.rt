//! What a segment has in one partition of a will.

use crate::placed::GroupEntries;

/// The objects and tombstones of one segment whose keys are in one partition, in the order of the segment. They lie in
/// the segment's bytes: the group keeps their places there, which are 4 bytes an entry.
#[derive(Drop)]
pub struct Group<'a> {
    /// The id of the segment.
    pub segment: u64,
    pub partition: u32,
    pub entries: GroupEntries<'a>,
}
