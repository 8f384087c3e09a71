//! What a plan consists of.

use entry::{Row, SafeVersion};
use segment::SegmentRef;

/// The segments of a log, in the digest's order. Their bytes stay with the backups. A contract sees a list of lists of
/// entries.
pub type Segments<'a> = Row<SegmentRef<'a>>;

/// The segments of the newest digest, and the safe version that its head recorded.
#[derive(Drop)]
pub struct Plan<'a> {
    pub segments: Segments<'a>,
    pub safe: SafeVersion,
}
