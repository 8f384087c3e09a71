//! The sizes that decide how a new log is laid out.

/// The sizes of a log, and of the memory of its master.
#[derive(Clone, Copy)]
pub struct Sizes {
    /// The bytes of a segment.
    pub segment: u64,
    /// The bytes of a seglet.
    pub seglet: u64,
    /// How many seglets of memory the master has.
    pub seglets: u64,
    /// The format of the log, 1 or 2.
    pub format: u64,
}
