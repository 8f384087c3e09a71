//! What a run of the program is set to.

/// What the options are set to.
#[derive(Clone, Copy, PartialEq, Eq)]
pub struct Options {
    /// How many backups the fleet has. From 1 to 64, 3 by default.
    pub backups: u64,
    /// How many replicas a segment has, each on a backup of its own. From 1 to 64, 2 by default.
    pub replicas: u64,
    /// How many backups lie from the first replica of a segment to that of the next. From 1 to 64, 1 by default.
    pub step: u64,
    /// The length of a segment, in bytes. From 512 to 8388608, 512 by default.
    pub segment: u64,
    /// The length of a seglet, in bytes: memory is counted in these. From 64 to 65536, 64 by default.
    pub seglet: u64,
    /// The master's memory, in seglets. From 4 to 4294967296, 64 by default.
    pub seglets: u64,
    /// How many tables there are, numbered from 1, each one whole tablet. From 1 to 64, 4 by default.
    pub tables: u64,
    /// The most records of a history, one for each accepted command. From 1 to 1048576, 1048576 by default.
    pub history: u64,
    /// The most bytes of a partition of a will. From 1 to 4294967296, 1048576 by default.
    pub bytes: u64,
    /// The most objects of a partition of a will. From 1 to 4294967296, 1000000 by default.
    pub objects: u64,
    /// The format of the log. 1 or 2, 1 by default.
    pub format: u64,
    /// The most bytes of one object: 23 and those of its key and its value. A put of a longer one is refused as TooBig.
    /// From 24 to 8388608. By default it is 18446744073709551615, which sets no limit beside the quarter of a segment.
    pub largest: u64,
    /// The most bytes that puts make of all live objects together, each counted as above. A put that would make them
    /// more is refused as Overcommit. From 0 to 281474976710656. 0 stands for the greatest limit under which a new
    /// master can always load the table. By default it is 18446744073709551615, which sets no limit.
    pub live: u64,
    /// The most steps that the cleaner makes behind each command that may change the map. With 0 it makes none. From 0
    /// to 65536, 0 by default.
    pub tend: u64,
    /// Whether a master forgets its durable records, by blocks of 1,024. It doesn't by default.
    pub forget: bool,
}
