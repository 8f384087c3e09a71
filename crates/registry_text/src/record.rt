//! What the frames of a registry say.

/// The count of frames that stands for all of them.
pub const ALL_FRAMES: u64 = u64::MAX;

/// The id of a journal that is lost.
pub const LOST: u64 = 0;

/// Which store a registry is of: a number of its own, and the options with which it was made.
#[derive(Drop)]
pub struct Fleet {
    pub id: u64,
    pub options: Vec<u64>,
}

/// What one frame of a registry says. The latest for a backup counts, and the latest master and format; of the raises
/// of one master the greatest.
#[derive(Clone, Copy)]
pub enum Record {
    /// The journal of a backup is the file with this id, and only its first `count` frames count. The id `LOST` says
    /// that there is none, and the count `ALL_FRAMES` that all frames count.
    Journal { backup: u64, id: u64, count: u64 },
    /// A recovery of a master may use no head below this one.
    Raise { master: u64, head: u64 },
    /// A recovery is for this master.
    Master(u64),
    /// The format of the store's log.
    Format(u64),
}
