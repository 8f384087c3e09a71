//! Why a backup's file wasn't opened or written.

use thiserror::Error;

/// Why a backup's file wasn't opened or written.
#[derive(Clone, Copy, Debug, PartialEq, Eq, Error)]
pub enum BackupFault {
    /// Memory ran out, or a text has 2^32 bytes or more.
    #[error("no memory")]
    NoMemory,
    /// The first text doesn't begin with the version of this format.
    #[error("the file has another version")]
    OtherVersion,
    /// The file has no first text.
    #[error("the file was not begun")]
    NotBegun,
    /// The file is damaged from this byte on. No crash can have left it.
    #[error("the file is damaged at byte {0}")]
    Damaged(usize),
    /// The text of this number, counted from 0, is no op's, or its op doesn't fit. No crash can have left the file.
    #[error("frame {0} does not fit")]
    WrongFrame(usize),
    /// The file has 2^60 bytes.
    #[error("the journal is full")]
    Full,
    /// The device failed.
    #[error("the disk failed")]
    Failed,
}
