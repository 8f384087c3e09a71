//! Why a registry's file wasn't opened or written.

use thiserror::Error;

/// Why a registry's file wasn't opened or written.
#[derive(Clone, Copy, Debug, PartialEq, Eq, Error)]
pub enum RegistryFault {
    /// Memory ran out, or there are 2^16 options or more.
    #[error("no memory")]
    NoMemory,
    /// The first text doesn't begin with the version of this format.
    #[error("the file has another version")]
    OtherVersion,
    /// The file has no first text. So nothing that stands in it was ever acknowledged.
    #[error("the file was not begun")]
    NotBegun,
    /// The file is damaged from this byte on. No crash can have left it.
    #[error("the file is damaged at byte {0}")]
    Damaged(usize),
    /// The text of this number, counted from 0, is no record's, or the first text names no store. No crash can have
    /// left the file.
    #[error("frame {0} is no record")]
    WrongRecord(usize),
    /// The file has 2^60 bytes.
    #[error("the journal is full")]
    Full,
    /// The device failed, or the registry is out.
    #[error("the disk failed")]
    Failed,
}
