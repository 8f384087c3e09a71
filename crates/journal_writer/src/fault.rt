//! Why the program ends before its input does.

use disk_file::OpenError;
use std::alloc::AllocError;
use std::io;
use take_journal::{JournalFault, OpenFault};
use thiserror::Error;

/// Why the program ends before its input does. No text that was acknowledged is lost.
#[derive(Clone, Copy, Debug, Drop, Error)]
pub enum Fault {
    #[error("files 1: another process has the folder")]
    InUse,
    #[error("files 3: the journal has another version")]
    OtherVersion,
    #[error("files 6: the journal is damaged at byte {0}")]
    Damaged(usize),
    #[error("files 7: input or output failed: {0}")]
    Failed(io::Error),
    #[error("files 7: the journal takes no more")]
    Full,
    #[error("no memory")]
    NoMemory,
    #[error("the words are FOLDER NAME, or FOLDER NAME TEXTS BYTES")]
    Misuse,
}

impl Fault {
    /// The exit status.
    pub fn status(&self) -> u8 {
        match self {
            Fault::NoMemory => 1,
            Fault::Misuse => 2,
            _ => 3,
        }
    }
}

impl From<OpenError> for Fault {
    fn from(error: OpenError) -> Fault {
        match error {
            OpenError::InUse => Fault::InUse,
            OpenError::OutOfMemory => Fault::NoMemory,
            OpenError::Missing => Fault::Failed(io::ErrorKind::NotFound.into()),
            OpenError::Present => Fault::Failed(io::ErrorKind::AlreadyExists.into()),
            OpenError::OtherKind(_) => Fault::Failed(io::ErrorKind::Unsupported.into()),
            OpenError::Failed(error) => Fault::Failed(error),
        }
    }
}

impl From<io::Error> for Fault {
    fn from(error: io::Error) -> Fault {
        match error.kind() {
            io::ErrorKind::OutOfMemory => Fault::NoMemory,
            _ => Fault::Failed(error),
        }
    }
}

impl From<AllocError> for Fault {
    fn from(_error: AllocError) -> Fault {
        Fault::NoMemory
    }
}
