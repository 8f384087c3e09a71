//! Why a folder or a file wasn't opened.

use std::alloc::AllocError;
use std::io;
use thiserror::Error;

/// Why a folder or a file wasn't opened. Nothing was written to a file that was there.
#[derive(Clone, Copy, Debug, Drop, Error)]
pub enum OpenError {
    /// Another process has the folder, or another part of this one.
    #[error("another process has the folder")]
    InUse,
    /// There is no folder or file of this name.
    #[error("it isn't there")]
    Missing,
    /// A file of this name is there already.
    #[error("it is there already")]
    Present,
    /// Something else has this name.
    #[error("it isn't a {0}")]
    OtherKind(&'static str),
    /// A call of the system failed: this is its error.
    #[error("{0}")]
    Failed(io::Error),
    #[error("out of memory")]
    OutOfMemory,
}

impl From<io::Error> for OpenError {
    fn from(error: io::Error) -> OpenError {
        match error.kind() {
            io::ErrorKind::NotFound => OpenError::Missing,
            io::ErrorKind::AlreadyExists => OpenError::Present,
            io::ErrorKind::OutOfMemory => OpenError::OutOfMemory,
            _ => OpenError::Failed(error),
        }
    }
}

impl From<AllocError> for OpenError {
    fn from(_error: AllocError) -> OpenError {
        OpenError::OutOfMemory
    }
}
