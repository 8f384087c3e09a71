//! Why a call is refused.

use thiserror::Error;

/// Why an image was not taken.
#[derive(Clone, Copy, Debug, PartialEq, Eq, Error)]
pub enum ImagesFault {
    #[error("too few seglets are free")]
    NoRoom,
    #[error("no memory")]
    NoMemory,
}
