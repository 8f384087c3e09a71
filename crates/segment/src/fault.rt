//! Why a call is refused.

ghost use Rattle.std.specs.Prelude.{◌≡◌};
ghost use Rattle.segment.specs.declared.fault.SegmentFault.TheVariants as segment_fault;
ghost use Rattle.segment.specs.declared.fault.AppendFault.TheVariants as append_fault;

use std::alloc::AllocError;
use thiserror::Error;

/// Why a reader gives no segment: the first test that the bytes fail, or `NoMemory` if they fail none. An offset counts
/// the bytes before it.
#[derive(Clone, Copy, Debug, PartialEq, Eq, Error)]
pub enum SegmentFault {
    #[error("no entry can be read at offset {0}")]
    BadEntry(usize),
    #[error("the order of the entries fails at offset {0}")]
    BadOrder(usize),
    #[error("a segment has at most 8388608 bytes")]
    TooLong,
    #[error("no memory")]
    NoMemory,
}

impl From<AllocError> for SegmentFault {
    ghost from_gives = { λ _ e. e ≡ segment_fault.NoMemory };

    fn from(_error: AllocError) -> SegmentFault {
        SegmentFault::NoMemory
    }
}

/// Why nothing was appended.
#[derive(Clone, Copy, Debug, PartialEq, Eq, Error)]
pub enum AppendFault {
    #[error("the segment is full")]
    Full,
    #[error("no memory")]
    NoMemory,
}

impl From<AllocError> for AppendFault {
    ghost from_gives = { λ _ e. e ≡ append_fault.NoMemory };

    fn from(_error: AllocError) -> AppendFault {
        AppendFault::NoMemory
    }
}
