//! Why there is no will.

ghost use Rattle.std.specs.Prelude.{◌≡◌, Some};
ghost use Rattle.tablet_will.specs.declared.fault.WillFault.TheVariants as will_fault;
ghost use Rattle.tablet_will.specs.Texts.{will_fault_text};

use std::alloc::{AllocError, AllocFailed};
use std::error::Error;
use std::fmt;

/// Why there is no will: the first test that failed, or `NoMemory`. The numbers are fixed.
#[derive(Clone, Copy, Debug, PartialEq, Eq)]
pub enum WillFault {
    /// 1: there is no tablet, a tablet begins after its end, or the tablets are not sorted and disjoint.
    BadTablets,
    /// 2: the limit of bytes or the limit of objects is 0.
    BadLimits,
    /// 3: the sizes are not sorted by table and place, or the place of a size is in no tablet.
    StraySize,
    /// 4: memory ran out.
    NoMemory,
}

impl Error for WillFault {}

impl fmt::Display for WillFault {
    ghost output = { λ fault. Some (will_fault_text fault) };

    fn fmt<W: fmt::Write>(&self, f: &mut fmt::Formatter<W>) -> fmt::Result {
        f.write_str(match self {
            WillFault::BadTablets => "BadTablets",
            WillFault::BadLimits => "BadLimits",
            WillFault::StraySize => "StraySize",
            WillFault::NoMemory => "NoMemory",
        })
    }
}

impl From<AllocError> for WillFault {
    ghost from_gives = { λ _ e. e ≡ will_fault.NoMemory };

    fn from(_error: AllocError) -> WillFault {
        WillFault::NoMemory
    }
}

impl<T: Drop> From<AllocFailed<T>> for WillFault {
    ghost from_gives = { λ _ e. e ≡ will_fault.NoMemory };

    fn from(_error: AllocFailed<T>) -> WillFault {
        WillFault::NoMemory
    }
}
