//! Why segments are refused.

ghost use Rattle.std.specs.Prelude.{Some};
ghost use Rattle.cleaner.specs.Texts.{pass_fault_text};

use std::error::Error;
use std::fmt;

/// Why a pass doesn't begin with some segments, or why a segment isn't compacted. The numbers are fixed.
#[derive(Clone, Copy, Debug, PartialEq, Eq)]
pub enum PassFault {
    /// 1: this segment isn't in the digest in force.
    NotInLog(u64),
    /// 2: this segment is the head, or the head that a roll is opening.
    IsHead(u64),
    /// 3: there are more than 32 segments.
    TooMany,
    /// 4: what the segments keep fills more than 4 survivors.
    TooMuch,
    /// 5: a pass is open.
    PassOpen,
    /// 6: there is no segment.
    NoVictims,
    /// 7: this segment is there twice.
    Twice(u64),
}

impl Error for PassFault {}

impl fmt::Display for PassFault {
    ghost output = { λ fault. Some (pass_fault_text fault) };

    fn fmt<W: fmt::Write>(&self, f: &mut fmt::Formatter<W>) -> fmt::Result {
        match self {
            PassFault::NotInLog(segment) => write!(f, "NotInLog {segment}"),
            PassFault::IsHead(segment) => write!(f, "IsHead {segment}"),
            PassFault::TooMany => write!(f, "TooMany"),
            PassFault::TooMuch => write!(f, "TooMuch"),
            PassFault::PassOpen => write!(f, "PassOpen"),
            PassFault::NoVictims => write!(f, "NoVictims"),
            PassFault::Twice(segment) => write!(f, "Twice {segment}"),
        }
    }
}
