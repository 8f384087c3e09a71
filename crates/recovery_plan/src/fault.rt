//! Why there is no plan.

ghost use Rattle.std.specs.Prelude.{◌≡◌, Some};
ghost use Rattle.recovery_plan.specs.declared.fault.PlanFault.TheVariants as plan_fault;
ghost use Rattle.recovery_plan.specs.Texts.{plan_fault_text};

use std::alloc::{AllocError, AllocFailed};
use std::error::Error;
use std::fmt;

/// Why there is no plan.
#[derive(Clone, Copy, Debug, PartialEq, Eq)]
pub enum PlanFault {
    NoHead,
    /// The newest head, of which no replica is open.
    HeadClosed(u64),
    /// The lowest segment of the digest that is lost: no replica of it may be used.
    Missing(u64),
    /// The first bad replica: its backup, and its segment.
    BadReplica(u64, u64),
    NoMemory,
    /// The newest head, which is older than the least head that may be used.
    HeadTooOld(u64),
}

impl Error for PlanFault {}

impl fmt::Display for PlanFault {
    ghost output = { λ fault. Some (plan_fault_text fault) };

    fn fmt<W: fmt::Write>(&self, f: &mut fmt::Formatter<W>) -> fmt::Result {
        match self {
            PlanFault::NoHead => write!(f, "NoHead"),
            PlanFault::HeadClosed(segment) => write!(f, "HeadClosed {segment}"),
            PlanFault::Missing(segment) => write!(f, "Missing {segment}"),
            PlanFault::BadReplica(backup, segment) => write!(f, "BadReplica {backup} {segment}"),
            PlanFault::NoMemory => write!(f, "NoMemory"),
            PlanFault::HeadTooOld(segment) => write!(f, "HeadTooOld {segment}"),
        }
    }
}

impl From<AllocError> for PlanFault {
    ghost from_gives = { λ _ e. e ≡ plan_fault.NoMemory };

    fn from(_error: AllocError) -> PlanFault {
        PlanFault::NoMemory
    }
}

impl<T: Drop> From<AllocFailed<T>> for PlanFault {
    ghost from_gives = { λ _ e. e ≡ plan_fault.NoMemory };

    fn from(_error: AllocFailed<T>) -> PlanFault {
        PlanFault::NoMemory
    }
}
