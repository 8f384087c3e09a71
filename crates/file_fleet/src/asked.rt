//! A fault that is asked for.

ghost use Rattle.std.specs.Prelude.{◌≡◌, ◌<◌, ◌+◌, true, false};
ghost use Rattle.replica.specs.Take.{no_limit};

use replica::{Act, Holding, Op, TakeFault};

/// A fault that is asked for: of which take from now, 1 for the next one, and whether its op is taken. With 0 there is
/// none.
#[derive(Clone, Copy)]
pub(crate) struct Asked {
    takes: u64,
    taken: bool,
}

/// Whether a fault that is asked for comes in a take and loses its op.
#[derive(Clone, Copy)]
pub(crate) enum Lost {
    No,
    Yes,
    /// Memory ran out.
    Unknown,
}

impl Asked {
    /// No fault.
    pub(crate) fn nothing() -> Asked {
        Asked {
            takes: 0,
            taken: false,
        }
    }

    /// A fault in this take from now.
    pub(crate) fn fault(takes: u64, taken: bool) -> Asked {
        Asked { takes, taken }
    }

    /// Whether the next take, unless it is refused, ends in the fault and isn't taken. No fault comes if there were
    /// too many to count another.
    pub(crate) fn loses_next(&self, faults: u64) -> bool
        ensures { result ≡ true → faults < no_limit }
    {
        self.takes == 1 && !self.taken && faults < u64::MAX
    }

    /// The fault comes, and is counted. Its op wasn't taken.
    pub(crate) fn fail(&mut self, faults: &mut u64) -> TakeFault
        requires { faults.old < no_limit }
        ensures fault { result ≡ TakeFault.Fault }
        ensures counted { faults.new ≡ faults.old + 1 }
    {
        self.takes = 0;
        *faults += 1;
        TakeFault::Fault
    }

    /// A take was taken. The answer is whether it ends in the fault, which is counted then.
    pub(crate) fn ends_in_fault(&mut self, faults: &mut u64) -> bool
        ensures counted { result ≡ true → faults.new ≡ faults.old + 1 }
        ensures same { result ≡ false → faults.new ≡ faults.old }
    {
        let is_due = self.takes == 1 && self.taken && *faults < u64::MAX;
        self.takes = self.takes.saturating_sub(1);
        if is_due {
            *faults += 1;
        }
        is_due
    }
}

/// Whether an op fits what a backup holds.
pub(crate) fn fits(held: &[Holding<'_>], op: &Op<'_>) -> bool {
    for holding in held {
        if holding.master == op.master && holding.segment == op.segment {
            return match op.act {
                Act::Open(_) | Act::Seal(_) => false,
                Act::Extend { at, .. } => {
                    holding.is_open && holding.bytes.as_slice().len() == at
                }
                Act::Close => holding.is_open,
                Act::Free => true,
            };
        }
    }
    match op.act {
        Act::Open(_) | Act::Seal(_) => true,
        _ => false,
    }
}
