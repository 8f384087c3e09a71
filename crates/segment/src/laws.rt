//! A law about faults, for the proofs of callers.

ghost use Rattle.segment.specs.Faults.{FaultsAreOne};

/// Any bytes have at most one fault.
pub fn one_fault()
    ensures { FaultsAreOne }
{}
