//! Laws of a limit, for the proofs of callers.

ghost use Rattle.packing.specs.Laws.{LessIsLimit, TestedLimitLoads, WithinLimitLoads};

/// Objects within a limit can be loaded, whatever they are and whatever their order, with two whole segments to spare.
/// Each number below a limit is a limit.
pub fn limits_hold()
    ensures limit { WithinLimitLoads }
    ensures tested { TestedLimitLoads }
    ensures less { LessIsLimit }
{}
