//! Laws about the pushes of an open failover, for the proofs of callers.

ghost use Rattle.master_failover.specs.Laws.{MendLowers, TurnLowers};

/// Each push of a failover lowers the number of pushes that the failover still needs. Putting the new head doesn't
/// raise this number.
pub fn pushes_lower()
    ensures mends { MendLowers }
    ensures turns { TurnLowers }
{}
