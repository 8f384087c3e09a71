//! A law about the steps of a master, for the proofs of callers.

ghost use Rattle.master.specs.Laws.{StuckHalts};

/// A push that may not open the new head of a failover answers that the master is halted, and nothing else.
pub fn stuck_push_halts()
    ensures { StuckHalts }
{}
