//! Laws of a limit of live bytes, for the proofs of callers.

ghost use Rattle.adoptable.specs.Laws.{AdoptedKeepsLimit, NewKeepsLimit, RunKeepsLimit, StepKeepsLimit};
ghost use Rattle.adoptable.specs.Laws.{DrilledFit, LivesKeepLimit, MoreAdmits, RecoveredFits};
ghost use Rattle.adoptable.specs.Laws.{RecoveriesFit, WithinIsAdopted};

use replica::Fleet;

/// A master that begins within its limit keeps it: a new one, one that adopted a table within the limit, and each of
/// them after any steps.
pub fn limits_are_kept()
    ensures new { NewKeepsLimit }
    ensures step { StepKeepsLimit }
    ensures run { RunKeepsLimit }
    ensures adopted { AdoptedKeepsLimit }
{}

/// From a start that keeps its limit, whatever lives are lived, the master that goes on keeps the limit, and no
/// adoption is refused for the table. It is refused as Full, Halted or SegmentsSpent only if a take of it ended in a
/// fault, as Spent only by a spent fleet, and as NoMemory if memory of the process ran out.
pub fn recoveries_fit()
    ensures more { MoreAdmits }
    ensures recovered { RecoveredFits }
    ensures within { WithinIsAdopted }
    ensures lives { LivesKeepLimit }
    ensures fit { RecoveriesFit }
{}

/// The same is true of whatever `recovery::run_lives` hands back.
pub fn drilled_fit<F: Fleet>()
    ensures { DrilledFit F.state }
{}
