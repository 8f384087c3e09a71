//! A log that is rebuilt as a whole.

ghost use Rattle.std.specs.Prelude.{IfOk, IfErr, OnOk};
ghost use Rattle.entry.specs.Meaning.{IsClean, among};
ghost use Rattle.claims.specs.Bags.{segments_bag};
ghost use Rattle.claims.specs.Rebuilt.{IsRebuilt, IsRefusal};

use claims::{Rebuilt, ReplayFault, claims_in, rebuilt_from};
use recovery_plan::Plan;
use std::alloc::Global;

/// Rebuilds the objects that the plan's segments mean, in memory of their own. Two values of one key and version are a
/// Clash, even if a later version covers them. For n entries it takes n log n steps.
pub fn rebuild_plain(alloc: Global, plan: &Plan<'_>) -> Result<Rebuilt, ReplayFault>
    ensures ok { IfOk result (IsRebuilt plan.now.segments plan.now.safe) }
    ensures clean { OnOk result (IsClean (among (segments_bag plan.now.segments))) }
    ensures err { IfErr result (IsRefusal plan.now.segments) }
{
    let mut claims = claims_in(alloc, plan.segments.as_slice())?;
    rebuilt_from(alloc, plan.safe, &mut claims)
}
