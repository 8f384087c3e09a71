//! Rebuilds a log from its claims.

ghost use Rattle.std.specs.Prelude.{map, IfOk, IfErr, OnOk};
ghost use Rattle.claims.specs.Claims.{claimed};
ghost use Rattle.claims.specs.Settled.{AreRebuilt, AreCleanClaims, AreRefused};

use crate::claim::Claim;
use crate::fault::ReplayFault;
use crate::rebuilt::Rebuilt;
use crate::scanning::{safe_above, winners};
use entry::SafeVersion;
use std::alloc::Global;

/// Rebuilds what a log with these claims stands for, whatever their order. `recorded` is the safe version that the log
/// records. The claims are sorted in place. For n of them it takes n log n steps.
pub fn rebuilt_from(
    alloc: Global,
    recorded: SafeVersion,
    claims: &mut Vec<Claim<'_>>,
) -> Result<Rebuilt, ReplayFault>
    ensures ok { IfOk result (AreRebuilt (map claimed claims.old.items) recorded) }
    ensures clean { OnOk result (AreCleanClaims (map claimed claims.old.items)) }
    ensures err { IfErr result (AreRefused (map claimed claims.old.items)) }
{
    let safe = safe_above(recorded, claims.as_slice());
    claims.sort_unstable();
    let objects = winners(alloc, claims.as_slice())?;
    Ok(Rebuilt { objects, safe })
}
