//! Finds the last claim of each key in sorted claims.

ghost use Rattle.std.specs.Prelude.{◌≡◌, max, map, true, false, All, IfOk, IfErr, OnOk};
ghost use Rattle.entry.specs.Format.{IsObject};
ghost use Rattle.claims.specs.Claims.{claimed, bound_of_claims, has_clash, is_last, next_clashes};
ghost use Rattle.claims.specs.Claims.{objects_in, tops, IsRefusedFor};

use crate::claim::Claim;
use crate::fault::ReplayFault;
use crate::growing::Growing;
use crate::objects::Objects;
use entry::SafeVersion;
use std::alloc::Global;

/// The least safe version that is not below `safe`, and is above the version of each claim.
pub fn safe_above(safe: SafeVersion, claims: &[Claim<'_>]) -> SafeVersion
    ensures { result ≡ max safe (bound_of_claims (map claimed claims.now)) }
{
    let mut greatest = safe;
    for claim in claims {
        let above = claim.version.safe_above();
        if greatest < above {
            greatest = above;
        }
    }
    greatest
}

/// Returns true if no claim comes next or the next claim is of another key. The fault is Clash if the next claim
/// clashes with this one.
#[inline]
pub fn is_last(claim: &Claim<'_>, later: &[Claim<'_>]) -> Result<bool, ReplayFault>
    ensures last { IfOk result (λ last. last ≡ is_last (claimed claim.now) (map claimed later.now)) }
    ensures clean { OnOk result (next_clashes (claimed claim.now) (map claimed later.now) ≡ false) }
    ensures clash { IfErr result (λ fault.
        (fault ≡ ReplayFault.Clash) × (next_clashes (claimed claim.now) (map claimed later.now) ≡ true)) }
{
    match later.first() {
        Some(next) if claim.clashes(next) => Err(ReplayFault::Clash),
        Some(next) => Ok(claim.key != next.key),
        None => Ok(true),
    }
}

/// Returns the objects among the last claims of the keys in sorted claims, in memory of their own. The fault is Clash
/// if a claim clashes with the next one, or NoMemory.
pub fn winners(alloc: Global, claims: &[Claim<'_>]) -> Result<Objects, ReplayFault>
    ensures objects { IfOk result (λ objects. objects ≡ objects_in (tops (map claimed claims.now))) }
    ensures valid { IfOk result (λ objects. All IsObject objects) }
    ensures clean { OnOk result (has_clash (map claimed claims.now) ≡ false) }
    ensures err { IfErr result (IsRefusedFor (has_clash (map claimed claims.now))) }
{
    let mut objects = Growing::new(alloc);
    let mut left = claims;
    while let [claim, rest @ ..] = left {
        let last = is_last(claim, rest)?;
        if last && !claim.dead {
            objects.push(&claim.object())?;
        }
        left = rest;
    }
    Ok(objects.finish()?)
}
