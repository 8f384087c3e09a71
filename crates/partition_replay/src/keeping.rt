//! The claims of a group, beside what is kept of the groups before.

ghost use Rattle.std.specs.Prelude.{◌≡◌, ◌∷◌, [], ℕ, ◌≤◌, not, filter, map, IfOk, IfErr, OnOk};
ghost use Rattle.std.specs.HashMap.{hash_map_len, spare};
ghost use Rattle.std.specs.Option.{option_copied};
ghost use Rattle.entry.specs.Bag.{IsAmong};
ghost use Rattle.entry.specs.declared.key.Key.{Key};
ghost use Rattle.claims.specs.Claims.{Claimed, claimed, claims_of};
ghost use Rattle.claims.specs.declared.claim.Claim.{Claim as ClaimValue};
ghost use Rattle.claims.specs.Placed.{placed_key};
ghost use Rattle.partition_replay.specs.Keeping.{kept_at, kept_in, IsKept, IsAbove, DoesClash, AddsTops, IsUnkept};
ghost use Rattle.partition_replay.specs.Keeping.{PassAbove, ClashAbove};

use crate::kept::{Keeping, Kept};
use claims::{Claim, PlacedKey, ReplayFault};
use division::GroupEntries;
use entry::NoMemory;
use std::alloc::Global;

/// What is kept of the key: in `fresh` if it has the key, and else in `kept`, which is of the groups before.
fn kept_of<'k, 'a>(
    fresh: &'k Keeping<'a>,
    kept: &'k Keeping<'a>,
    key: &PlacedKey<'a>,
) -> Option<&'k Kept<'a>>
    ensures { option_copied result ≡ kept_in fresh.now.entries kept.now.entries (placed_key key.now) }
{
    match fresh.get(key) {
        Some(found) => Some(found),
        None => kept.get(key),
    }
}

/// Whether the claim ranks above what is kept of its key.
fn is_above<'a>(
    fresh: &Keeping<'a>,
    kept: &Keeping<'a>,
    claim: &Claim<'a>,
) -> Result<bool, ReplayFault>
    ensures ok { IfOk result
        (IsAbove (kept_in fresh.now.entries kept.now.entries (placed_key claim.now.key)) (claimed claim.now)) }
    ensures clash { IfErr result (λ fault. (fault ≡ ReplayFault.Clash)
        × DoesClash (kept_in fresh.now.entries kept.now.entries (placed_key claim.now.key)) (claimed claim.now)) }
{
    match kept_of(fresh, kept, &claim.key) {
        Some(found) => found.is_below(claim),
        None => Ok(true),
    }
}

/// Keeps the claim in `fresh`, if it ranks above what is kept of its key.
fn keep<'a>(
    fresh: &mut Keeping<'a>,
    kept: &Keeping<'a>,
    claim: &Claim<'a>,
) -> Result<(), ReplayFault>
    ensures ok { OnOk result (AddsTops (kept_in fresh.old.entries kept.now.entries) (claimed claim.now ∷ [])
        (kept_in fresh.new.entries kept.now.entries)) }
    ensures calm { OnOk result
        (DoesClash (kept_in fresh.old.entries kept.now.entries (placed_key claim.now.key)) (claimed claim.now) → ⊥) }
    ensures err { IfErr result (IsUnkept (kept_in fresh.old.entries kept.now.entries) (claimed claim.now ∷ [])) }
    ensures clash { IfErr result (λ fault. fault ≡ ReplayFault.Clash →
        DoesClash (kept_in fresh.old.entries kept.now.entries (placed_key claim.now.key)) (claimed claim.now)) }
{
    if !is_above(fresh, kept, claim)? {
        return Ok(());
    }
    match fresh.insert(claim.key, Kept::of(claim)) {
        Ok(_) => Ok(()),
        Err(_) => Err(ReplayFault::NoMemory),
    }
}

/// What is to be kept of these entries, in place of what is kept of their keys so far.
pub fn gather<'a>(
    alloc: Global,
    kept: &Keeping<'a>,
    entries: &GroupEntries<'a>,
) -> Result<Keeping<'a>, ReplayFault>
    ensures ok { IfOk result (λ fresh. AddsTops
        (kept_at kept.now.entries) (claims_of entries.now) (kept_in fresh.entries kept.now.entries)) }
    ensures passed { OnOk result (PassAbove (kept_at kept.now.entries) entries.now) }
    ensures err { IfErr result (IsUnkept (kept_at kept.now.entries) (claims_of entries.now)) }
    ensures clash { IfErr result (λ fault. fault ≡ ReplayFault.Clash →
        ClashAbove (kept_at kept.now.entries) entries.now) }
{
    let mut fresh = Keeping::with_capacity(alloc, entries.len())?;
    for entry in entries.iter() {
        if let Some(claim) = Claim::of(&entry) {
            keep(&mut fresh, kept, &claim)?;
        }
    }
    Ok(fresh)
}

/// Puts what is in `fresh` into what is kept. There has to be room for it.
pub fn put<'a>(kept: &mut Keeping<'a>, fresh: Keeping<'a>)
    requires { hash_map_len fresh ≤ spare kept.old }
    ensures { (k : Key) → kept_at kept.new.entries k ≡ kept_in fresh.entry.entries kept.old.entries k }
{
    for (key, latest) in fresh {
        match kept.insert(key, latest) {
            Ok(_) => {}
            Err(_) => unreachable!(),
        }
    }
}

/// The claims that are kept.
pub fn kept_claims<'a>(alloc: Global, kept: &Keeping<'a>) -> Result<Vec<Claim<'a>>, NoMemory>
    ensures only { IfOk result (λ claims.
        (c : Claimed) → IsAmong c (map claimed claims.items) → IsKept (kept_at kept.now.entries) c) }
    ensures each { IfOk result (λ claims.
        (c : Claimed) → IsKept (kept_at kept.now.entries) c → IsAmong c (map claimed claims.items)) }
{
    let mut claims = Vec::with_capacity(alloc, kept.len())?;
    for (key, latest) in kept {
        if claims.push(latest.to_claim(*key)).is_err() {
            return Err(NoMemory);
        }
    }
    Ok(claims)
}

/// Leaves out the claims of tombstones.
pub fn drop_dead(claims: &mut Vec<Claim<'_>>)
    ensures { claims.new.items ≡ filter (λ (c : ClaimValue). not c.dead) claims.old.items }
{
    claims.retain(|claim| !claim.dead);
}
