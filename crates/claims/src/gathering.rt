//! The claims of a log or of a group, in the order in which they come.

ghost use Rattle.std.specs.Prelude.{◌≡◌, ◌++◌, map, IfOk, OnOk, OnErr};
ghost use Rattle.claims.specs.Claims.{claimed, claims_of};
ghost use Rattle.claims.specs.Bags.{segments_bag};

use crate::claim::Claim;
use division::GroupEntries;
use entry::NoMemory;
use segment::SegmentRef;
use std::alloc::Global;

/// The claims of the segments' objects and tombstones, in their order.
pub fn claims_in<'a>(alloc: Global, segments: &[SegmentRef<'a>]) -> Result<Vec<Claim<'a>>, NoMemory>
    ensures { IfOk result (λ claims. map claimed claims.items ≡ claims_of (segments_bag segments.entry.now)) }
{
    let mut claims = Vec::new(alloc);
    for segment in segments {
        for entry in segment.entries() {
            if let Some(claim) = Claim::of(&entry) {
                if claims.push(claim).is_err() {
                    return Err(NoMemory);
                }
            }
        }
    }
    Ok(claims)
}

/// Appends the claims of the entries. If memory runs out, nothing changes.
pub fn add_claims<'a>(
    claims: &mut Vec<Claim<'a>>,
    entries: &GroupEntries<'a>,
) -> Result<(), NoMemory>
    ensures ok { OnOk result (
        map claimed claims.new.items ≡ map claimed claims.old.items ++ claims_of entries.now) }
    ensures err { OnErr result (claims.new.items ≡ claims.old.items) }
{
    claims.reserve(entries.len())?;
    for entry in entries.iter() {
        if let Some(claim) = Claim::of(&entry) {
            claims.push_reserved(claim);
        }
    }
    Ok(())
}
