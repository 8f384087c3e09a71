//! The replicas of the segments that a digest lists.

ghost use Rattle.std.specs.Prelude.{◌≡◌, ◌+◌, ◌<◌, length, slice_index, IfOk, IfErr};
ghost use Rattle.std.specs.Ordering.{nat_cmp};
ghost use Rattle.std.specs.BTreeMap.{get};
ghost use Rattle.entry.specs.View.{shown_digest, shown_ids};
ghost use Rattle.recovery_plan.specs.Looked.{without_last, IsFound, AreFound, IsLack};

use crate::fault::PlanFault;
use crate::usable::is_usable;
use entry::DigestRef;
use replica::Holding;
use std::alloc::Global;
use std::collections::BTreeMap;

// The best replica of the segment at this place of a digest, if it may be used.
fn found_at<'h, 'a>(
    best: &BTreeMap<u64, &'h Holding<'a>>,
    digest: &DigestRef<'_>,
    place: usize,
) -> Option<&'h Holding<'a>>
    requires { place < length (shown_ids digest.now) }
    ensures { IsFound (get nat_cmp best.now) (shown_digest digest.now) (slice_index (shown_ids digest.now) place)
        result }
{
    match best.get(&digest.id(place)) {
        Some(holding) if is_usable(*holding, digest.len(place)) => Some(*holding),
        _ => None,
    }
}

/// The best replica of each segment that a digest lists, except of the last one, which is the head itself.
pub(crate) fn others<'h, 'a>(
    alloc: Global,
    best: &BTreeMap<u64, &'h Holding<'a>>,
    digest: &DigestRef<'_>,
) -> Result<Vec<&'h Holding<'a>>, PlanFault>
    requires { 0 < length (shown_ids digest.now) }
    ensures found { IfOk result (λ others.
        AreFound (get nat_cmp best.now) (shown_digest digest.now) (without_last (shown_ids digest.now))
        others.items) }
    ensures fault { IfErr result (λ fault. IsLack (get nat_cmp best.now) (shown_digest digest.now) fault) }
{
    let mut others: Vec<&'h Holding<'a>> = Vec::new(alloc);
    for place in 0..digest.count() - 1 {
        match found_at(best, digest, place) {
            Some(holding) => others.push(holding)?,
            None => return Err(PlanFault::Missing(digest.id(place))),
        }
    }
    Ok(others)
}
