//! Which listed segment is lost, found without memory.

ghost use Rattle.std.specs.Prelude.{◌↔◌, ◌<◌, length, slice_index, IsTrue};
ghost use Rattle.entry.specs.View.{shown_digest, shown_ids};
ghost use Rattle.recovery_plan.specs.Lost.{HasReplica, IsFirstLostOf};

use crate::usable::is_usable;
use entry::DigestRef;
use replica::Holding;

// Whether some replica of the master may be used for the segment at this place of a digest.
fn has_replica(holdings: &[Holding<'_>], master: u64, digest: &DigestRef<'_>, place: usize) -> bool
    requires { place < length (shown_ids digest.now) }
    ensures { IsTrue result ↔
        HasReplica holdings.now master (shown_digest digest.now) (slice_index (shown_ids digest.now) place) }
{
    let id = digest.id(place);
    let len = digest.len(place);
    for holding in holdings {
        if holding.master == master && holding.segment == id && is_usable(holding, len) {
            return true;
        }
    }
    false
}

/// The first id of a digest, except the last one, of which no replica may be used. It takes no memory, and walks all
/// replicas for each id.
pub(crate) fn first_missing(
    holdings: &[Holding<'_>],
    master: u64,
    digest: &DigestRef<'_>,
) -> Option<u64>
    requires { 0 < length (shown_ids digest.now) }
    ensures { IsFirstLostOf holdings.now master (shown_digest digest.now) result }
{
    for place in 0..digest.count() - 1 {
        if !has_replica(holdings, master, digest, place) {
            return Some(digest.id(place));
        }
    }
    None
}
