//! The ids of a log's segments.

ghost use Rattle.std.specs.Prelude.{◌≡◌, ◌≢◌, ◌<◌, ◌≤◌, ℕ, length, slice_index, IfNone, IfSome};
ghost use Rattle.rebuilding.specs.Rebuilds.{AreApart, ids_of};
ghost use Rattle.rebuilding.specs.Turns.{AreTwins};

use segment::SegmentRef;

/// The id of the segment at this place.
pub fn id_at(segments: &[SegmentRef<'_>], at: usize) -> u64
    requires { at < length segments.now }
    ensures { result ≡ slice_index (ids_of segments.now) at }
{
    segments[at].header().segment
}

/// The place of the first segment with this id, among the first `count` segments.
fn place_of(segments: &[SegmentRef<'_>], count: usize, id: u64) -> Option<usize>
    requires { count ≤ length segments.now }
    ensures some { IfSome result (λ place. (place < count) × (slice_index (ids_of segments.now) place ≡ id)) }
    ensures none { IfNone result ((i : ℕ) → i < count → slice_index (ids_of segments.now) i ≢ id) }
{
    for place in 0..count {
        if id_at(segments, place) == id {
            return Some(place);
        }
    }
    None
}

/// The places of two segments that have the same id. It takes no memory, and compares an id with those before it only
/// if it is not the greatest so far.
pub fn twins(segments: &[SegmentRef<'_>]) -> Option<(usize, usize)>
    ensures some { IfSome result (λ places. AreTwins (ids_of segments.now) places.0 places.1) }
    ensures none { IfNone result (AreApart (ids_of segments.now)) }
{
    let mut greatest = 0;
    for at in 0..segments.len() {
        let id = id_at(segments, at);
        if id > greatest {
            greatest = id;
        } else if let Some(first) = place_of(segments, at, id) {
            return Some((first, at));
        }
    }
    None
}
