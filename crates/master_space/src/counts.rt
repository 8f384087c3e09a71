//! What a core has counted of its segments.

ghost use Rattle.std.specs.Prelude.{◌≡◌, List, length, Some, IfSome};
ghost use Rattle.std.specs.Option.{option_map};
ghost use Rattle.compactor.specs.Log.{ids_of_log};
ghost use Rattle.entry.specs.declared.entry.Entry.{Entry};
ghost use Rattle.entry.specs.Text.{text_of};
ghost use Rattle.images.specs.Sorted.{segment_of};
ghost use Rattle.master_space.specs.Choosing.{kept_bytes};
ghost use Rattle.master_state.specs.Invariant.{AreTallied, IsCore};
ghost use Rattle.master_state.specs.Log.{images_of, log_set_ids};
ghost use Rattle.tally.specs.Live.{live_bytes, stone_bytes};
ghost use Rattle.tally.specs.Opening.{front_of};
ghost use Rattle.tally.specs.Rows.{IsRight};

use crate::compacting::opening_id;
use crate::keeping::kept_in;
use compactor::{LogSet, kept_bytes};
use master_state::Core;
use segment::SegmentRef;
use tally::{Tally, opening_len, stones_in};

/// Returns how many bytes of a closed segment's objects and tombstones are kept, or `None` if no closed segment has
/// this id. The call looks at no entry if the segment has a fresh tally.
pub fn kept_bytes_of(core: &Core, id: u64) -> Option<usize>
    ensures { result ≡ option_map (λ (es : List Entry). kept_bytes core.now id) (segment_of core.now.closed id) }
{
    let log = LogSet {
        closed: &core.closed,
        head: core.head.id(),
        new: opening_id(&core.head),
    };
    match core.closed.get(id) {
        None => None,
        Some(image) => Some(kept_in(core, id, &image, &log)),
    }
}

/// Returns how many bytes the image of a closed segment has, or `None` if no closed segment has this id.
pub fn image_len_of(core: &Core, id: u64) -> Option<usize>
    ensures { result ≡ option_map (λ (es : List Entry). length (text_of es)) (segment_of core.now.closed id) }
{
    match core.closed.get(id) {
        None => None,
        Some(image) => Some(image.bytes().len()),
    }
}

/// Returns how many bytes the image of a closed segment has before its first object or tombstone, or `None` if no
/// closed segment has this id.
pub fn opening_len_of(core: &Core, id: u64) -> Option<usize>
    ensures { result ≡ option_map (λ (es : List Entry). length (text_of (front_of es)))
        (segment_of core.now.closed id) }
{
    match core.closed.get(id) {
        None => None,
        Some(image) => Some(opening_len(&image)),
    }
}

/// Counts a closed segment anew, so that its tally is fresh. The call reads the whole segment. It looks into the index
/// only if the segment has no tally. Without memory the segment may stay without a tally.
pub fn recount(core: &mut Core, id: u64)
    ensures same { core.new ≡ core.old }
    ensures valid { IsCore core.new }
{
    core.show_valid();
    let Some((live, stones)) = counted(core, id) else {
        return;
    };
    core.tallies.put(id, live, stones);
}

/// Returns what is counted of a segment, or `None` if it has no tally.
pub fn tally_of(core: &Core, id: u64) -> Option<Tally>
    ensures { IfSome result (λ row. (row.segment ≡ id)
        × IsRight (log_set_ids core.now) core.now.index (images_of core.now) row) }
{
    core.tallies.get(id)
}

/// Returns what is counted of segments, by rising id.
pub fn tallies_of(core: &Core) -> &[Tally]
    ensures { AreTallied core.entry.now result.now }
{
    core.tallies.as_slice()
}

/// Returns how many bytes a closed segment's live objects and its kept tombstones have, or `None` if no closed segment
/// has this id.
fn counted(core: &Core, id: u64) -> Option<(usize, usize)>
    ensures live { IfSome result (λ both. both.0 ≡ live_bytes core.now.index id (images_of core.now id)) }
    ensures stones { IfSome result (λ both. both.1 ≡ stone_bytes (log_set_ids core.now) (images_of core.now id)) }
{
    let log = LogSet {
        closed: &core.closed,
        head: core.head.id(),
        new: opening_id(&core.head),
    };
    match core.closed.get(id) {
        None => None,
        Some(image) => {
            let stones = stones_in(&image, &log);
            Some((live_in(core, id, &image, &log, stones), stones))
        }
    }
}

/// Returns how many bytes a closed segment's live objects have. So many bytes of its tombstones are kept.
fn live_in(core: &Core, id: u64, segment: &SegmentRef<'_>, log: &LogSet<'_>, stones: usize) -> usize
    requires there { segment_of core.now.closed id ≡ Some segment.now }
    requires log { ids_of_log log.now ≡ log_set_ids core.now }
    requires stones { stones ≡ stone_bytes (log_set_ids core.now) segment.now }
    ensures { result ≡ live_bytes core.now.index id segment.now }
{
    match core.tallies.get(id) {
        Some(row) => row.live as usize,
        None => kept_bytes(id, segment, &core.index, log).saturating_sub(stones),
    }
}
