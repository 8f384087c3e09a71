//! How many bytes of a closed segment are kept, and how far they fill survivors.

ghost use Rattle.std.specs.Prelude.{◌≡◌, ◌<◌, ◌≤◌, ◌^◌, true, Some, IfSome};
ghost use Rattle.cleaner.specs.Filling.{filled};
ghost use Rattle.cleaner.specs.KeptLengths.{segment_lengths};
ghost use Rattle.compactor.specs.Log.{ids_of_log};
ghost use Rattle.images.specs.Sorted.{segment_of};
ghost use Rattle.master_state.specs.Log.{log_set_ids};
ghost use Rattle.tally.specs.Fills.{kept_len};
ghost use Rattle.tally.specs.Live.{stone_bytes};

use crate::compacting::opening_id;
use cleaner::{Level, fill};
use compactor::{LogSet, kept_bytes};
use master_state::Core;
use segment::SegmentRef;
use tally::{Tally, stones_in};

/// Returns how many bytes of a closed segment's objects and tombstones are kept. The call looks at no entry if the
/// segment has a fresh tally.
pub(crate) fn kept_in(core: &Core, id: u64, segment: &SegmentRef<'_>, log: &LogSet<'_>) -> usize
    requires there { segment_of core.now.closed id ≡ Some segment.now }
    requires log { ids_of_log log.now ≡ log_set_ids core.now }
    ensures { result ≡ kept_len (log_set_ids core.now) core.now.index id segment.now }
{
    match tallied(core, id, segment, log) {
        Some(kept) => kept,
        None => kept_bytes(id, segment, &core.index, log),
    }
}

/// Returns how far survivors are filled after the kept entries of a closed segment. The call looks at no entry if the
/// segment has a fresh tally and all that is kept of it fits the survivor that is filled.
pub(crate) fn fill_with(core: &Core, id: u64, segment: &SegmentRef<'_>, level: Level) -> Level
    requires there { segment_of core.now.closed id ≡ Some segment.now }
    requires few { level.survivor < 4 }
    requires limit { level.len ≤ 2 ^ 24 }
    ensures filled { result ≡ filled core.now.config.segment level
        (segment_lengths (log_set_ids core.now) core.now.index id segment.now) }
    ensures limit { result.len ≤ 2 ^ 24 }
{
    let log = LogSet {
        closed: &core.closed,
        head: core.head.id(),
        new: opening_id(&core.head),
    };
    let limit = core.config.segment as usize;
    if let Some(kept) = tallied(core, id, segment, &log) {
        let len = level.len + kept;
        if len <= limit {
            return Level {
                survivor: level.survivor,
                len,
            };
        }
    }
    fill(id, segment, &core.index, &log, level, limit)
}

/// Returns how many bytes of a closed segment's objects and tombstones are kept, by its tally, or `None` if it has no
/// tally.
pub(crate) fn tallied(
    core: &Core,
    id: u64,
    segment: &SegmentRef<'_>,
    log: &LogSet<'_>,
) -> Option<usize>
    requires there { segment_of core.now.closed id ≡ Some segment.now }
    requires log { ids_of_log log.now ≡ log_set_ids core.now }
    ensures kept { IfSome result
        (λ kept. kept ≡ kept_len (log_set_ids core.now) core.now.index id segment.now) }
    ensures limit { IfSome result (λ kept. kept < 2 ^ 33) }
{
    match core.tallies.get(id) {
        Some(row) => Some(row.live as usize + stones_by(row, segment, log)),
        None => None,
    }
}

/// Returns how many bytes of a segment's tombstones are kept. If the tally is fresh it says so, and else the call reads
/// the segment.
fn stones_by(row: Tally, segment: &SegmentRef<'_>, log: &LogSet<'_>) -> usize
    requires { row.is_fresh ≡ true → row.stones ≡ stone_bytes (ids_of_log log.now) segment.now }
    ensures sum { result ≡ stone_bytes (ids_of_log log.now) segment.now }
    ensures limit { result < 2 ^ 32 }
{
    if row.is_fresh {
        row.stones as usize
    } else {
        stones_in(segment, log)
    }
}
