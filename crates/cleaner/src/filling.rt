//! How the kept entries of a segment fill survivors.

ghost use Rattle.std.specs.Prelude.{◌≡◌, ◌+◌, ◌-◌, ◌≤◌, ◌<◌, ◌^◌, length, sum_by, true};
ghost use Rattle.std.specs.List.{AllByRecursion};
ghost use Rattle.compactor.specs.Log.{ids_of_log};
ghost use Rattle.cleaner.specs.Filling.{filled};
ghost use Rattle.cleaner.specs.KeptLengths.{segment_lengths};
ghost use Rattle.cleaner.specs.Passes.{seen_len};
ghost use Rattle.cleaner.specs.Walks.{is_seen_kept, seen_lengths, IsShort};

use crate::ahead::{Seen, gather};
use crate::level::Level;
use crate::walking::next_data;
use arrayvec::ArrayVec;
use compactor::LogSet;
use hash_index::{Held, Index, Place};
use segment::SegmentRef;

/// Returns true if the object or tombstone at a place is kept. `is_first` is what `is_kept_first` returned for it.
fn is_kept(seen: Seen, place: Place, is_first: bool, index: &Index, log: &LogSet<'_>) -> bool
    requires { is_first ≡ true → is_seen_kept (ids_of_log log.now) index.now.held place seen ≡ true }
    ensures { result ≡ is_seen_kept (ids_of_log log.now) index.now.held place seen }
{
    match seen {
        Seen::Object(hash, _) => is_first || index.holds(Held { hash, place }),
        Seen::Tombstone(segment, _) => log.has(segment),
    }
}

/// Returns true if the index finds the object at a place where it looks first (`holds_first`); false for a tombstone.
fn is_kept_first(seen: Seen, place: Place, index: &Index, log: &LogSet<'_>) -> bool
    ensures { result ≡ true → is_seen_kept (ids_of_log log.now) index.now.held place seen ≡ true }
{
    match seen {
        Seen::Object(hash, _) => index.holds_first(Held { hash, place }),
        Seen::Tombstone(..) => false,
    }
}

/// Returns the level after the kept ones among these entries of a segment. The entries follow one another, and `end`
/// is the offset behind the last one. Looks into the bucket of each hash before it recurses, so that the cache misses
/// overlap. Looks further afterwards for the objects that it didn't find there.
fn fill_seen(
    seen: &[Seen],
    end: usize,
    id: u64,
    index: &Index,
    log: &LogSet<'_>,
    from: Level,
    limit: usize,
) -> Level
    requires end { sum_by seen_len seen.now ≤ end }
    requires short { AllByRecursion IsShort seen.now }
    requires few { from.survivor + length seen.now < 2 ^ 32 }
    requires from { from.len ≤ 2 ^ 24 }
    requires limit { limit ≤ 8388608 }
    ensures filled { result ≡ filled limit from
        (seen_lengths (ids_of_log log.now) index.now.held id (end - sum_by seen_len seen.now) seen.now) }
    ensures few { result.survivor ≤ from.survivor + length seen.now }
    ensures limit { result.len ≤ 2 ^ 24 }
{
    let Some((last, before)) = seen.split_last() else {
        return from;
    };
    let at = end - last.len();
    let place = Place { segment: id, at };
    let is_first = is_kept_first(*last, place, index, log);
    let level = fill_seen(before, at, id, index, log, from, limit);
    if is_kept(*last, place, is_first, index, log) {
        level.with(last.len(), limit)
    } else {
        level
    }
}

/// Returns the level after a segment's kept objects and tombstones, in their order, fill survivors of at most `limit`
/// bytes from a level on. Copies nothing.
pub fn fill(
    id: u64,
    segment: &SegmentRef<'_>,
    index: &Index,
    log: &LogSet<'_>,
    from: Level,
    limit: usize,
) -> Level
    requires few { from.survivor < 4 }
    requires from { from.len ≤ 2 ^ 24 }
    requires limit { limit ≤ 8388608 }
    ensures filled { result ≡ filled limit from
        (segment_lengths (ids_of_log log.now) index.now.held id segment.now) }
    ensures limit { result.len ≤ 2 ^ 24 }
{
    let mut level = from;
    let mut at = 0;
    while let Some(start) = next_data(segment, at) {
        let mut seen = ArrayVec::new();
        at = gather(segment, start, index, &mut seen);
        level = fill_seen(seen.as_slice(), at, id, index, log, level, limit);
    }
    level
}
