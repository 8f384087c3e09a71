//! The places of tallies in a list by rising segment.

ghost use Rattle.std.specs.Prelude.{◌≡◌, ◌<◌, ◌≤◌, true, length, map, filter, not, IfSome, IfNone};
ghost use Rattle.std.specs.List.{AllByRecursion};
ghost use Rattle.compactor.specs.Kept.{has_id};
ghost use Rattle.tally.specs.declared.tallies.Tally.{Tally as TallyValue};
ghost use Rattle.tally.specs.Rows.{AreRising, IsPlaceOf, HasNo, staled, IsPlaceFor};

use crate::tallies::Tally;

/// Returns the place of the tally of a segment, or None if there is none. Looks at the last tally first, since that
/// is often the head's; else a binary search finds out.
#[inline]
pub(crate) fn place_of(rows: &[Tally], segment: u64) -> Option<usize>
    requires { AreRising rows.now }
    ensures found { IfSome result (IsPlaceOf rows.now segment) }
    ensures absent { IfNone result (HasNo segment rows.now) }
{
    place_near(rows, segment, rows.len().wrapping_sub(1))
}

/// Returns the place of the tally of a segment, or None if there is none. Looks first at a place where the tally may
/// be; else a binary search finds out.
#[inline]
pub(crate) fn place_near(rows: &[Tally], segment: u64, near: usize) -> Option<usize>
    requires { AreRising rows.now }
    ensures found { IfSome result (IsPlaceOf rows.now segment) }
    ensures absent { IfNone result (HasNo segment rows.now) }
{
    if is_at(rows, segment, near) {
        Some(near)
    } else {
        place_among(rows, segment)
    }
}

/// Returns true if the tally at a place is of this segment.
#[inline]
fn is_at(rows: &[Tally], segment: u64, at: usize) -> bool
    ensures { result ≡ true → IsPlaceOf rows.now segment at }
{
    at < rows.len() && rows[at].segment == segment
}

/// Returns the place of the tally of a segment, or None if there is none. A binary search finds out.
fn place_among(rows: &[Tally], segment: u64) -> Option<usize>
    requires { AreRising rows.now }
    ensures found { IfSome result (IsPlaceOf rows.now segment) }
    ensures absent { IfNone result (HasNo segment rows.now) }
{
    rows.binary_search_by_key(&segment, |row| row.segment).ok()
}

/// Returns the place where a tally of this segment belongs: after all tallies of lower segments.
pub(crate) fn place_for(rows: &[Tally], segment: u64) -> usize
    requires { AreRising rows.now }
    ensures { IsPlaceFor rows.now segment result }
{
    rows.partition_point(|row| row.segment <= segment)
}

/// Returns true if all tallies are of lower segments than this one.
pub(crate) fn is_above_all(rows: &[Tally], segment: u64) -> bool
    requires { AreRising rows.now }
    ensures { result ≡ true → AllByRecursion (λ (row : TallyValue). row.segment < segment) rows.now }
{
    rows.is_empty() || rows[rows.len() - 1].segment < segment
}

/// Takes out the tallies of victims.
pub(crate) fn take_out(rows: &mut Vec<Tally>, victims: &[u64])
    ensures { rows.new.items ≡ filter (λ (row : TallyValue). not (has_id victims.now row.segment)) rows.old.items }
{
    rows.retain(|row| !victims.contains(&row.segment));
}

/// Marks each tally with tombstones as no longer fresh.
pub(crate) fn stale(rows: &mut [Tally])
    ensures { rows.new ≡ map staled rows.old }
{
    for row in rows.iter_mut() {
        *row = row.staled();
    }
}
