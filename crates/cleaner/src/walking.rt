//! How a cursor moves to the next object or tombstone.

ghost use Rattle.std.specs.Prelude.{◌≡◌, ◌≤◌, length, drop, IsSome};
ghost use Rattle.std.specs.List.{AllByRecursion};
ghost use Rattle.entry.specs.Text.{text_of, is_data, IsSegment};
ghost use Rattle.entry.specs.View.{shown};
ghost use Rattle.images.specs.Sorted.{segment_of};
ghost use Rattle.cleaner.specs.Passes.{images_in};
ghost use Rattle.cleaner.specs.Walks.{IsBetween, IsPositionBetween, FindsData, GoesOn};

use entry::EntryRef;
use images::Images;
use segment::SegmentRef;

/// Where a cursor stands.
#[derive(Clone, Copy)]
pub(crate) struct WalkPosition {
    /// Which victim, counted from 0 in the given order. Behind the last victim it is the number of victims.
    pub victim: usize,
    /// The offset in its image, in bytes.
    pub at: usize,
}

/// Returns true if the entry is an object or a tombstone.
fn is_data(entry: &EntryRef<'_>) -> bool
    ensures { result ≡ is_data (shown entry.now) }
{
    matches!(entry, EntryRef::Object(_) | EntryRef::Tombstone(_))
}

/// Returns the offset of the first object or tombstone of a segment from an offset on; `None` if there is none.
pub(crate) fn next_data(segment: &SegmentRef<'_>, from: usize) -> Option<usize>
    requires { IsBetween segment.now from }
    ensures finds { FindsData segment.now from result }
    ensures valid { IsSegment segment.now }
    ensures limit { length (text_of segment.now) ≤ 8388608 }
{
    let text = segment.bytes();
    let mut at = from;
    while at < text.len() {
        let Ok((entry, taken)) = EntryRef::read(&text[at..]) else {
            unreachable!()
        };
        if is_data(&entry) {
            return Some(at);
        }
        at += taken;
    }
    None
}

/// Returns the position of the first object or tombstone from a position on. If there is none, returns the position
/// behind the last victim.
pub(crate) fn next_position(victims: &[u64], images: &Images, from: WalkPosition) -> WalkPosition
    requires there { AllByRecursion (λ s. IsSome (segment_of images.now.images s)) victims.now }
    requires within { from.victim ≤ length victims.now }
    requires between { IsPositionBetween (images_in images.now.images) (drop from.victim victims.now) from.at }
    ensures { GoesOn (images_in images.now.images) victims.now from result }
{
    let mut position = from;
    while position.victim < victims.len() {
        let Some(segment) = images.get(victims[position.victim]) else {
            unreachable!()
        };
        if let Some(at) = next_data(&segment, position.at) {
            return WalkPosition { at, ..position };
        }
        position = WalkPosition {
            victim: position.victim + 1,
            at: 0,
        };
    }
    position
}
