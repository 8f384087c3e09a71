//! Which fault is answered if memory runs out. A fault that shows without memory goes before NoMemory.

ghost use Rattle.std.specs.Prelude.{◌≡◌, ◌*◌, ◌<◌, ◌≤◌, ℕ, List, true, false};
ghost use Rattle.entry.specs.Bag.{IsAmong};
ghost use Rattle.rebuilding.specs.Rebuilds.{IsRebuildFault, count_of};
ghost use Rattle.rebuilding.specs.Turns.{NamesAll};

use crate::ids::{id_at, twins};
use claims::ReplayFault;
use segment::SegmentRef;
use tablet_will::Will;

/// Whether the order has a number that no group of these segments has. The groups are not counted, since a `usize` may
/// not hold their number.
fn has_stranger(order: &[usize], segments: usize, partitions: usize) -> bool
    requires { 0 < partitions }
    ensures yes { result ≡ true → (n : ℕ) × IsAmong n order.now × (segments * partitions ≤ n) }
    ensures no { result ≡ false → (n : ℕ) → IsAmong n order.now → n < segments * partitions }
{
    for n in order {
        if *n / partitions >= segments {
            return true;
        }
    }
    false
}

/// Whether the order names the first group of the segment at this place.
fn names_first(order: &[usize], at: usize, partitions: usize) -> bool
    requires { 0 < partitions }
    ensures yes { result ≡ true → IsAmong (at * partitions) order.now }
    ensures no { result ≡ false → ¬ IsAmong (at * partitions) order.now }
{
    for n in order {
        if *n / partitions == at && *n % partitions == 0 {
            return true;
        }
    }
    false
}

/// The fault of a rebuild for which memory ran out: a Stranger, if the order has one; a Double, if the order names the
/// first groups of two segments with the same id; else NoMemory.
pub fn want_of_memory(segments: &[SegmentRef<'_>], will: &Will, order: &[usize]) -> ReplayFault
    ensures { IsRebuildFault segments.now will.now order.now result }
{
    let partitions = will.partitions() as usize;
    if has_stranger(order, segments.len(), partitions) {
        return ReplayFault::Stranger;
    }
    let Some((first, second)) = twins(segments) else {
        return ReplayFault::NoMemory;
    };
    if !names_first(order, first, partitions) {
        return ReplayFault::NoMemory;
    }
    if !names_first(order, second, partitions) {
        return ReplayFault::NoMemory;
    }
    ReplayFault::Double(id_at(segments, first))
}

/// The fault if memory ran out and the order names each group: a Double, if two segments have the same id; else
/// NoMemory.
pub fn want_of_whole(segments: &[SegmentRef<'_>], will: &Will) -> ReplayFault
    ensures { (order : List ℕ) → NamesAll (count_of segments.now will.now) order →
        IsRebuildFault segments.now will.now order result }
{
    let _partitions = will.partitions();
    match twins(segments) {
        Some((first, _)) => ReplayFault::Double(id_at(segments, first)),
        None => ReplayFault::NoMemory,
    }
}
