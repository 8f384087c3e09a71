//! Tests the order in which groups are replayed, and the ids of the segments.

ghost use Rattle.std.specs.Prelude.{◌≡◌, IfErr, IfOk, OnOk};
ghost use Rattle.rebuilding.specs.Rebuilds.{AreApart, IsRebuildFault, NamesEach, count_of, ids_of};

use crate::ids::{id_at, twins};
use crate::naming::{Misnamed, check_naming};
use crate::want::want_of_memory;
use claims::ReplayFault;
use segment::SegmentRef;
use std::alloc::Global;
use tablet_will::Will;

/// Tests that no two segments have the same id. The order has to name each group.
fn check_ids(segments: &[SegmentRef<'_>], will: &Will, order: &[usize]) -> Result<(), ReplayFault>
    requires { NamesEach (count_of segments.now will.now) order.now }
    ensures ok { OnOk result (AreApart (ids_of segments.now)) }
    ensures fault { IfErr result (IsRebuildFault segments.now will.now order.now) }
{
    let _partitions = will.partitions();
    match twins(segments) {
        None => Ok(()),
        Some((first, _)) => Err(ReplayFault::Double(id_at(segments, first))),
    }
}

/// Tests that the order names each group of the segments once, and that no two segments have the same id, and answers
/// how many groups there are. It reads only the headers of the segments. For s segments and p partitions it takes s p
/// steps, and at most s s more if the segments' ids don't rise. If memory runs out, it reads the order up to four
/// times more.
pub fn check_order(
    alloc: Global,
    segments: &[SegmentRef<'_>],
    will: &Will,
    order: &[usize],
) -> Result<usize, ReplayFault>
    ensures count { IfOk result (λ count. count ≡ count_of segments.now will.now) }
    ensures order { OnOk result (NamesEach (count_of segments.now will.now) order.now) }
    ensures ids { OnOk result (AreApart (ids_of segments.now)) }
    ensures fault { IfErr result (IsRebuildFault segments.now will.now order.now) }
{
    let partitions = will.partitions() as usize;
    let Some(count) = segments.len().checked_mul(partitions) else {
        return Err(want_of_memory(segments, will, order));
    };
    match check_naming(alloc, count, order) {
        Ok(()) => {
            check_ids(segments, will, order)?;
            Ok(count)
        }
        Err(misnamed) => match misnamed {
            Misnamed::NoMemory => Err(want_of_memory(segments, will, order)),
            Misnamed::Stranger => Err(ReplayFault::Stranger),
            Misnamed::Twice(n) => Err(ReplayFault::Double(id_at(segments, n / partitions))),
            Misnamed::LeftOut(n) => Err(ReplayFault::MissingGroup(id_at(segments, n / partitions))),
        },
    }
}
