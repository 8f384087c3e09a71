//! The order in which the groups of a log are replayed.

ghost use Rattle.std.specs.Prelude.{◌≡◌, IfErr, IfOk};
ghost use Rattle.std.specs.List.{range_with_len};
ghost use Rattle.rebuilding.specs.Orders.{order_for, order_of};
ghost use Rattle.rebuilding.specs.Rebuilds.{CanBeRebuilt, IsRebuildFault, count_of};

use crate::want::{want_of_memory, want_of_whole};
use claims::ReplayFault;
use entry::{NoMemory, Row};
use recovery_plan::Plan;
use segment::SegmentRef;
use std::alloc::Global;
use tablet_will::Will;

/// The order in which the groups of a log are replayed. Groups are counted from 0: segment by segment, and of one
/// segment by partition.
#[derive(Drop)]
pub enum GroupOrder {
    /// The groups come as they are counted.
    Forward,
    /// The last group comes first.
    Reverse,
    /// The groups come as these numbers say. A recovery refuses an order that leaves a group out, or names one twice.
    Given(Row<usize>),
}

/// The numbers from 0 to `count` - 1.
fn counted(alloc: Global, count: usize) -> Result<Vec<usize>, NoMemory>
    ensures { IfOk result (λ numbers. numbers.items ≡ range_with_len 0 count) }
{
    (0..count).collect(alloc)
}

/// The numbers of `count` groups, in this order. With Given they are the given ones, however many there are.
pub fn numbers(alloc: Global, order: &GroupOrder, count: usize) -> Result<Vec<usize>, NoMemory>
    ensures { IfOk result (λ numbers. numbers.items ≡ order_of order.now count) }
{
    match order {
        GroupOrder::Forward => counted(alloc, count),
        GroupOrder::Reverse => {
            let mut numbers = counted(alloc, count)?;
            numbers.reverse();
            Ok(numbers)
        }
        GroupOrder::Given(given) => Ok(Vec::from_slice(alloc, given.as_slice())?),
    }
}

/// The fault if there is no memory to write the numbers of an order out. With Given it is the fault that the numbers
/// show without memory. Otherwise it is a Double if two segments have the same id, and else NoMemory.
fn unwritten(segments: &[SegmentRef<'_>], will: &Will, order: &GroupOrder) -> ReplayFault
    ensures { IsRebuildFault segments.now will.now (order_of order.now (count_of segments.now will.now)) result }
{
    match order {
        GroupOrder::Given(given) => want_of_memory(segments, will, given.as_slice()),
        GroupOrder::Forward => want_of_whole(segments, will),
        GroupOrder::Reverse => want_of_whole(segments, will),
    }
}

/// The numbers of the groups of a plan that is divided by the will, in this order. If a `usize` can't hold the number
/// of groups, the call is refused as if memory ran out. A fault of the order or of the ids that shows without memory
/// goes before NoMemory.
pub fn numbers_for(
    alloc: Global,
    plan: &Plan<'_>,
    will: &Will,
    order: &GroupOrder,
) -> Result<Vec<usize>, ReplayFault>
    ensures ok { IfOk result (λ numbers. numbers.items ≡ order_for plan.now will.now order.now) }
    ensures fault { IfErr result (IsRebuildFault plan.now.segments will.now (order_for plan.now will.now order.now)) }
    ensures whole { IfErr result (λ fault.
        CanBeRebuilt plan.now.segments will.now (order_for plan.now will.now order.now) →
        fault ≡ ReplayFault.NoMemory) }
{
    let segments = plan.segments.as_slice();
    let Some(count) = segments.len().checked_mul(will.partitions() as usize) else {
        return Err(unwritten(segments, will, order));
    };
    match numbers(alloc, order, count) {
        Ok(numbers) => Ok(numbers),
        Err(_) => Err(unwritten(segments, will, order)),
    }
}
