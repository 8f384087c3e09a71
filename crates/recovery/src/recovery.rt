//! Recovery from the replicas that are left, and from nothing else.

ghost use Rattle.std.specs.Prelude.{◌≡◌, IfOk, IfErr, OnOk, Some};
ghost use Rattle.entry.specs.Meaning.{IsClean, among};
ghost use Rattle.claims.specs.division.Division.{AreCovered};
ghost use Rattle.claims.specs.Bags.{segments_bag};
ghost use Rattle.claims.specs.Rebuilt.{IsRebuilt};
ghost use Rattle.rebuilding.specs.Rebuilds.{IsRebuildFault, CanBeRebuilt, NamesEach, count_of};
ghost use Rattle.rebuilding.specs.Turns.{replayed};
ghost use Rattle.rebuilding.specs.Orders.{order_for};
ghost use Rattle.recovery.specs.Recovered.{IsSomePrefix, IsSomeLoss, IsRebuiltFrom, IsRefusedFrom};
ghost use Rattle.recovery.specs.Texts.{recovery_fault_text};

use claims::{Rebuilt, ReplayFault};
use rebuilding::{GroupOrder, numbers_for, rebuild};
use recovery_plan::{Plan, PlanFault, plan};
use replica::Inventory;
use std::alloc::Global;
use std::error::Error;
use std::fmt;
use tablet_will::Will;

/// Why nothing was recovered.
#[derive(Debug, Drop)]
pub enum RecoveryFault {
    Plan(PlanFault),
    Replay(ReplayFault),
}

impl Error for RecoveryFault {}

impl fmt::Display for RecoveryFault {
    ghost output = { λ fault. Some (recovery_fault_text fault) };

    fn fmt<W: fmt::Write>(&self, f: &mut fmt::Formatter<W>) -> fmt::Result {
        match self {
            RecoveryFault::Plan(fault) => write!(f, "{fault}"),
            RecoveryFault::Replay(fault) => write!(f, "{fault}"),
        }
    }
}

/// Rebuilds the log of the plan. The will divides its segments into groups, which are replayed in this order. If a
/// `usize` can't hold the number of groups, the call is refused as if memory ran out.
fn rebuild_in(
    alloc: Global,
    plan: &Plan<'_>,
    will: &Will,
    order: &GroupOrder,
) -> Result<Rebuilt, ReplayFault>
    ensures ok { IfOk result (IsRebuilt plan.now.segments plan.now.safe) }
    ensures turns { IfOk result (IsRebuilt
        (replayed plan.now.segments will.now (order_for plan.now will.now order.now)) plan.now.safe) }
    ensures covered { OnOk result (AreCovered will.now (segments_bag plan.now.segments)) }
    ensures order { OnOk result
        (NamesEach (count_of plan.now.segments will.now) (order_for plan.now will.now order.now)) }
    ensures fault { IfErr result (IsRebuildFault plan.now.segments will.now (order_for plan.now will.now order.now)) }
    ensures whole { IfErr result (λ fault.
        CanBeRebuilt plan.now.segments will.now (order_for plan.now will.now order.now) →
        fault ≡ ReplayFault.NoMemory) }
{
    match numbers_for(alloc, plan, will, order) {
        Ok(numbers) => rebuild(alloc, plan, will, numbers.as_slice()),
        Err(fault) => Err(fault),
    }
}

/// Rebuilds the objects of a master, and a safe version for what follows, from what some backups hold. `least` is the
/// lowest number of a head that may be used. The will says how each segment is divided into groups, and the order in
/// which turn the groups are replayed. The call is refused for a loss, for want of memory, for a will that leaves out
/// a key of the log, for an order that doesn't name each group once, or for replicas that no master left.
pub fn recover(
    alloc: Global,
    inventory: &Inventory<'_>,
    master: u64,
    least: u64,
    will: &Will,
    order: &GroupOrder,
) -> Result<Rebuilt, RecoveryFault>
    // The inventory may show what some backups still hold of any sound state of the master. Whatever the will and the
    // order, the result is exactly the map after a prefix of that state's commands, with each durable command in it.
    ensures ok { IfOk result (IsSomePrefix inventory.now least master) }
    // If the will covers the tablets and the order names each group once, a fault for such a state names a lost head
    // or segment, or memory ran out. If the newest head and the segments survive, only want of memory refuses.
    ensures refused { IfErr result (IsSomeLoss inventory.now least master will.now order.now) }
    // For any inventory: the result, or the fault, follows from the inventory, the will and the order.
    ensures rebuilt { IfOk result (IsRebuiltFrom inventory.now least master will.now order.now) }
    ensures fault { IfErr result (IsRefusedFrom inventory.now least master will.now order.now) }
{
    let plan = match plan(alloc, inventory, master, least) {
        Ok(plan) => plan,
        Err(fault) => return Err(RecoveryFault::Plan(fault)),
    };
    match rebuild_in(alloc, &plan, will, order) {
        Ok(rebuilt) => Ok(rebuilt),
        Err(fault) => Err(RecoveryFault::Replay(fault)),
    }
}
