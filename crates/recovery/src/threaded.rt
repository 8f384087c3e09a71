//! Recovery by several workers.

ghost use Rattle.std.specs.Prelude.{◌≡◌, ◌≤◌, IfOk, IfErr, OnOk};
ghost use Rattle.claims.specs.division.Division.{AreCovered};
ghost use Rattle.claims.specs.Bags.{segments_bag};
ghost use Rattle.claims.specs.Rebuilt.{IsRebuilt};
ghost use Rattle.rebuilding.specs.Rebuilds.{IsRebuildFault, CanBeRebuilt, NamesEach, count_of};
ghost use Rattle.rebuilding.specs.Turns.{replayed};
ghost use Rattle.rebuilding.specs.Orders.{order_for};
ghost use Rattle.recovery.specs.Recovered.{IsSomePrefix, IsSomeLoss, IsRebuiltFrom, IsRefusedFrom};

use crate::recovery::RecoveryFault;
use claims::{Rebuilt, ReplayFault};
use gate::Gate;
use rebuilding::{GroupOrder, numbers_for};
use recovery_plan::{Plan, plan};
use replay::rebuild_threads;
use replica::Inventory;
use std::alloc::Global;
use std::sync::Wait;
use std::thread::Threads;
use tablet_will::Will;

/// Rebuilds the log of the plan by this many workers. The will divides it into groups, which are replayed in this
/// order.
fn rebuild_in_threads<R: Threads + Wait + Sync, G: Gate + Sync>(
    rt: &R,
    alloc: Global,
    plan: &Plan<'_>,
    will: &Will,
    order: &GroupOrder,
    workers: usize,
    gate: &G,
) -> Result<Rebuilt, ReplayFault>
    requires workers { (1 ≤ workers) × (workers ≤ 64) }
    ensures ok { IfOk result (IsRebuilt plan.now.segments plan.now.safe) }
    ensures turns { IfOk result (IsRebuilt
        (replayed plan.now.segments will.now (order_for plan.now will.now order.now)) plan.now.safe) }
    ensures covered { OnOk result (AreCovered will.now (segments_bag plan.now.segments)) }
    ensures order { OnOk result
        (NamesEach (count_of plan.now.segments will.now) (order_for plan.now will.now order.now)) }
    ensures fault { IfErr result (IsRebuildFault plan.now.segments will.now (order_for plan.now will.now order.now)) }
    ensures whole { IfErr result (λ fault.
        CanBeRebuilt plan.now.segments will.now (order_for plan.now will.now order.now) →
        fault ≡ ReplayFault.NoMemory) }
{
    match numbers_for(alloc, plan, will, order) {
        Ok(numbers) => rebuild_threads(rt, alloc, plan, will, numbers.as_slice(), workers, gate),
        Err(fault) => Err(fault),
    }
}

/// Recovers with 1 to 64 workers, each in a thread of its own, and promises what `recover` does. Each worker tells the
/// gate when it begins and when it ends.
pub fn recover_threads<R: Threads + Wait + Sync, G: Gate + Sync>(
    rt: &R,
    alloc: Global,
    inventory: &Inventory<'_>,
    master: u64,
    least: u64,
    will: &Will,
    order: &GroupOrder,
    workers: usize,
    gate: &G,
) -> Result<Rebuilt, RecoveryFault>
    // All clauses but `workers` are those of `recover`, word for word.
    requires workers { (1 ≤ workers) × (workers ≤ 64) }
    ensures ok { IfOk result (IsSomePrefix inventory.now least master) }
    ensures refused { IfErr result (IsSomeLoss inventory.now least master will.now order.now) }
    ensures rebuilt { IfOk result (IsRebuiltFrom inventory.now least master will.now order.now) }
    ensures fault { IfErr result (IsRefusedFrom inventory.now least master will.now order.now) }
{
    let plan = match plan(alloc, inventory, master, least) {
        Ok(plan) => plan,
        Err(fault) => return Err(RecoveryFault::Plan(fault)),
    };
    match rebuild_in_threads(rt, alloc, &plan, will, order, workers, gate) {
        Ok(rebuilt) => Ok(rebuilt),
        Err(fault) => Err(RecoveryFault::Replay(fault)),
    }
}
