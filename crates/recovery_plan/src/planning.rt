//! The plan of a recovery.

ghost use Rattle.std.specs.Prelude.{◌≡◌, ℕ, IfOk, IfErr};
ghost use Rattle.replica.specs.declared.holding.Holding.{Holding};
ghost use Rattle.replica.specs.Choice.{IsUsableHead};
ghost use Rattle.recovery_plan.specs.Planned.{IsPlan, IsHeadTaken, IsPlanFault, IsLaterFault, IsFoundFault, NamesLoss};

use crate::chosen::Plan;
use crate::fault::PlanFault;
use crate::finding::newest_head;
use crate::head::Head;
use crate::listed::others;
use crate::missing::first_missing;
use crate::preferred::best_replicas;
use crate::reading::segments_of;
use replica::{Holding, Inventory};
use std::alloc::Global;

// The plan with what is found of each listed segment. It asks for memory before each is looked up.
fn found_plan<'h, 'a>(
    alloc: Global,
    holdings: &'h [Holding<'a>],
    master: u64,
    head: &Head<'h, 'a>,
) -> Result<Plan<'a>, PlanFault>
    requires { IsHeadTaken holdings.now master head.now }
    ensures ok { (least : ℕ) → IsUsableHead least head.now.segment →
        IfOk result (IsPlan holdings.entry.now least master) }
    ensures fault { (least : ℕ) → IsUsableHead least head.now.segment →
        IfErr result (λ fault. IsFoundFault holdings.entry.now least master fault) }
{
    let (digest, safe) = head.opening();
    let best = best_replicas(alloc, holdings, master)?;
    let mut chosen = match others(alloc, &best, &digest) {
        Ok(others) => others,
        Err(fault) => return Err(fault),
    };
    chosen.push(head.replica())?;
    match segments_of(alloc, chosen) {
        Ok(segments) => Ok(Plan { segments, safe }),
        Err(_) => Err(PlanFault::NoMemory),
    }
}

// The fault if memory ran out: Missing if a listed segment is lost, and else NoMemory.
fn want(holdings: &[Holding<'_>], master: u64, head: &Head<'_, '_>) -> PlanFault
    requires { IsHeadTaken holdings.now master head.now }
    ensures { (least : ℕ) → IsUsableHead least head.now.segment →
        IsLaterFault holdings.now least master result }
{
    let (digest, _) = head.opening();
    match first_missing(holdings, master, &digest) {
        Some(id) => PlanFault::Missing(id),
        None => PlanFault::NoMemory,
    }
}

// The plan, once it is known which replica of the head is taken.
fn plan_from<'h, 'a>(
    alloc: Global,
    holdings: &'h [Holding<'a>],
    master: u64,
    head: &Head<'h, 'a>,
) -> Result<Plan<'a>, PlanFault>
    requires { IsHeadTaken holdings.now master head.now }
    ensures ok { (least : ℕ) → IsUsableHead least head.now.segment →
        IfOk result (IsPlan holdings.entry.now least master) }
    ensures fault { (least : ℕ) → IsUsableHead least head.now.segment →
        IfErr result (λ fault. IsLaterFault holdings.entry.now least master fault) }
{
    match found_plan(alloc, holdings, master, head) {
        Ok(plan) => Ok(plan),
        Err(PlanFault::Missing(id)) => Err(PlanFault::Missing(id)),
        Err(_) => Err(want(holdings, master, head)),
    }
}

/// Finds the segments of the newest log that the inventory shows of a master. `least` is the least head that may be
/// used. Of the newest head the longest open replica is taken. Of another segment a closed replica is taken, and else
/// the longest open one, which has at least the length that the digest lists. Ties go to the lowest backup, then to
/// the first replica. Each replica of the master is read once. No bytes are copied: the plan refers to those that the
/// backups lend.
pub fn plan<'a>(
    alloc: Global,
    inventory: &Inventory<'a>,
    master: u64,
    least: u64,
) -> Result<Plan<'a>, PlanFault>
    // The plan is a choice of the newest log, and takes the preferred replicas.
    ensures ok { IfOk result (IsPlan inventory.entry.now least master) }
    // A fault is the first that the tests find in the inventory. NoMemory comes only if they find none.
    ensures fault { IfErr result (λ fault. IsPlanFault inventory.entry.now least master fault) }
    // A loss is named only if there is nothing to choose.
    ensures loss { IfErr result (λ fault. NamesLoss inventory.entry.now least master fault) }
{
    let holdings = inventory.as_slice();
    let head = newest_head(holdings, master, least)?;
    plan_from(alloc, holdings, master, &head)
}
