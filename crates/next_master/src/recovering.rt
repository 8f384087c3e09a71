//! Recovers what a master left into a new master.

ghost use Rattle.std.specs.Prelude.{◌≡◌, ◌⊎◌, ◌≤◌, ◌<◌, ℕ, List, suc, max, false, true, None, Some, Ok, IfOk, IfErr};
ghost use Rattle.std.specs.Prelude.{IfSome, ◌^◌, ◌-◌};
ghost use Rattle.backup.specs.State.{fleet_state};
ghost use Rattle.backup.specs.declared.fleet.MemoryFleet.{MemoryFleet as FleetValue};
ghost use Rattle.cluster.specs.master.Registry.{IsUnraised, AreUnraisedAbove};
ghost use Rattle.cluster.specs.master.World.{World};
ghost use Rattle.cluster.specs.master.master_state.Config.{config_fault};
ghost use Rattle.cluster.specs.master.master_state.Data.{MasterData};
ghost use Rattle.cluster.specs.declared.node.Node.TheVariants.{Up, Down};
ghost use Rattle.cluster.specs.recovery.Orders.{Covers};
ghost use Rattle.cluster.specs.recovery.Recovered.{IsRebuiltFrom, IsRefusedFrom, IsSomeLoss, IsSomePrefix};
ghost use Rattle.lines.specs.Grammar.{IsOrder};
ghost use Rattle.next_master.specs.Configuration.{config_of, later_options, tables_to, MayBegin};
ghost use Rattle.next_master.specs.Numbers.{greatest_of, AreSpent, IsNextNumber, Renumbers};
ghost use Rattle.next_master.specs.Recoveries.{Adopts, Ends, EndsFreeing, FindsNone, FindsNothing, IsFoundIn};
ghost use Rattle.next_master.specs.Recoveries.{Rebuilds, Recovers, RetiresOthers, asked_for, order_named};
ghost use Rattle.cluster.specs.Served.{IsNodeAt, IsOf, world_of};
ghost use Rattle.cluster.specs.Served.{fleet_of, is_up};
ghost use Rattle.cluster.specs.Lives.{Position};

use crate::later::{Later, later_options};
use crate::setup::configuration;
use backup::MemoryFleet;
use cluster::Node;
use cluster::answers::Answer;
use cluster::master::{Config, Refusal};
use cluster::recovery::{GroupOrder, PlanFault, Rebuilt, RecoveryFault, recover, recover_threads};
use cluster::replay::adopt_list;
use command_line::Options;
use entry::NoMemory;
use gate::NoGate;
use lines::ReplayOrder;
use replica::{Bench, Fleet, Holding, Inventory, TakeFault};
use std::alloc::Global;
use std::mem::replace;
use std::sync::Wait;
use std::thread::Threads;
use tablet_will::Will;

/// Whose log is recovered, and what the master has that adopts it.
#[derive(Clone, Copy)]
pub struct Request {
    /// The options of the master whose log is recovered.
    pub options: Options,
    /// What the next master has in place of these options.
    pub later: Later,
    /// The number of the master whose log is recovered.
    pub master: u64,
    /// The greatest number that a master had, or was to have. Any head of a master with a greater number may be used.
    pub used: u64,
}

/// What came of a recovery.
#[derive(Drop)]
pub struct Recovery {
    pub answer: Answer,
    /// The number of the master that a later recovery is for.
    pub master: u64,
    /// The greatest number that a master had, or was to have.
    pub used: u64,
}

/// The table of a master, and the configuration of the master that is to adopt it.
#[derive(Drop)]
pub(crate) struct Inheritance {
    pub(crate) rebuilt: Rebuilt,
    pub(crate) config: Config,
}

/// The least number above `master` and above the masters of all replicas in the inventory. None if there is none. It
/// reads each replica's label once.
pub fn next_number(inventory: &[Holding<'_>], master: u64) -> Option<u64>
    ensures next { IfSome result (λ n. n ≡ suc (max master (greatest_of inventory.now))) }
    ensures spent { result ≡ None → max master (greatest_of inventory.now) ≡ 2 ^ 64 - 1 }
{
    let mut greatest = master;
    for holding in inventory {
        greatest = greatest.max(holding.master);
    }
    if greatest == u64::MAX {
        return None;
    }
    Some(greatest + 1)
}

/// The answer to a recovery if memory runs out before it begins.
fn want() -> Answer
    ensures { result ≡ Answer.NotRecovered (RecoveryFault.Plan PlanFault.NoMemory) }
{
    Answer::NotRecovered(RecoveryFault::Plan(PlanFault::NoMemory))
}

/// The order of the groups that a line asks for. Several workers take the groups in the order of the log.
fn groups_in(order: ReplayOrder) -> GroupOrder
    ensures { result ≡ order_named order }
{
    match order {
        ReplayOrder::Forward => GroupOrder::Forward,
        ReplayOrder::Reverse => GroupOrder::Reverse,
        ReplayOrder::Threads(_) => GroupOrder::Forward,
    }
}

/// Recovers as a line asks: by this thread, or by this many workers in threads of their own.
fn recover_by<H: Threads + Wait + Sync>(
    rt: &H,
    alloc: Global,
    inventory: &Inventory<'_>,
    master: u64,
    least: u64,
    will: &Will,
    order: ReplayOrder,
) -> Result<Rebuilt, RecoveryFault>
    requires order { IsOrder order }
    ensures ok { IfOk result (IsSomePrefix inventory.now least master) }
    ensures refused { IfErr result (IsSomeLoss inventory.now least master will.now (order_named order)) }
    ensures rebuilt { IfOk result (IsRebuiltFrom inventory.now least master will.now (order_named order)) }
    ensures fault { IfErr result (IsRefusedFrom inventory.now least master will.now (order_named order)) }
{
    let groups = groups_in(order);
    match order {
        ReplayOrder::Threads(workers) => recover_threads(
            rt,
            alloc,
            inventory,
            master,
            least,
            will,
            &groups,
            workers as usize,
            &NoGate,
        ),
        _ => recover(alloc, inventory, master, least, will, &groups),
    }
}

/// Recovers the table of the master that is asked for, and chooses the next master's number, which is above all that
/// were used. The next master has the options of later masters.
pub(crate) fn find_inheritance<H: Threads + Wait + Sync>(
    rt: &H,
    alloc: Global,
    fleet: &MemoryFleet,
    request: Request,
    will: &Will,
    order: ReplayOrder,
) -> Result<Inheritance, Answer>
    requires covers { Covers (tables_to request.options.tables) will.now }
    requires order { IsOrder order }
    requires later { AreUnraisedAbove request.used (fleet_state fleet.now) }
    ensures found { IfOk result (λ found.
        IsFoundIn fleet.now request.options request.later request.master found.rebuilt found.config) }
    ensures fresh { IfOk result (λ found. request.used < found.config.master) }
    ensures least { IfOk result (λ found.
        IsNextNumber (max request.master request.used) (fleet_state fleet.now).picture found.config.master) }
    ensures none { IfErr result (FindsNone fleet.now (config_of request.options request.master)) }
    ensures rebuilt { IfOk result (λ found.
        Rebuilds (fleet_state fleet.now) (asked_for request will.now order) (Ok found.rebuilt)) }
    ensures nothing { IfErr result (FindsNothing (fleet_state fleet.now) (asked_for request will.now order)) }
    ensures spent { IfErr result (λ a.
        a ≡ Answer.NumbersSpent → AreSpent (max request.master request.used) (fleet_state fleet.now).picture) }
{
    let inventory = match fleet.inventory(alloc) {
        Ok(inventory) => inventory,
        Err(NoMemory) => return Err(want()),
    };
    let rebuilt = match recover_by(
        rt,
        alloc,
        &inventory,
        request.master,
        fleet.least(request.master),
        will,
        order,
    ) {
        Ok(rebuilt) => rebuilt,
        Err(fault) => return Err(Answer::NotRecovered(fault)),
    };
    let greatest = request.master.max(request.used);
    let Some(number) = next_number(inventory.as_slice(), greatest) else {
        return Err(Answer::NumbersSpent);
    };
    let later = later_options(&request.options, &request.later);
    match configuration(alloc, &later, number) {
        Ok(config) => Ok(Inheritance { rebuilt, config }),
        Err(NoMemory) => Err(want()),
    }
}

/// Recovers the table of the master that is asked for, has the next master adopt it, and frees the replicas of all
/// other masters. The next master has the options of later masters, which have to be within their limits. The will has
/// to cover the tablets of the options.
pub fn recover_node<H: Threads + Wait + Sync>(
    rt: &H,
    alloc: Global,
    node: &mut Node,
    request: Request,
    will: &Will,
    order: ReplayOrder,
) -> Recovery
    requires covers { Covers (tables_to request.options.tables) will.now }
    requires order { IsOrder order }
    requires stands { (d : MasterData) × (at : Position) ×
        IsNodeAt node.old (config_of request.options request.master) d at }
    requires later { IfSome (fleet_of node.old) (AreUnraisedAbove request.used) }
    requires begins { MayBegin request.later request.options }
    ensures recovers { Recovers node.old request.options request.later request.master order
        node.new result.answer result.master }
    ensures ends { Ends node.old (later_options request.later request.options)
        (asked_for request will.now order) result.used node.new result.answer result.master }
    ensures numbers { Renumbers request.master request.used result.master result.used }
    ensures least { (result.used ≡ request.used)
        ⊎ IfSome (fleet_of node.old) (λ f. IsNextNumber (max request.master request.used) f.picture result.used) }
    ensures spent { result.answer ≡ Answer.NumbersSpent →
        IfSome (fleet_of node.old) (λ f. AreSpent (max request.master request.used) f.picture) }
{
    let Node::Down(fleet) = node else {
        return Recovery {
            answer: Answer::Up,
            master: request.master,
            used: request.used,
        };
    };
    let Inheritance { rebuilt, config } = match find_inheritance(
        rt, alloc, fleet, request, will, order,
    ) {
        Ok(found) => found,
        Err(answer) => {
            return Recovery {
                answer,
                master: request.master,
                used: request.used,
            };
        }
    };
    let number = config.master;
    if let Err(answer) = adopt(alloc, node, &rebuilt, config) {
        return Recovery {
            answer,
            master: request.master,
            used: number,
        };
    }
    match retire(node) {
        Ok(()) => Recovery {
            answer: Answer::Recovered(rebuilt),
            master: number,
            used: number,
        },
        Err(answer) => Recovery {
            answer,
            master: number,
            used: number,
        },
    }
}

/// Has a master of this configuration adopt the table. The error is the answer that tells why it can't. If the fleet
/// takes no more ops, the limit is lifted.
fn adopt(alloc: Global, node: &mut Node, rebuilt: &Rebuilt, config: Config) -> Result<(), Answer>
    requires config { config_fault config ≡ None }
    requires fleet { (fleet : FleetValue) × (node.old ≡ Down fleet)
        × (config.backups ≤ (fleet_state fleet).backups)
        × ((b s : ℕ) → (fleet_state fleet).picture b config.master s ≡ None)
        × IsUnraised config.master (fleet_state fleet) }
    ensures { (fleet : FleetValue) → node.old ≡ Down fleet →
        Adopts (fleet_state fleet) rebuilt.now config node.new result }
{
    let Node::Down(fleet) = replace(node, Node::Changing) else {
        unreachable!();
    };
    let (next, answer) = adopted(alloc, rebuilt, config, fleet);
    node.set(next);
    answer
}

/// Frees the replicas of all other masters. If the freeing is cut short, the master is dropped, and the error is
/// the answer that tells why.
fn retire(node: &mut Node) -> Result<(), Answer>
    requires { is_up node.old ≡ true }
    ensures others { (d : MasterData) → IsOf node.old None d → RetiresOthers d node.new result }
    ensures frees { (w : World) → world_of node.old ≡ Some w → EndsFreeing w node.new result }
{
    let Node::Up(up) = node else {
        unreachable!();
    };
    match up.retire() {
        Ok(()) => Ok(()),
        Err(fault) => match fault {
            TakeFault::Spent => Err(node.refuse(Refusal::Spent)),
            _ => {
                node.drop_master();
                Err(Answer::NotRetired(fault))
            }
        },
    }
}

/// The node after an adoption, and the answer that tells why it has no master, if it has none. If the fleet takes no
/// more ops, the limit is lifted.
fn adopted(
    alloc: Global,
    rebuilt: &Rebuilt,
    config: Config,
    fleet: MemoryFleet,
) -> (Node, Result<(), Answer>)
    requires config { config_fault config ≡ None }
    requires backups { config.backups ≤ (fleet_state fleet).backups }
    requires none { (b s : ℕ) → (fleet_state fleet).picture b config.master s ≡ None }
    requires least { IsUnraised config.master (fleet_state fleet) }
    ensures { Adopts (fleet_state fleet) rebuilt.now config result.0 result.1 }
{
    match adopt_list(alloc, rebuilt, config, fleet) {
        Ok(master) => (Node::Up(master), Ok(())),
        Err((refusal, left)) => {
            let mut left = left;
            match refusal {
                Refusal::Spent => {
                    left.limit(u64::MAX);
                    (Node::Down(left), Err(Answer::Stopped))
                }
                _ => (Node::Down(left), Err(Answer::Refused(refusal))),
            }
        }
    }
}
