//! The line `clients`: clients over the master of a node, beside a cleaner.

ghost use Rattle.std.specs.Prelude.{◌≡◌, ◌≤◌, ◌<◌, ◌^◌, ◌↔◌, ℕ, true, IfSome, IsTrue};
ghost use Rattle.backup.specs.declared.fleet.MemoryFleet.{MemoryFleet as FleetValue};
ghost use Rattle.cluster.specs.master.World.{MasterValue};
ghost use Rattle.cluster.specs.master.master_state.declared.config.Config.{Config};
ghost use Rattle.cluster.specs.driving.Served.{IsSpent};
ghost use Rattle.lines.specs.Grammar.{Clients};
ghost use Rattle.cluster.specs.Served.{AnswersLine, fleet_of, is_up};
ghost use Rattle.cluster_lines.specs.Clients.{Lends, MakesClients, RefusesCall, RefusesWork};
ghost use Rattle.cluster.specs.declared.node.Node.TheVariants.{Up as UpValue};

use cluster::Node;
use cluster::answers::Answer;
use cluster::master::Refusal;
use gate::NoGate;
use replica::Fleet;
use std::alloc::Global;
use std::mem::replace;
use std::sync::Wait;
use std::thread::Threads;
use store_clients::locked_log::CallFault;
use store_clients::{Outcome, Workload, clients_over};

/// What came of a line of clients.
#[derive(Drop)]
pub struct Served {
    pub answer: Answer,
    /// Whether the store of the clients could tell whose its records were.
    pub is_known: bool,
}

/// Has clients make their rounds over the master of a node, beside a cleaner. `records` is how many records the
/// history of that master takes. After a refusal, what was done stays done.
pub fn serve_clients<H: Threads + Wait + Sync>(
    rt: &H,
    node: &mut Node,
    alloc: Global,
    records: u64,
    work: Workload,
) -> Served
    requires records { (m : MasterValue FleetValue) → node.old ≡ UpValue m → m.knows.config.history ≡ records }
    requires clients { work.clients ≤ 63 }
    requires rounds { work.rounds < 2 ^ 40 }
    ensures told { (config : Config) →
        AnswersLine node.old config (Clients work.clients work.rounds work.passes) node.new result.answer }
    ensures made { MakesClients node.old work.clients work.rounds node.new result.answer }
    ensures known { (calls : ℕ) →
        result.answer ≡ Answer.Counted work.clients work.rounds calls → result.is_known ≡ true }
{
    let Node::Up(_) = node else {
        return Served {
            answer: Answer::Down,
            is_known: true,
        };
    };
    let (calls, is_known) = lend(rt, node, alloc, records, work);
    match calls {
        Ok(calls) => Served {
            answer: Answer::Counted(work.clients, work.rounds, calls),
            is_known,
        },
        Err(fault) => Served {
            answer: refuse_call(node, fault),
            is_known,
        },
    }
}

/// Lends the master to clients, and takes it back. The result is how many of their calls were accepted, or the
/// first refusal, and whether the store could tell whose its records were.
fn lend<H: Threads + Wait + Sync>(
    rt: &H,
    node: &mut Node,
    alloc: Global,
    records: u64,
    work: Workload,
) -> (Result<u64, CallFault>, bool)
    requires up { is_up node.old ≡ true }
    requires records { (m : MasterValue FleetValue) → node.old ≡ UpValue m → m.knows.config.history ≡ records }
    requires clients { work.clients ≤ 63 }
    requires rounds { work.rounds < 2 ^ 40 }
    ensures { (m : MasterValue FleetValue) → node.old ≡ UpValue m →
        Lends m work.clients work.rounds result.0 result.1 node.new }
{
    let Node::Up(up) = replace(node, Node::Changing) else {
        unreachable!();
    };
    let Outcome {
        master,
        calls,
        is_known,
    } = clients_over(rt, alloc, up, records, work, &NoGate);
    node.set(Node::Up(master));
    (calls, is_known)
}

/// The answer to the first refusal of clients.
fn refuse_call(node: &mut Node, fault: CallFault) -> Answer
    requires { is_up node.old ≡ true }
    ensures { RefusesCall node.old fault node.new result }
{
    match fault {
        CallFault::Refused(refusal) => refuse_work(node, refusal),
        CallFault::Unsure(_, refusal) => refuse_work(node, refusal),
        CallFault::SeatUnknown => Answer::SeatUnknown,
        CallFault::CellRefused => Answer::CellRefused,
        // The history is full before the cells are spent. Only tests show that this never comes.
        CallFault::CellsSpent => Answer::CellRefused,
        // Clients settle nothing, so this never comes.
        CallFault::NotYours => Answer::SeatUnknown,
    }
}

/// Answers a refusal of clients. No contract says how the fleet was under the lock, so after Spent the fleet is
/// asked whether it takes no more ops. Only tests show that it never takes more then.
fn refuse_work(node: &mut Node, refusal: Refusal) -> Answer
    requires { is_up node.old ≡ true }
    ensures { RefusesWork node.old refusal node.new result }
{
    match refusal {
        Refusal::Spent => {
            if is_spent(node) {
                node.refuse(Refusal::Spent)
            } else {
                Answer::SeatUnknown
            }
        }
        _ => node.refuse(refusal),
    }
}

/// Whether the fleet of a node that is up takes no more ops.
fn is_spent(node: &Node) -> bool
    requires { is_up node.now ≡ true }
    ensures { IsTrue result ↔ IfSome (fleet_of node.now) IsSpent }
{
    let Node::Up(up) = node else {
        unreachable!();
    };
    let fleet = up.fleet();
    fleet.takes() == fleet.end()
}
