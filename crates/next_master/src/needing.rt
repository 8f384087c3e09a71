//! Answers how much memory a new master needs for what a recovery finds.

ghost use Rattle.std.specs.Prelude.{◌≡◌, IfSome};
ghost use Rattle.backup.specs.State.{fleet_state};
ghost use Rattle.lines.specs.Grammar.{Needs};
ghost use Rattle.cluster.specs.Lives.{Position};
ghost use Rattle.cluster.specs.Served.{AnswersLine, IsNodeAt, fleet_of};
ghost use Rattle.cluster.specs.master.Registry.{AreUnraisedAbove};
ghost use Rattle.cluster.specs.master.master_state.Data.{MasterData};
ghost use Rattle.cluster.specs.recovery.Orders.{Covers};
ghost use Rattle.next_master.specs.Configuration.{config_of, later_options, tables_to, MayBegin};
ghost use Rattle.next_master.specs.Recoveries.{ShowsNeeds, asked_for};

use crate::recovering::{Request, find_inheritance};
use cluster::Node;
use cluster::answers::Answer;
use cluster::replay::seglets_needed;
use lines::ReplayOrder;
use std::alloc::Global;
use std::sync::Wait;
use std::thread::Threads;
use tablet_will::Will;

/// Finds the table that a recovery in the order of the log would find now, and answers how many seglets a new master
/// with the options of later masters needs to adopt it. The call costs what that part of a recovery costs. Nothing
/// changes.
pub fn node_needs<H: Threads + Wait + Sync>(
    rt: &H,
    alloc: Global,
    node: &Node,
    request: Request,
    will: &Will,
) -> Answer
    requires covers { Covers (tables_to request.options.tables) will.now }
    requires stands { (d : MasterData) × (at : Position) ×
        IsNodeAt node.now (config_of request.options request.master) d at }
    requires later { IfSome (fleet_of node.now) (AreUnraisedAbove request.used) }
    requires begins { MayBegin request.later request.options }
    ensures told { AnswersLine node.now (config_of request.options request.master) Needs node.now result }
    ensures shown { ShowsNeeds node.now (later_options request.later request.options)
        (asked_for request will.now ReplayOrder.Forward) result }
{
    let Node::Down(fleet) = node else {
        return Answer::Up;
    };
    match find_inheritance(rt, alloc, fleet, request, will, ReplayOrder::Forward) {
        Ok(found) => Answer::Needs(seglets_needed(&found.rebuilt, &found.config)),
        Err(answer) => answer,
    }
}
