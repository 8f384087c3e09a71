//! A master's steps, the end of that master, and its recovery from what some backups hold.

ghost use Rattle.std.specs.Prelude.{◌≡◌, ◌≤◌, IfOk, IfErr};
ghost use Rattle.replay.specs.master.World.{world};
ghost use Rattle.recovery.specs.Drilled.{IsDrill, IsTold};
ghost use Rattle.recovery.specs.Headline.{Headline};
ghost use Rattle.recovery.specs.Kept.{is_kept};
ghost use Rattle.recovery.specs.AtStart.{at_start};

use crate::inventory::inventory_of;
use crate::recovery::{RecoveryFault, recover};
use claims::Rebuilt;
use entry::NoMemory;
use rebuilding::GroupOrder;
use recovery_plan::PlanFault;
use replay::master::{Master, Refusal, Step, StepAnswer};
use replica::Fleet;
use std::alloc::Global;
use tablet_will::Will;

/// What a drill gives: what each step answered, how many commands were durable as the master stopped, how many pushes
/// an open failover still needed then, what was recovered, and the fleet as it was left.
#[derive(Drop)]
pub struct Drill<F> {
    pub answers: Vec<Result<StepAnswer, Refusal>>,
    pub durable: u64,
    pub pushes_left: u64,
    pub recovered: Result<Rebuilt, RecoveryFault>,
    pub fleet: F,
}

/// Lets a master take any steps, stops it, and recovers it from what the backups in `kept` hold, and from nothing
/// else, by any will and in any order. The master may be new, or one that took over what was recovered. If memory for
/// the answers runs out, the master comes back as it was.
pub fn run_drill<F: Fleet>(
    alloc: Global,
    master: Master<F>,
    steps: &[Step],
    kept: &[u64],
    will: &Will,
    order: &GroupOrder,
) -> Result<Drill<F>, (NoMemory, Master<F>)>
    ensures drill { IfOk result (λ d.
        IsDrill (world F.state master) steps.now kept.now will.now order.now d.answers.items d.recovered
        (F.state d.fleet)) }
    ensures headline { IfOk result (λ d.
        Headline (at_start (world F.state master)) steps.now d.answers.items d.durable d.pushes_left (F.state d.fleet)
        (is_kept kept.now) will.now order.now d.recovered) }
    ensures told { IfOk result (λ d.
        IsTold (world F.state master) steps.now d.answers.items d.durable d.pushes_left (F.state d.fleet)) }
    ensures backups { IfOk result (λ d. master.knows.config.backups ≤ (F.state d.fleet).backups) }
    ensures refused { IfErr result (λ e. world F.state e.1 ≡ world F.state master) }
{
    let mut master = master;
    let number = master.number();
    let answers = match master.run(steps) {
        Ok(answers) => answers,
        Err(fault) => return Err((fault, master)),
    };
    let durable = master.durable();
    let pushes_left = master.failover_left();
    let fleet = master.crash();
    let recovered = match inventory_of(alloc, &fleet, kept) {
        Ok(inventory) => recover(alloc, &inventory, number, fleet.least(number), will, order),
        Err(NoMemory) => Err(RecoveryFault::Plan(PlanFault::NoMemory)),
    };
    Ok(Drill {
        answers,
        durable,
        pushes_left,
        recovered,
        fleet,
    })
}
