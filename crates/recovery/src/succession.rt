//! Lives one after another: each is ended and recovered, and a new master goes on with what came back.

ghost use Rattle.std.specs.Prelude.{◌≡◌, ◌≤◌, suc, None, IfOk, IfErr};
ghost use Rattle.replay.specs.master.master_state.Config.{config_fault};
ghost use Rattle.replay.specs.master.World.{world};
ghost use Rattle.recovery.specs.Succession.{IsNewest, with_number, IsSuccessor, IsLived, IsNotAdopted, IsLast};
ghost use Rattle.recovery.specs.Succession.{AreDrilled};

use crate::drill::{Drill, run_drill};
use crate::recovery::RecoveryFault;
use claims::Rebuilt;
use entry::{NoMemory, Tablets};
use rebuilding::GroupOrder;
use replay::adopt_list;
use replay::master::{Config, Master, Refusal, Step, StepAnswer};
use replica::{Bench, Fleet, TakeFault};
use std::alloc::Global;
use tablet_will::Will;

/// The steps of one life, and the backups, the will and the order of its recovery.
#[derive(Drop)]
pub struct Course {
    pub steps: Vec<Step>,
    /// The backups that the recovery asks.
    pub kept: Vec<u64>,
    pub will: Will,
    pub order: GroupOrder,
}

/// A life that a new master took over: what its steps answered, what was recovered and adopted, and whether the new
/// master freed the replicas of all other masters.
#[derive(Drop)]
pub struct Lived {
    pub answers: Vec<Result<StepAnswer, Refusal>>,
    pub recovered: Rebuilt,
    pub retired: Result<(), TakeFault>,
}

/// Why no new master took over what was recovered.
#[derive(Drop)]
pub enum NotAdopted {
    /// The master has the greatest number of all, 2^64 - 1, so no number is left for a new one.
    NumbersSpent,
    Refused(Refusal),
}

/// How a row of lives ended.
#[derive(Drop)]
pub enum End<F: Fleet> {
    /// Each course was lived, and this master goes on.
    Up(Master<F>),
    /// Memory ran out before the next life took a step. This is the master of that life, as it was.
    NoMemory(Master<F>),
    /// The recovery of this life was refused.
    NotRecovered(Drill<F>),
    /// This life was recovered, and no new master took over what was recovered.
    NotAdopted(Drill<F>, NotAdopted),
}

/// The lives that were lived, and how the row of them ended.
#[derive(Drop)]
pub struct Drills<F: Fleet> {
    pub lived: Vec<Lived>,
    pub end: End<F>,
}

/// The configuration, with this number for the master.
fn numbered(alloc: Global, config: &Config, master: u64) -> Result<Config, NoMemory>
    ensures { IfOk result (λ c. c ≡ with_number master config.now) }
{
    let tablets = Vec::from_slice(alloc, config.tablets.as_slice())?;
    Ok(Config {
        master,
        backups: config.backups,
        replicas: config.replicas,
        step: config.step,
        segment: config.segment,
        seglet: config.seglet,
        seglets: config.seglets,
        tablets: Tablets::new(tablets),
        history: config.history,
        hasher: config.hasher,
        format: config.format,
        largest: config.largest,
        most_live: config.most_live,
    })
}

/// Makes a new master with the next number. It begins with the list, and frees the replicas of all other masters.
fn succeed<F: Bench>(
    alloc: Global,
    config: &Config,
    number: u64,
    rebuilt: &Rebuilt,
    fleet: F,
) -> Result<(Master<F>, Result<(), TakeFault>), (NotAdopted, F)>
    requires config { config_fault config.now ≡ None }
    requires backups { config.now.backups ≤ (F.Fleet.state fleet).backups }
    requires newest { IsNewest number (F.Fleet.state fleet) }
    ensures succeeds { IfOk result (λ r. IsSuccessor (with_number (suc number) config.now) rebuilt.now
        (F.Fleet.state fleet) r.1 (world F.Fleet.state r.0)) }
    ensures newest { IfOk result (λ r. IsNewest (suc number) (F.Fleet.state r.0.fleet)) }
    ensures refused { IfErr result (λ e.
        IsNotAdopted (with_number number config.now) rebuilt.now (F.Fleet.state fleet) e.0 (F.Fleet.state e.1)) }
{
    let Some(next) = number.checked_add(1) else {
        return Err((NotAdopted::NumbersSpent, fleet));
    };
    let config = match numbered(alloc, config, next) {
        Ok(config) => config,
        Err(NoMemory) => return Err((NotAdopted::Refused(Refusal::NoMemory), fleet)),
    };
    let mut master = match adopt_list(alloc, rebuilt, config, fleet) {
        Ok(master) => master,
        Err((refusal, fleet)) => return Err((NotAdopted::Refused(refusal), fleet)),
    };
    let retired = master.retire();
    Ok((master, retired))
}

/// Lives one life, recovers it, and makes the next master. `config` is that of the master, except for the master's
/// number.
fn live<F: Bench>(
    alloc: Global,
    master: Master<F>,
    config: &Config,
    course: &Course,
) -> Result<(Lived, Master<F>), End<F>>
    requires config { master.knows.config ≡ with_number master.knows.config.master config.now }
    requires newest { IsNewest master.knows.config.master (F.Fleet.state master.fleet) }
    ensures lived { IfOk result (λ r.
        IsLived (world F.Fleet.state master) course.now r.0 (world F.Fleet.state r.1)) }
    ensures newest { IfOk result (λ r. IsNewest r.1.knows.config.master (F.Fleet.state r.1.fleet)) }
    ensures config { IfOk result (λ r. r.1.knows.config ≡ with_number r.1.knows.config.master config.now) }
    ensures ends { IfErr result (IsLast F.Fleet.state (world F.Fleet.state master) course.now) }
{
    let number = master.number();
    master.show_valid();
    let Drill {
        answers,
        durable,
        pushes_left,
        recovered,
        fleet,
    } = match run_drill(
        alloc,
        master,
        course.steps.as_slice(),
        course.kept.as_slice(),
        &course.will,
        &course.order,
    ) {
        Ok(drill) => drill,
        Err((NoMemory, master)) => return Err(End::NoMemory(master)),
    };
    let recovered = match recovered {
        Ok(rebuilt) => rebuilt,
        Err(fault) => {
            return Err(End::NotRecovered(Drill {
                answers,
                durable,
                pushes_left,
                recovered: Err(fault),
                fleet,
            }));
        }
    };
    match succeed(alloc, config, number, &recovered, fleet) {
        Ok((master, retired)) => Ok((
            Lived {
                answers,
                recovered,
                retired,
            },
            master,
        )),
        Err((why, fleet)) => Err(End::NotAdopted(
            Drill {
                answers,
                durable,
                pushes_left,
                recovered: Ok(recovered),
                fleet,
            },
            why,
        )),
    }
}

/// Lives one life after another. A life is the steps of its master, its end, its recovery from the backups that its
/// course keeps, and a new master that adopts what was recovered and frees the replicas of all other masters. The new
/// master has the next number, and else the same configuration. No master with a greater number than the first one's
/// may have been there before.
///
/// The row of lives ends early if a recovery or an adoption is refused, or if memory runs out, and the call hands back
/// what there is. If the freeing of replicas ends in a fault, the replicas of earlier masters stay, and the next life
/// goes on beside them. A fault of a backup also halts the master of this next life, and the life after it takes over.
pub fn run_lives<F: Bench>(
    alloc: Global,
    master: Master<F>,
    config: &Config,
    courses: &[Course],
) -> Drills<F>
    requires config { master.knows.config ≡ config.now }
    requires newest { IsNewest master.knows.config.master (F.Fleet.state master.fleet) }
    ensures { AreDrilled F.Fleet.state (world F.Fleet.state master) courses.now result.lived.items result.end }
{
    let mut up = master;
    let Ok(mut lived) = Vec::with_capacity(alloc, courses.len()) else {
        return Drills {
            lived: Vec::new(alloc),
            end: End::NoMemory(up),
        };
    };
    for course in courses {
        match live(alloc, up, config, course) {
            Ok((life, next)) => {
                lived.push_reserved(life);
                up = next;
            }
            Err(end) => return Drills { lived, end },
        }
    }
    Drills {
        lived,
        end: End::Up(up),
    }
}
