//! The first master of a script, and what the next one begins with.

ghost use Rattle.std.specs.Prelude.{◌≡◌, ℕ, suc, max, None, IfOk};
ghost use Rattle.backup.specs.State.{fleet_state};
ghost use Rattle.next_master.specs.Numbers.{greatest_of};
ghost use Rattle.replica.specs.Picture.{AreHeld};
ghost use Rattle.store_lines.specs.Lives.{CanBegin, IsChecked, IsOpening};

use crate::fault::LineFault;
use backup::MemoryFleet;
use command_line::Options;
use entry::NoMemory;
use next_master::answers::Answer;
use next_master::master::{Config, Master};
use next_master::recovery::{PlanFault, RecoveryFault};
use next_master::{Later, configuration, later_options, next_number};
use replica::{Fleet, Inventory};
use std::alloc::Global;

/// The number of the first master.
pub const FIRST_MASTER: u64 = 1;

/// A master over an empty fleet. Its head isn't open yet.
pub fn first_master(
    alloc: Global,
    options: &Options,
    config: Config,
) -> Result<Master<MemoryFleet>, NoMemory>
    requires { IsChecked options.now config }
    ensures { IfOk result (λ m. IsOpening options.now m.knows) }
{
    let fleet = MemoryFleet::new(alloc, config.backups)?;
    match Master::new(alloc, config, fleet) {
        Ok(master) => Ok(master),
        Err((fault, _)) => Err(fault),
    }
}

/// The configuration of the next master. Its number is above `greatest`, and above the masters of all replicas that
/// were found. It has what later masters have in place of the options.
pub fn next_config(
    alloc: Global,
    options: &Options,
    later: &Later,
    greatest: u64,
    fleet: &MemoryFleet,
    inventory: &Inventory<'_>,
) -> Result<Config, Answer>
    requires { AreHeld inventory.now (fleet_state fleet.now).picture }
    ensures { IfOk result (CanBegin options.now (fleet_state fleet.now)) }
{
    let Some(number) = next_number(inventory.as_slice(), greatest) else {
        return Err(Answer::NumbersSpent);
    };
    match configuration(alloc, &later_options(options, later), number) {
        Ok(config) => fitting(options, fleet, config),
        Err(NoMemory) => Err(want()),
    }
}

/// Tests whether masters that start later would be within their limits.
pub fn check_later(alloc: Global, options: &Options, later: &Later) -> Result<(), LineFault> {
    let config = configuration(alloc, &later_options(options, later), FIRST_MASTER)?;
    match config.check() {
        Ok(()) => Ok(()),
        Err(_) => Err(LineFault::NoLaterMaster),
    }
}

/// The configuration, if a master can begin with it over the fleet. The case that it can't never comes.
fn fitting(options: &Options, fleet: &MemoryFleet, config: Config) -> Result<Config, Answer>
    requires records { config.history ≡ options.now.history }
    requires unused { (b s : ℕ) → (fleet_state fleet.now).picture b config.master s ≡ None }
    ensures { IfOk result (CanBegin options.now (fleet_state fleet.now)) }
{
    if config.backups > fleet.backups() || fleet.least(config.master) != 0 {
        return Err(want());
    }
    match config.check() {
        Ok(()) => Ok(config),
        Err(_) => Err(want()),
    }
}

/// The answer to a recovery for which memory ran out.
pub fn want() -> Answer {
    Answer::NotRecovered(RecoveryFault::Plan(PlanFault::NoMemory))
}
