//! The number and the configuration of the next master.

ghost use Rattle.std.specs.Prelude.{◌≡◌, ◌↔◌, suc, max, true, IfErr, IfOk, IfSome, IsTrue};
ghost use Rattle.backup.specs.State.{fleet_state};
ghost use Rattle.embedded.specs.Losses.{IsNoLoss};
ghost use Rattle.embedded.specs.Next.{HasPlace, IsFit, MayBegin, greatest_of};

use crate::options::{Options, configuration};
use crate::rescue::NotRecovered;
use backup::MemoryFleet;
use recovery::master::Config;
use replica::{Fleet, Holding};
use std::alloc::Global;

/// The least number above `used` and above the masters of all replicas in the inventory. None if there is none.
fn next_number(inventory: &[Holding<'_>], used: u64) -> Option<u64>
    ensures { IfSome result (λ n. n ≡ suc (max used (greatest_of inventory.now))) }
{
    let mut greatest = used;
    for holding in inventory {
        greatest = greatest.max(holding.master);
    }
    if greatest == u64::MAX {
        return None;
    }
    Some(greatest + 1)
}

/// Whether any head of this master may be used, and the fleet has enough backups.
fn has_place(fleet: &MemoryFleet, config: &Config) -> bool
    ensures { IsTrue result ↔ HasPlace config.now (fleet_state fleet.now) }
{
    fleet.least(config.master) == 0 && config.backups <= fleet.backups()
}

/// Whether a master of this configuration may begin over the fleet, but for replicas of its number.
fn is_fit(fleet: &MemoryFleet, config: &Config) -> bool
    ensures { result ≡ true → IsFit config.now (fleet_state fleet.now) }
{
    match config.check() {
        Ok(()) => has_place(fleet, config),
        Err(_) => false,
    }
}

/// The configuration of the next master over this fleet. Its number is above `used` and above those of all replicas.
pub(crate) fn next_config(
    alloc: Global,
    fleet: &MemoryFleet,
    options: &Options,
    used: u64,
) -> Result<Config, NotRecovered>
    ensures config { IfOk result (MayBegin (fleet_state fleet.now) options.now used) }
    ensures refused { IfErr result IsNoLoss }
{
    let Ok(inventory) = fleet.inventory(alloc) else {
        return Err(NotRecovered::NoMemory);
    };
    let Some(number) = next_number(inventory.as_slice(), used) else {
        return Err(NotRecovered::NumbersSpent);
    };
    let Ok(config) = configuration(alloc, options, number) else {
        return Err(NotRecovered::NoMemory);
    };
    if !is_fit(fleet, &config) {
        return Err(NotRecovered::OtherFleet);
    }
    Ok(config)
}
