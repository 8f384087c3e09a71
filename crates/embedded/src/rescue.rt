//! A recovery: from what a master left to the next one.

ghost use Rattle.std.specs.Prelude.{◌≡◌, IfErr, IfOk};
ghost use Rattle.backup.specs.State.{fleet_state};
ghost use Rattle.backup.specs.declared.fleet.MemoryFleet.{MemoryFleet as FleetValue};
ghost use Rattle.embedded.specs.Lives.{Adopts, Frees, IsFound, RecoversTo};
ghost use Rattle.embedded.specs.Losses.{IsNoLoss, IsWhy};
ghost use Rattle.embedded.specs.Next.{MayAdopt};
ghost use Rattle.embedded.specs.declared.life.Life.TheVariants.{Down};

use crate::life::Life;
use crate::next::next_config;
use crate::options::{Options, whole_will};
use backup::MemoryFleet;
use recovery::master::{Config, Refusal};
use recovery::replay::adopt_list;
use recovery::{GroupOrder, Rebuilt, RecoveryFault, recover};
use replica::Fleet;
use std::alloc::Global;
use std::mem::replace;
use tablet_will::WillFault;

/// Why there is no next master.
#[derive(Drop)]
pub enum NotRecovered {
    /// The master still serves.
    Up,
    /// Memory ran out, and nothing changed.
    NoMemory,
    /// Nothing could be rebuilt of what the backups hold. The fault names the head or the segment that is lost, or
    /// says that memory ran out. Nothing changed.
    NotRebuilt(RecoveryFault),
    /// No number is left for a master. Nothing changed.
    NumbersSpent,
    /// The options aren't those that the fleet was made by. Nothing changed.
    OtherFleet,
    /// The next master couldn't adopt the table, for this reason. What the old master left is there still.
    Refused(Refusal),
}

impl NotRecovered {
    /// Why there is no will.
    fn of_will(fault: &WillFault) -> NotRecovered
        ensures { IsNoLoss result }
    {
        match fault {
            WillFault::NoMemory => NotRecovered::NoMemory,
            _ => NotRecovered::OtherFleet,
        }
    }
}

/// Rebuilds the table of the master with this number from what the backups hold.
fn find_table(
    alloc: Global,
    fleet: &MemoryFleet,
    options: &Options,
    master: u64,
) -> Result<Rebuilt, NotRecovered>
    ensures found { IfOk result (IsFound (fleet_state fleet.now) master) }
    ensures none { IfErr result (IsWhy (fleet_state fleet.now) options.now master) }
{
    let Ok(inventory) = fleet.inventory(alloc) else {
        return Err(NotRecovered::NoMemory);
    };
    let will = match whole_will(alloc, options) {
        Ok(will) => will,
        Err(fault) => return Err(NotRecovered::of_will(&fault)),
    };
    match recover(
        alloc,
        &inventory,
        master,
        fleet.least(master),
        &will,
        &GroupOrder::Forward,
    ) {
        Ok(table) => Ok(table),
        Err(fault) => Err(NotRecovered::NotRebuilt(fault)),
    }
}

/// A master of this configuration that adopted the table over a fleet. If it can't, the fleet is left.
fn adopted(
    alloc: Global,
    table: &Rebuilt,
    config: Config,
    fleet: MemoryFleet,
) -> (Life, Result<(), Refusal>)
    requires { MayAdopt config (fleet_state fleet) }
    ensures { Adopts (fleet_state fleet) table.now config result.1 result.0 }
{
    match adopt_list(alloc, table, config, fleet) {
        Ok(master) => (Life::Up(master), Ok(())),
        Err((refusal, left)) => (Life::Down(left), Err(refusal)),
    }
}

impl Life {
    /// Has a master of this configuration adopt the table. If it can't, the life stays down.
    fn adopt(&mut self, alloc: Global, table: &Rebuilt, config: Config) -> Result<(), Refusal>
        requires { (fleet : FleetValue) × (self.old ≡ Down fleet) × MayAdopt config (fleet_state fleet) }
        ensures { (fleet : FleetValue) → self.old ≡ Down fleet →
            Adopts (fleet_state fleet) table.now config result self.new }
    {
        let Life::Down(fleet) = replace(self, Life::Changing) else {
            unreachable!();
        };
        let (next, outcome) = adopted(alloc, table, config, fleet);
        self.set(next);
        outcome
    }

    /// Frees the replicas of all other masters, if there is a master. True if none is left.
    pub(crate) fn retire(&mut self) -> bool
        ensures { Frees self.old result self.new }
    {
        let Life::Up(master) = self else {
            return false;
        };
        match master.retire() {
            Ok(()) => true,
            Err(_) => false,
        }
    }

    /// Recovers the table of the master with this number, and has the next master adopt it. The answer is the number
    /// of the next master.
    pub(crate) fn recover(
        &mut self,
        alloc: Global,
        options: &Options,
        master: u64,
        used: u64,
    ) -> Result<u64, NotRecovered>
        ensures { RecoversTo self.old options.now master used result self.new }
    {
        let Life::Down(fleet) = self else {
            return Err(NotRecovered::Up);
        };
        let table = match find_table(alloc, fleet, options, master) {
            Ok(table) => table,
            Err(why) => return Err(why),
        };
        let config = match next_config(alloc, fleet, options, used) {
            Ok(config) => config,
            Err(why) => return Err(why),
        };
        let number = config.master;
        match self.adopt(alloc, &table, config) {
            Ok(()) => Ok(number),
            Err(refusal) => Err(NotRecovered::Refused(refusal)),
        }
    }
}
