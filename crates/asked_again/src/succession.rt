//! The first master, and each one that adopts the table of the one before.

ghost use Rattle.std.specs.Prelude.{◌≡◌, IfOk, IfSome};
ghost use Rattle.backup.specs.State.{fleet_state};
ghost use Rattle.store_lines.specs.Lives.{CanBegin, IsChecked, IsOpening};

use crate::printing::print;
use backup::MemoryFleet;
use replica::{Fleet, Inventory, TakeFault};
use std::alloc::Global;
use std::io::Write;
use std::sync::Wait;
use store_lines::master::{Config, Master};
use store_lines::recovery::{GroupOrder, Rebuilt, make_will, recover};
use store_lines::replay::adopt_list;
use store_lines::{Answer, FIRST_MASTER, Later, Options, configuration, first_master, next_config};

/// The table of a crashed master, and what the one that is to adopt it begins with.
#[derive(Drop)]
struct Inheritance {
    rebuilt: Rebuilt,
    config: Config,
}

/// A master that adopted a table.
struct Heir {
    master: Master<MemoryFleet>,
    rebuilt: Rebuilt,
}

/// A master over an empty fleet. Its head isn't open yet.
pub fn begin<R: Wait>(rt: &R, alloc: Global, options: &Options) -> Master<MemoryFleet>
    ensures { IsOpening options.now result.knows }
{
    for _ in rt.forever() {
        if let Some(config) = first_config(alloc, options) {
            if let Ok(master) = first_master(alloc, options, config) {
                return master;
            }
        }
    }
    unreachable!()
}

/// The configuration of the first master. None if memory was refused.
fn first_config(alloc: Global, options: &Options) -> Option<Config>
    ensures { IfSome result (IsChecked options.now) }
{
    let Ok(config) = configuration(alloc, options, FIRST_MASTER) else {
        return None;
    };
    match config.check() {
        Ok(()) => Some(config),
        Err(_) => None,
    }
}

/// Recovers the table of the crashed master, prints it, and frees the replicas of all masters but the new one.
pub fn succeed<R: Wait, O: Write>(
    rt: &R,
    alloc: Global,
    writer: &mut O,
    options: &Options,
    crashed: u64,
    order: &GroupOrder,
    fleet: MemoryFleet,
) -> Master<MemoryFleet>
    ensures { IsOpening options.now result.knows }
{
    let Heir {
        mut master,
        rebuilt,
    } = adopt(rt, alloc, options, crashed, order, fleet);
    match retire(rt, &mut master) {
        Ok(()) => print(writer, &Answer::Recovered(rebuilt)),
        Err(fault) => print(writer, &Answer::NotRetired(fault)),
    }
    master
}

/// A master that adopted the table of the crashed one.
fn adopt<R: Wait>(
    rt: &R,
    alloc: Global,
    options: &Options,
    crashed: u64,
    order: &GroupOrder,
    fleet: MemoryFleet,
) -> Heir
    ensures { IsOpening options.now result.master.knows }
{
    let mut fleet = fleet;
    for _ in rt.forever() {
        match find(alloc, options, crashed, order, &fleet) {
            None => {}
            Some(found) => match try_adopt(alloc, options, found, fleet) {
                Ok(heir) => return heir,
                Err(left) => fleet = left,
            },
        }
    }
    unreachable!()
}

/// A master that adopted the table. If memory was refused, the fleet comes back.
fn try_adopt(
    alloc: Global,
    options: &Options,
    found: Inheritance,
    fleet: MemoryFleet,
) -> Result<Heir, MemoryFleet>
    requires { CanBegin options.now (fleet_state fleet) found.config }
    ensures { IfOk result (λ heir. IsOpening options.now heir.master.knows) }
{
    let Inheritance { rebuilt, config } = found;
    match adopt_list(alloc, &rebuilt, config, fleet) {
        Ok(master) => Ok(Heir { master, rebuilt }),
        Err((_, left)) => Err(left),
    }
}

/// The table of the crashed master, and the configuration of the next. None if memory was refused.
fn find(
    alloc: Global,
    options: &Options,
    crashed: u64,
    order: &GroupOrder,
    fleet: &MemoryFleet,
) -> Option<Inheritance>
    ensures { IfSome result (λ f. CanBegin options.now (fleet_state fleet.now) f.config) }
{
    let Ok(inventory) = fleet.inventory(alloc) else {
        return None;
    };
    let Ok(config) = next_config(alloc, options, &Later::none(), crashed, fleet, &inventory) else {
        return None;
    };
    match rebuild(
        alloc,
        &inventory,
        crashed,
        fleet.least(crashed),
        &config,
        order,
    ) {
        Some(rebuilt) => Some(Inheritance { rebuilt, config }),
        None => None,
    }
}

/// The table of the crashed master, by a will of one partition.
fn rebuild(
    alloc: Global,
    inventory: &Inventory<'_>,
    crashed: u64,
    least: u64,
    config: &Config,
    order: &GroupOrder,
) -> Option<Rebuilt> {
    let Ok(will) = make_will(alloc, config.tablets.as_slice(), &[], u64::MAX, u64::MAX) else {
        return None;
    };
    match recover(alloc, inventory, crashed, least, &will, order) {
        Ok(rebuilt) => Some(rebuilt),
        Err(_) => None,
    }
}

/// Frees the replicas of all other masters.
fn retire<R: Wait>(rt: &R, master: &mut Master<MemoryFleet>) -> Result<(), TakeFault>
    ensures config { master.new.knows.config ≡ master.old.knows.config }
    ensures history { master.new.knows.history ≡ master.old.knows.history }
{
    for _ in rt.forever() {
        match master.retire() {
            Err(TakeFault::NoMemory) => {}
            done => return done,
        }
    }
    unreachable!()
}
