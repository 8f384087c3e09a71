//! A start: the next master over a fleet with files.

ghost use Rattle.std.specs.Prelude.{◌≡◌, ◌<◌, [], ℕ, max, IfOk, None};
ghost use Rattle.file_fleet.specs.Fleet.{fleet_state};
ghost use Rattle.file_fleet.specs.Members.{AreSafe};
ghost use Rattle.embedded.specs.Next.{MayAdopt, greatest_of};
ghost use Rattle.embedded.specs.Options.{config_of};
ghost use Rattle.file_store.specs.Started.{IsStarted};

use crate::store::FileStore;
use claims::Objects;
use embedded::{Options, configuration};
use entry::{NoMemory, SafeVersion};
use file_fleet::{FileFleet, FleetRegistry, Members, NoteFault};
use object_list::ObjectList;
use recovery::Rebuilt;
use recovery::master::{Config, ConfigFault, Refusal};
use recovery::replay::adopt_list;
use replica::{Fleet, Holding};
use std::alloc::Global;
use take_journal::Device;

/// Why there is no store. The next start recovers the master that the last one did.
#[derive(Drop)]
pub enum NotStarted {
    /// Memory ran out.
    NoMemory,
    /// A number of the options is out of its range.
    Options(ConfigFault),
    /// No number is left for a master.
    NumbersSpent,
    /// The options aren't those that the fleet was made by.
    OtherFleet,
    /// The master couldn't adopt the table, for this reason.
    Refused(Refusal),
    /// The registry wasn't written. After Failed nobody knows which master the next start recovers. Either has the
    /// table.
    NotNamed(NoteFault),
}

impl From<NoMemory> for NotStarted {
    fn from(_fault: NoMemory) -> NotStarted {
        NotStarted::NoMemory
    }
}

/// A table without objects, with which a new store begins. It takes no memory.
pub fn empty_table(alloc: Global) -> Rebuilt
    ensures none { result.objects ≡ [] }
    ensures safe { result.safe ≡ 1 }
{
    Rebuilt {
        objects: Objects::new(alloc, ObjectList::new(alloc)),
        safe: SafeVersion::first(),
    }
}

/// Returns the greatest of a number and those of the masters of these replicas.
fn greatest_in(holdings: &[Holding<'_>], from: u64) -> u64
    ensures { result ≡ max from (greatest_of holdings.now) }
{
    let mut greatest = from;
    for holding in holdings {
        greatest = greatest.max(holding.master);
    }
    greatest
}

/// Returns a number above `used` and above those of the masters of all replicas.
fn next_number<D: Device, R: FleetRegistry>(
    alloc: Global,
    fleet: &FileFleet<D, R>,
    used: u64,
) -> Result<u64, NotStarted>
    ensures above { IfOk result (λ n. used < n) }
    ensures unused { IfOk result (λ n. (b s : ℕ) → (fleet_state R.noted fleet.now).picture b n s ≡ None) }
{
    let mut greatest = used;
    for backup in 0..fleet.members().backups() {
        let holdings = fleet.holdings(alloc, backup)?;
        greatest = greatest_in(holdings.as_slice(), greatest);
    }
    match greatest.checked_add(1) {
        Some(number) => Ok(number),
        None => Err(NotStarted::NumbersSpent),
    }
}

/// Returns the configuration of the next master. Its number is above those of all masters before it.
fn next_config<D: Device, R: FleetRegistry>(
    alloc: Global,
    fleet: &FileFleet<D, R>,
    options: &Options,
) -> Result<Config, NotStarted>
    ensures same { IfOk result (λ c. c ≡ config_of options.now c.master) }
    ensures may { IfOk result (λ c. MayAdopt c (fleet_state R.noted fleet.now)) }
{
    let number = next_number(alloc, fleet, fleet.master().unwrap_or(0))?;
    let config = configuration(alloc, options, number)?;
    if let Err(fault) = config.check() {
        return Err(NotStarted::Options(fault));
    }
    if fleet.least(number) != 0 || config.backups > fleet.members().backups() {
        return Err(NotStarted::OtherFleet);
    }
    Ok(config)
}

/// Makes the next master of a fleet with files. It adopts the table, and its head is open on its backups. Then the
/// registry names it. Until that is on the disk, a start recovers the master that was named before, whose replicas
/// stay. `FileStore::retire` frees them.
///
/// Cost: it writes each object of the table to the log of the new master.
pub fn start<D: Device + Drop, R: FleetRegistry + Drop>(
    alloc: Global,
    table: &Rebuilt,
    options: &Options,
    members: Members<D, R>,
) -> Result<FileStore<D, R>, NotStarted>
    requires safe { AreSafe D.contents D.may_leave D.has_failed R.noted R.is_sound members }
    ensures { IfOk result (λ s. IsStarted R.noted options.now table.now s.master) }
{
    let fleet = FileFleet::new(alloc, members);
    let config = next_config(alloc, &fleet, options)?;
    let number = config.master;
    match adopt_list(alloc, table, config, fleet) {
        Ok(mut master) => match master.fleet.name_master(number) {
            Ok(()) => Ok(FileStore::new(alloc, master)),
            Err(fault) => Err(NotStarted::NotNamed(fault)),
        },
        Err((refusal, _)) => Err(NotStarted::Refused(refusal)),
    }
}
