//! A fleet in memory, or one with files.

use crate::inventory::inventory_of;
use backup::MemoryFleet;
use entry::NoMemory;
use file_fleet::{FileFleet, FleetRegistry};
use replica::{Bench, Fleet, Holding, Inventory, Op, TakeFault};
use std::alloc::Global;
use take_journal::Device;

/// A fleet in memory, or one with files.
#[derive(Drop)]
pub enum Fleets<D: Device, R: FleetRegistry> {
    Memory(MemoryFleet),
    Files(FileFleet<D, R>),
}

impl<D: Device, R: FleetRegistry> Fleets<D, R> {
    ghost use Rattle.std.specs.Prelude.{IfOk};
    ghost use Rattle.replica.specs.Picture.{AreHeld};
    ghost use Rattle.backup.specs.Inventory.{IsRising};
    ghost use Rattle.fleets.specs.State.{fleet_state};

    /// All replicas of all backups, by backup, then by master, then by segment. Their bytes stay with the backups.
    pub fn inventory(&self, alloc: Global) -> Result<Inventory<'_>, NoMemory>
        ensures shown { IfOk result (λ hs. AreHeld hs (fleet_state R.noted self.entry.now).picture) }
        ensures rising { IfOk result (λ hs. IsRising hs) }
    {
        match self {
            Fleets::Memory(fleet) => fleet.inventory(alloc),
            Fleets::Files(fleet) => inventory_of(alloc, fleet.members().list()),
        }
    }
}

impl<D: Device, R: FleetRegistry> Fleet for Fleets<D, R> {
    ghost use Rattle.fleets.specs.State.{fleet_state};

    ghost state = { λ f. fleet_state R.noted f };

    #[inline(always)]
    fn take(&mut self, backup: u64, op: &Op<'_>) -> Result<(), TakeFault> {
        match self {
            Fleets::Memory(fleet) => fleet.take(backup, op),
            Fleets::Files(fleet) => fleet.take(backup, op),
        }
    }

    fn raise(&mut self, master: u64, id: u64) -> Result<(), TakeFault> {
        match self {
            Fleets::Memory(fleet) => fleet.raise(master, id),
            Fleets::Files(fleet) => fleet.raise(master, id),
        }
    }

    fn least(&self, master: u64) -> u64 {
        match self {
            Fleets::Memory(fleet) => fleet.least(master),
            Fleets::Files(fleet) => fleet.least(master),
        }
    }

    fn holdings(&self, alloc: Global, backup: u64) -> Result<Vec<Holding<'_>>, NoMemory> {
        match self {
            Fleets::Memory(fleet) => fleet.holdings(alloc, backup),
            Fleets::Files(fleet) => fleet.holdings(alloc, backup),
        }
    }

    fn takes(&self) -> u64 {
        match self {
            Fleets::Memory(fleet) => fleet.takes(),
            Fleets::Files(fleet) => fleet.takes(),
        }
    }

    fn end(&self) -> u64 {
        match self {
            Fleets::Memory(fleet) => fleet.end(),
            Fleets::Files(fleet) => fleet.end(),
        }
    }

    fn faults(&self) -> u64 {
        match self {
            Fleets::Memory(fleet) => fleet.faults(),
            Fleets::Files(fleet) => fleet.faults(),
        }
    }
}

impl<D: Device, R: FleetRegistry> Bench for Fleets<D, R> {
    fn limit(&mut self, n: u64) {
        match self {
            Fleets::Memory(fleet) => fleet.limit(n),
            Fleets::Files(fleet) => fleet.limit(n),
        }
    }

    fn fault_at(&mut self, n: u64, taken: bool) {
        match self {
            Fleets::Memory(fleet) => fleet.fault_at(n, taken),
            Fleets::Files(fleet) => fleet.fault_at(n, taken),
        }
    }

    fn retire(&mut self, keep: u64) -> Result<(), TakeFault> {
        match self {
            Fleets::Memory(fleet) => fleet.retire(keep),
            Fleets::Files(fleet) => fleet.retire(keep),
        }
    }
}
