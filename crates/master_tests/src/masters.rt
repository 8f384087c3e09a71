//! Masters with the default options.

ghost use Rattle.std.specs.Prelude.{◌≡◌, ◌≤◌, ℕ, None, IfSome};
ghost use Rattle.backup.specs.State.{fleet_state};
ghost use Rattle.recovery.specs.master.master_state.Config.{config_fault};

use backup::MemoryFleet;
use entry::{Tablet, Tablets};
use recovery::master::{Config, KeyHasher, Master};
use std::alloc::Global;

/// Four tables, each of one tablet.
pub const TABLETS: &[Tablet] = &[
    Tablet {
        table: 1,
        first: 0,
        last: u64::MAX,
    },
    Tablet {
        table: 2,
        first: 0,
        last: u64::MAX,
    },
    Tablet {
        table: 3,
        first: 0,
        last: u64::MAX,
    },
    Tablet {
        table: 4,
        first: 0,
        last: u64::MAX,
    },
];

/// The default configuration but for the master's number and the seglets, of which 64 are the default.
pub fn config_of(alloc: Global, number: u64, seglets: u64) -> Option<Config>
    ensures { IfSome result (λ config. config_fault config ≡ None) }
{
    config_in(alloc, number, seglets, 1)
}

/// The same in this format, of which 1 is the default.
fn config_in(alloc: Global, number: u64, seglets: u64, format: u64) -> Option<Config>
    ensures { IfSome result (λ config. config_fault config ≡ None) }
{
    let limits = (u64::MAX, u64::MAX);
    limited_config(alloc, number, seglets, format, limits)
}

/// The same with limits: the most bytes of an object, and the most bytes of all live objects.
fn limited_config(
    alloc: Global,
    number: u64,
    seglets: u64,
    format: u64,
    limits: (u64, u64),
) -> Option<Config>
    ensures { IfSome result (λ config. config_fault config ≡ None) }
{
    let (largest, most_live) = limits;
    let Ok(tablets) = Vec::from_slice(alloc, TABLETS) else {
        return None;
    };
    let config = Config {
        master: number,
        backups: 3,
        replicas: 2,
        step: 1,
        segment: 512,
        seglet: 64,
        seglets,
        tablets: Tablets::new(tablets),
        history: 1_048_576,
        hasher: KeyHasher::new(),
        format,
        largest,
        most_live,
    };
    match config.check() {
        Ok(()) => Some(config),
        Err(_) => None,
    }
}

/// A fleet with the backups of the configuration. It holds nothing.
pub fn new_fleet(alloc: Global, config: &Config) -> Option<MemoryFleet>
    ensures backups { IfSome result (λ fleet. config.now.backups ≤ (fleet_state fleet).backups) }
    ensures none { IfSome result (λ fleet. (b m s : ℕ) → (fleet_state fleet).picture b m s ≡ None) }
    ensures least { IfSome result (λ fleet. (m : ℕ) → (fleet_state fleet).least m ≡ 0) }
{
    match MemoryFleet::new(alloc, config.backups) {
        Ok(fleet) => Some(fleet),
        Err(_) => None,
    }
}

/// Master 1, over a fleet that holds nothing.
pub fn new_master(alloc: Global) -> Option<Master<MemoryFleet>> {
    new_master_in(alloc, 1)
}

/// The same in this format.
pub fn new_master_in(alloc: Global, format: u64) -> Option<Master<MemoryFleet>> {
    master_of(alloc, config_in(alloc, 1, 64, format)?)
}

/// Master 1 with limits: the most bytes of an object, and the most bytes of all live objects.
pub fn limited_master(alloc: Global, limits: (u64, u64)) -> Option<Master<MemoryFleet>> {
    master_of(alloc, limited_config(alloc, 1, 64, 1, limits)?)
}

/// The master of this configuration, over a fleet that holds nothing.
fn master_of(alloc: Global, config: Config) -> Option<Master<MemoryFleet>>
    requires { config_fault config ≡ None }
{
    let fleet = new_fleet(alloc, &config)?;
    match Master::new(alloc, config, fleet) {
        Ok(master) => Some(master),
        Err(_) => None,
    }
}
