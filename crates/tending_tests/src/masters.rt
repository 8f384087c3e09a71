//! A master with the default options, whose backups may fail.

ghost use Rattle.std.specs.Prelude.{◌≡◌, ◌≤◌, ℕ, None, IfSome};
ghost use Rattle.backup.specs.State.{fleet_state};
ghost use Rattle.tending.specs.driving.master.master_state.Config.{config_fault};

use backup::MemoryFleet;
use entry::{Tablet, Tablets};
use std::alloc::Global;
use tending::driving::master::{Config, KeyHasher, Master};

/// One table of one tablet.
const TABLETS: &[Tablet] = &[Tablet {
    table: 1,
    first: 0,
    last: u64::MAX,
}];

/// The default configuration of master 1, but for the format, which is 2. Memory has eight segments, each of 512 bytes.
pub fn config_of(alloc: Global) -> Option<Config>
    ensures { IfSome result (λ config. config_fault config ≡ None) }
{
    let Ok(tablets) = Vec::from_slice(alloc, TABLETS) else {
        return None;
    };
    let config = Config {
        master: 1,
        backups: 3,
        replicas: 2,
        step: 1,
        segment: 512,
        seglet: 64,
        seglets: 64,
        tablets: Tablets::new(tablets),
        history: 1_048_576,
        hasher: KeyHasher::new(),
        format: 2,
        largest: u64::MAX,
        most_live: u64::MAX,
    };
    match config.check() {
        Ok(()) => Some(config),
        Err(_) => None,
    }
}

/// A fleet with the backups of the configuration. It holds nothing.
fn new_fleet(alloc: Global, config: &Config) -> Option<MemoryFleet>
    ensures backups { IfSome result (λ fleet. config.now.backups ≤ (fleet_state fleet).backups) }
    ensures none { IfSome result (λ fleet. (b m s : ℕ) → (fleet_state fleet).picture b m s ≡ None) }
    ensures least { IfSome result (λ fleet. (m : ℕ) → (fleet_state fleet).least m ≡ 0) }
{
    match MemoryFleet::new(alloc, config.backups) {
        Ok(fleet) => Some(fleet),
        Err(_) => None,
    }
}

/// The master of this configuration, over a fleet that holds nothing.
pub fn master_of(alloc: Global, config: Config) -> Option<Master<MemoryFleet>>
    requires { config_fault config ≡ None }
{
    let fleet = new_fleet(alloc, &config)?;
    match Master::new(alloc, config, fleet) {
        Ok(master) => Some(master),
        Err(_) => None,
    }
}
