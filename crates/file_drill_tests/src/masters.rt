//! Masters over one backup with a file, whose devices stop.

ghost use Rattle.std.specs.Prelude.{◌≡◌, IfSome, None};
ghost use Rattle.recovery.specs.master.master_state.Config.{config_fault};

use crash_fleet::CrashFleet;
use entry::{Tablet, Tablets};
use fleet_start::{Found, begin_member, begin_registry};
use recovery::master::{Config, KeyHasher, Master};
use replica::Fleet;
use std::alloc::Global;
use take_journal::{MemoryDevice, Tear};

/// One table of one tablet.
pub(crate) const TABLETS: &[Tablet] = &[Tablet {
    table: 1,
    first: 0,
    last: u64::MAX,
}];

/// What a stop leaves of a write: nothing.
const WHOLE: Tear = Tear {
    kept: 0,
    junk: None,
};

/// Master 1 with one backup.
fn config(alloc: Global) -> Option<Config>
    ensures { IfSome result (λ config. config_fault config ≡ None) }
{
    let Ok(tablets) = Vec::from_slice(alloc, TABLETS) else {
        return None;
    };
    let config = Config {
        master: 1,
        backups: 1,
        replicas: 1,
        step: 1,
        segment: 512,
        seglet: 64,
        seglets: 64,
        tablets: Tablets::new(tablets),
        history: 1024,
        hasher: KeyHasher::new(),
        format: 2,
        largest: u64::MAX,
        most_live: u64::MAX,
    };
    match config.check() {
        Ok(()) => Some(config),
        Err(_) => None,
    }
}

/// A master over a new file. The device of its backup and that of the registry stop at these calls. None if one stops
/// too early.
pub(crate) fn master(
    alloc: Global,
    backup: u64,
    registry: u64,
) -> Option<Master<CrashFleet<MemoryDevice>>> {
    let Ok(device) = MemoryDevice::new(alloc, b"", registry, WHOLE) else {
        return None;
    };
    let Ok(registry) = begin_registry(alloc, device, 7, &[3]) else {
        return None;
    };
    let mut found = Found::new(alloc, registry);
    let Ok(device) = MemoryDevice::new(alloc, b"", backup, WHOLE) else {
        return None;
    };
    let Ok(member) = begin_member(alloc, 7, 0, 1, device) else {
        return None;
    };
    let Ok(()) = found.add_missing() else {
        return None;
    };
    let Ok(()) = found.put(alloc, 0, member) else {
        return None;
    };
    let Ok(members) = found.into_members(alloc) else {
        return None;
    };
    let fleet = CrashFleet::new(alloc, members);
    let Some(config) = config(alloc) else {
        return None;
    };
    if fleet.least(config.master) != 0 || fleet.members().backups() < config.backups {
        return None;
    }
    match Master::new(alloc, config, fleet) {
        Ok(master) => Some(master),
        Err(_) => None,
    }
}
