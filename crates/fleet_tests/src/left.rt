//! A stop amid each call of a row, and what the next start finds.

use crate::alike::{are_same, with_files};
use crate::calls::{ROWS, answer_to};
use crate::making::{NEVER, found_of};
use file_fleet::FleetRegistry;
use fleet_start::Found;
use fleets::Fleets;
use registry_file::RegistryFile;
use replica::Fleet;
use std::alloc::Global;
use take_journal::{MemoryDevice, Tear};

/// More than the calls that a device has in a row. A take makes four of them.
const MOST_CALLS: u64 = 50;

/// How many calls make a registry that names three files. A backup's file has fewer.
const MAKING: u64 = 20;

/// Makes all calls.
fn call_each(fleet: &mut Fleets<MemoryDevice, RegistryFile<MemoryDevice>>) {
    for i in 0..ROWS.len() {
        let (asked, _) = &ROWS[i];
        let _ = answer_to(fleet, asked);
    }
}

/// Whether the backups that were found hold what the fleet holds.
fn holds_left(
    alloc: Global,
    fleet: &Fleets<MemoryDevice, RegistryFile<MemoryDevice>>,
    found: &Found<MemoryDevice, RegistryFile<MemoryDevice>>,
) -> bool {
    match fleet.inventory(alloc) {
        Ok(held) => match found.inventory(alloc) {
            Ok(left) => are_same(held.as_slice(), left.as_slice()),
            Err(_) => false,
        },
        Err(_) => false,
    }
}

/// Whether a registry has what the fleet has, or what it was asked to note at the stop.
fn notes_left(
    fleet: &Fleets<MemoryDevice, RegistryFile<MemoryDevice>>,
    registry: &RegistryFile<MemoryDevice>,
    stopped: bool,
) -> bool {
    let one = registry.least(1);
    let is_first = one == fleet.least(1) || (stopped && one == 2);
    let two = registry.least(2);
    is_first && (two == fleet.least(2) || (stopped && two == 5))
}

/// Whether a registry names the master that the fleet has, or the one that it was asked to name at the stop.
fn names_left(
    fleet: &Fleets<MemoryDevice, RegistryFile<MemoryDevice>>,
    registry: &RegistryFile<MemoryDevice>,
    stopped: bool,
) -> bool {
    match fleet {
        Fleets::Memory(_) => false,
        Fleets::Files(files) => {
            let named = registry.master();
            named == files.master() || (stopped && named.is_some())
        }
    }
}

/// Whether a start finds what the fleet was left with.
fn is_left(
    alloc: Global,
    fleet: &Fleets<MemoryDevice, RegistryFile<MemoryDevice>>,
    stopped: bool,
) -> bool {
    let Fleets::Files(files) = fleet else {
        return false;
    };
    match found_of(alloc, files.members()) {
        Some(found) => {
            holds_left(alloc, fleet, &found)
                && notes_left(fleet, found.registry(), stopped)
                && names_left(fleet, found.registry(), stopped)
        }
        None => false,
    }
}

/// Whether a start finds what was left when a device stopped at this call: that of a backup, or of the registry.
fn survives(alloc: Global, device: usize, stops_at: u64, tear: Tear) -> bool {
    let mut stops = [NEVER; 4];
    stops[device % 4] = stops_at;
    let [first, second, third, registry] = stops;
    match with_files(alloc, [first, second, third], registry, tear) {
        Some(mut fleet) => {
            call_each(&mut fleet);
            is_left(alloc, &fleet, registry != NEVER)
        }
        // The device stopped before there was a fleet.
        None => stops_at <= MAKING,
    }
}

/// The first stop after which another thing is found.
fn first_loss(alloc: Global, tear: Tear) -> Option<u64> {
    for stops_at in 1..MOST_CALLS {
        for device in 0..4 {
            if !survives(alloc, device, stops_at, tear) {
                return Some(stops_at);
            }
        }
    }
    None
}

#[test]
fn each_stop_leaves_what_was_answered(rt: HostRuntime) {
    let alloc = rt.alloc();
    for junk in [None, Some(1)] {
        assert_eq!(rt; first_loss(alloc, Tear { kept: 3, junk }), None);
    }
}
