//! A master is recovered from what a start found.

ghost use Rattle.std.specs.Prelude.{IfErr, IfOk};
ghost use Rattle.found_recovery.specs.Starts.{HasHeadline, IsLossOfStart, IsRecoveredOfStart};

use entry::NoMemory;
use file_fleet::FleetRegistry;
use fleet_start::Found;
use recovery::{GroupOrder, PlanFault, Rebuilt, RecoveryFault, Will, recover};
use std::alloc::Global;
use take_journal::Device;

/// Recovers a master from the backups that a start found, and from nothing else. The master is the one that the
/// registry names (`registry_file::Registry::master`), and the lowest head that may be used is the registry's least
/// head. A missing backup counts as lost. Nothing is written. The will says how each segment is divided into groups,
/// and the order in which turn the groups are replayed. The call is refused as `recovery::recover` refuses, and for
/// want of memory.
pub fn recover_found<D: Device + Drop, R: FleetRegistry + Drop>(
    alloc: Global,
    found: &Found<D, R>,
    master: u64,
    will: &Will,
    order: &GroupOrder,
) -> Result<Rebuilt, RecoveryFault>
    // If the files show a sound state of the master, the result is exactly the map after a prefix of its commands, with
    // each durable one among them.
    ensures recovered { IfOk result (IsRecoveredOfStart (R.noted found.now.registry) found.now.places.items master) }
    // Then a refusal names a lost head or segment, or memory ran out, if the will covers the tablets and the order
    // isn't written out. If the newest head and the segments are on the backups that were found, only want of memory
    // refuses.
    ensures refused { IfErr result (IsLossOfStart (R.noted found.now.registry) found.now.places.items master will.now
        order.now) }
    // If a master took steps and stopped, and the files show the fleet that it left, the headline is true of the
    // result.
    ensures headline { HasHeadline (R.noted found.now.registry) found.now.places.items master will.now order.now
        result }
{
    found.show_left();
    let inventory = match found.inventory(alloc) {
        Ok(inventory) => inventory,
        Err(NoMemory) => return Err(RecoveryFault::Plan(PlanFault::NoMemory)),
    };
    recover(
        alloc,
        &inventory,
        master,
        found.registry().least(master),
        will,
        order,
    )
}
