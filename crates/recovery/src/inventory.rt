//! Asks backups for what they hold.

ghost use Rattle.std.specs.Prelude.{◌<◌, length, IfOk, OnErr};
ghost use Rattle.replica.specs.Picture.{AreHeld, IsOnce, left_on};
ghost use Rattle.recovery.specs.Kept.{is_kept, AreDifferent};

use entry::NoMemory;
use replica::{Fleet, Inventory};
use std::alloc::Global;

/// Lists all replicas that the backups in `kept` hold, backup by backup. The replicas of a backup that is named twice
/// are listed twice. Their bytes stay with the backups. Only want of memory refuses the call.
pub fn inventory_of<'f, F: Fleet>(
    alloc: Global,
    fleet: &'f F,
    kept: &[u64],
) -> Result<Inventory<'f>, NoMemory>
    ensures shown { IfOk result (λ hs. AreHeld hs (left_on (is_kept kept.now) (F.state fleet.entry.now).picture)) }
    ensures once { IfOk result (λ hs. AreDifferent kept.now → IsOnce hs) }
    ensures refused { OnErr result (0 < length kept.now) }
{
    let mut list = Vec::new(alloc);
    for backup in kept {
        let mut more = fleet.holdings(alloc, *backup)?;
        list.append(&mut more)?;
    }
    Ok(Inventory::new(list))
}
