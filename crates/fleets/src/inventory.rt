//! All replicas of a fleet with files.

ghost use Rattle.std.specs.Prelude.{IfOk};
ghost use Rattle.replica.specs.Picture.{AreHeld};
ghost use Rattle.backup.specs.Inventory.{IsRising};
ghost use Rattle.file_fleet.specs.Members.{picture_of};

use entry::NoMemory;
use file_fleet::Member;
use replica::Inventory;
use std::alloc::Global;
use take_journal::Device;

/// All replicas of some backups, by backup, then by master, then by segment.
pub(crate) fn inventory_of<'a, D: Device>(
    alloc: Global,
    members: &'a [Member<D>],
) -> Result<Inventory<'a>, NoMemory>
    ensures shown { IfOk result (λ hs. AreHeld hs (picture_of members.entry.now)) }
    ensures rising { IfOk result (λ hs. IsRising hs) }
{
    let mut list = Vec::new(alloc);
    for (backup, member) in members.iter().enumerate() {
        member.backup().memory().show(backup as u64, &mut list)?;
    }
    Ok(Inventory::new(list))
}
