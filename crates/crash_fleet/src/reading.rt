//! Whether the call amid which the power was cut is in the crash images.

ghost use Rattle.std.specs.Prelude.{◌≡◌, ◌↔◌, IfSome, IsTrue};
ghost use Rattle.file_fleet.specs.Members.{replicas_at};
ghost use Rattle.crash_fleet.specs.State.{IsRead, ReadsRaise, ReadsTake};

use crate::image::CrashImage;
use crate::opening::{member_in_image, registry_in_image};
use crate::power::Power;
use crate::same::have_same;
use file_fleet::{FileFleet, FleetRegistry, Member};
use registry_file::RegistryFile;
use replica::Fleet;
use std::alloc::Global;
use take_journal::Device;

/// Whether two backups hold the same. None if memory runs out.
fn hold_same<D: Device>(alloc: Global, one: &Member<D>, other: &Member<D>) -> Option<bool>
    ensures { IfSome result (λ same. IsTrue same ↔ replicas_at one.now ≡ replicas_at other.now) }
{
    let mut ones = Vec::new(alloc);
    let mut others = Vec::new(alloc);
    if one.backup().memory().show(0, &mut ones).is_err() {
        return None;
    }
    if other.backup().memory().show(0, &mut others).is_err() {
        return None;
    }
    Some(have_same(&ones, &others))
}

/// The power was cut amid a take of this backup.
pub(crate) fn read_take<D: CrashImage + Drop>(
    alloc: Global,
    files: &FileFleet<D, RegistryFile<D>>,
    backup: u64,
) -> Power<D>
    ensures { IsRead (ReadsTake D.crash_image files.now backup) result }
{
    let members = files.members();
    let Some(left) = members.list().get(backup as usize) else {
        return Power::Unread;
    };
    let Some(registry) = registry_in_image(alloc, members.registry()) else {
        return Power::Unread;
    };
    let Some(found) = member_in_image(alloc, &registry, backup, left) else {
        return Power::Unread;
    };
    let Some(is_same) = hold_same(alloc, &found, left) else {
        return Power::Unread;
    };
    let takes = files.takes();
    if is_same {
        return Power::Cut(registry, takes);
    }
    if takes == u64::MAX {
        return Power::Unread;
    }
    Power::Cut(registry, takes + 1)
}

/// The power was cut amid a raise of this master's least head.
pub(crate) fn read_raise<D: CrashImage + Drop>(
    alloc: Global,
    files: &FileFleet<D, RegistryFile<D>>,
    master: u64,
) -> Power<D>
    ensures { IsRead (ReadsRaise D.crash_image files.now master) result }
{
    let Some(registry) = registry_in_image(alloc, files.members().registry()) else {
        return Power::Unread;
    };
    let takes = files.takes();
    if registry.least(master) == files.least(master) {
        return Power::Cut(registry, takes);
    }
    if takes == u64::MAX {
        return Power::Unread;
    }
    Power::Cut(registry, takes + 1)
}
