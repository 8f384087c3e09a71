//! Further files for backups of a store in its folders.

ghost use Rattle.std.specs.Prelude.{◌≡◌, ◌<◌, ◌+◌, IfOk, IfSome, OnErr, OnOk, Some, false, length, set};
ghost use Rattle.replica.specs.Take.{no_limit};
ghost use Rattle.take_journal.specs.Frames.{recovered};
ghost use Rattle.take_journal.specs.Journal.{device_of};
ghost use Rattle.disk_file.specs.Disk.{contents, has_failed, may_leave};
ghost use Rattle.file_backup.specs.Mirror.{IsJournalOf};
ghost use Rattle.file_fleet.specs.Files.{with_file};
ghost use Rattle.file_fleet.specs.Fleet.{fleet_state};
ghost use Rattle.file_fleet.specs.Members.{picture_of};
ghost use Rattle.file_fleet.specs.Moments.{LeavesEither};
ghost use Rattle.file_fleet.specs.Noting.{noted_by};
ghost use Rattle.fleet_start.specs.Found.{is_found};
ghost use Rattle.store_folders.specs.Files.{AreFoundHere, AreSafeHere, PutsFresh, RenewsOrStays, left_of, time};
ghost use Rattle.store_folders.specs.Files.{RewritesOrStays};

use crate::fault::{StoreFault, of_journal};
use crate::folders::Folders;
use crate::naming::FileName;
use crate::opening::make_file;
use disk_file::DiskFile;
use file_fleet::{FileFleet, FleetRegistry, Members, NoteFault};
use fleet_start::{Found, begin_member, first_text};
use registry_file::RegistryFile;
use take_journal::Journal;

/// Gives a missing backup a file of its own. The backup holds nothing. The registry names the file before the answer is
/// Ok. The fault is 6 or 7.
///
/// A process that dies amid the call leaves the backup missing, or with this file.
pub fn put_fresh(
    rt: &HostRuntime,
    folders: &Folders,
    found: &mut Found<DiskFile, RegistryFile<DiskFile>>,
    backup: u64,
) -> Result<(), StoreFault>
    requires found { AreFoundHere found.old.places.items found.old.registry }
    requires within { backup < length found.old.places.items }
    requires missing { is_found found.old.places.items backup ≡ false }

    ensures found { OnOk result (AreFoundHere found.new.places.items found.new.registry) }
    ensures put { OnOk result (PutsFresh found.old.places.items backup found.new.places.items) }
    ensures same { OnErr result (found.new.places.items ≡ found.old.places.items) }
    ensures count { length found.new.places.items ≡ length found.old.places.items }

    // A crash at any moment of the call leaves what the registry kept before it, or with this file.
    ensures any_moment { LeavesEither noted_by time left_of
        (with_file (noted_by found.old.registry) backup ((noted_by found.old.registry).file backup + 1))
        found.old.registry found.new.registry }
{
    let store = found.registry().registry().fleet().id;
    let Some(id) = next_id(found.registry(), backup) else {
        return Err(StoreFault::NoMemory);
    };
    let file = FileName::Journal { backup, id };
    let device = make_file(rt, folders, file)?;
    let fresh = match begin_member(rt.alloc(), store, backup, id, device) {
        Ok(fresh) => fresh,
        Err(fault) => return Err(of_journal(file, fault)),
    };
    match found.put(rt.alloc(), backup, fresh) {
        Ok(()) => Ok(()),
        Err(fault) => Err(not_noted(fault)),
    }
}

/// Gives another file to a backup whose own failed. The backup holds what it held, and takes ops again. The registry
/// names the file before the answer is Ok, and the old one is removed then. The fault is 6 or 7.
///
/// Cost: it writes all that the backup holds.
pub fn renew(
    rt: &HostRuntime,
    folders: &Folders,
    members: &mut Members<DiskFile, RegistryFile<DiskFile>>,
    backup: u64,
) -> Result<(), StoreFault>
    requires safe { AreSafeHere members.old }

    ensures safe { AreSafeHere members.new }
    ensures same { picture_of members.new.list.items ≡ picture_of members.old.list.items }
    ensures count { length members.new.list.items ≡ length members.old.list.items }
    ensures least { (noted_by members.new.registry).least ≡ (noted_by members.old.registry).least }

    // A crash at any moment of the call leaves files that show the backups.
    ensures any_moment { members.old.is_halted ≡ false → RenewsOrStays members.old backup
        ((noted_by members.old.registry).file backup + 1) members.new.registry }
{
    let old = members.registry().file(backup);
    let copied = match copy_of(rt, folders, members, backup) {
        Ok(copied) => copied,
        Err(fault) => return Err(fault),
    };
    match members.switch(rt.alloc(), backup, copied.id, copied.journal, copied.frames) {
        Ok(_) => {
            remove(rt, folders, FileName::Journal { backup, id: old });
            Ok(())
        }
        Err((fault, _)) => Err(not_noted(fault)),
    }
}

/// Writes what a backup of a fleet holds to another file, in which it goes on. So what it held before takes no room on
/// the disk any more. The registry names the file before the answer is Ok, and the old one is removed then. The fault
/// is 6 or
/// 7. After it the backup goes on in the file that it had; if the registry failed, the fleet is halted.
///
/// Cost: it writes all that the backup holds.
pub fn rewrite(
    rt: &HostRuntime,
    folders: &Folders,
    fleet: &mut FileFleet<DiskFile, RegistryFile<DiskFile>>,
    backup: u64,
) -> Result<(), StoreFault>
    ensures same { fleet_state noted_by fleet.new ≡ fleet_state noted_by fleet.old }

    // A crash at any moment of the call leaves files that show the fleet.
    ensures any_moment { fleet.old.members.is_halted ≡ false → RewritesOrStays fleet.old backup
        ((noted_by fleet.old.members.registry).file backup + 1) fleet.new.members.registry }
{
    let old = fleet.members().registry().file(backup);
    let copied = match copy_of(rt, folders, fleet.members(), backup) {
        Ok(copied) => copied,
        Err(fault) => return Err(fault),
    };
    match fleet.switch(backup, copied.id, copied.journal, copied.frames) {
        Ok(_) => {
            remove(rt, folders, FileName::Journal { backup, id: old });
            Ok(())
        }
        Err((fault, _)) => Err(not_noted(fault)),
    }
}

/// A file with what a backup holds, which the registry doesn't name yet.
#[derive(Drop)]
struct Copied {
    id: u64,
    journal: Journal<DiskFile>,
    frames: u64,
}

/// Writes what a backup holds to its next file.
fn copy_of(
    rt: &HostRuntime,
    folders: &Folders,
    members: &Members<DiskFile, RegistryFile<DiskFile>>,
    backup: u64,
) -> Result<Copied, StoreFault>
    ensures copied { IfOk result (λ c. IsJournalOf contents may_leave has_failed
        (picture_of members.now.list.items backup) c.journal) }
    ensures counted { IfOk result (λ c. c.frames ≡ length (recovered (contents (device_of c.journal)))) }
    ensures limit { IfOk result (λ c. c.frames < no_limit) }
    ensures id { IfOk result (λ c. c.id ≡ (noted_by members.now.registry).file backup + 1) }
{
    let store = members.registry().registry().fleet().id;
    let Some(id) = next_id(members.registry(), backup) else {
        return Err(StoreFault::NoMemory);
    };
    let file = FileName::Journal { backup, id };
    let mut journal = Journal::new(make_file(rt, folders, file)?);
    let first = first_text(store, backup, id);
    match members.copy(rt.alloc(), backup, &first, &mut journal) {
        Ok(u64::MAX) => Err(StoreFault::NoMemory),
        Ok(frames) => Ok(Copied {
            id,
            journal,
            frames,
        }),
        Err(fault) => {
            remove(rt, folders, file);
            Err(of_journal(file, fault))
        }
    }
}

/// The id of a backup's next file. It isn't 0. `None` if no id is left.
fn next_id(registry: &RegistryFile<DiskFile>, backup: u64) -> Option<u64>
    ensures { IfSome result (λ id. id ≡ (noted_by registry.now).file backup + 1) }
{
    registry.file(backup).checked_add(1)
}

/// Why the registry wasn't written, as a fault of its store.
fn not_noted(fault: NoteFault) -> StoreFault {
    match fault {
        NoteFault::NoMemory => StoreFault::NoMemory,
        NoteFault::Failed => StoreFault::Disk(FileName::Registry),
    }
}

/// Removes a file that doesn't count any more, if it can.
fn remove(rt: &HostRuntime, folders: &Folders, file: FileName) {
    if let Ok(name) = file.text(rt.alloc()) {
        let _ = folders.of(file).remove_file(rt, name.as_str());
    }
}
