//! The backups of a store in its folders.

ghost use Rattle.std.specs.Prelude.{◌≡◌, ◌+◌, IfOk, IfSome, OnOk, length};
ghost use Rattle.registry_file.specs.File.{kept_by};
ghost use Rattle.file_fleet.specs.Files.{ShowsUnder};
ghost use Rattle.file_fleet.specs.Members.{replicas_at};
ghost use Rattle.file_fleet.specs.Noting.{noted_by};
ghost use Rattle.fleet_start.specs.First.{BeginsWith, first_text};
ghost use Rattle.fleet_start.specs.Found.{FindsWhatIsLeft};
ghost use Rattle.store_folders.specs.Files.{AreFoundHere, IsOf, IsRead, IsSoundHere};

use crate::fault::{StoreFault, of_journal};
use crate::folders::Folders;
use crate::naming::FileName;
use crate::opening::open_file;
use disk_file::{DiskFile, Opened};
use entry::NoMemory;
use file_fleet::{FleetRegistry, Member};
use fleet_start::{Found, is_journal_of, open_member};
use registry_file::RegistryFile;
use registry_text::LOST;
use std::alloc::Global;

/// Finds the backups of a store, so many of them, by the files that its registry names. A backup is missing if the
/// registry names no file for it, or if the file isn't there. What a crash left torn at a file's end is cut off, and
/// nothing else is written. The fault is one of 5, 6 and 7.
///
/// Cost: it reads each file whole. The backups have all replicas in memory then.
pub fn find_backups(
    rt: &HostRuntime,
    folders: &Folders,
    registry: RegistryFile<DiskFile>,
    backups: u64,
) -> Result<Found<DiskFile, RegistryFile<DiskFile>>, StoreFault>
    requires sound { IsSoundHere registry }

    ensures found { IfOk result (λ f. AreFoundHere f.places.items f.registry) }
    ensures count { IfOk result (λ f. length f.places.items ≡ backups) }
    ensures registry { IfOk result (λ f. f.registry ≡ registry) }

    // What is found is what the files hold, beside any fleet that they show.
    ensures left { IfOk result (λ f. FindsWhatIsLeft (noted_by f.registry) f.places.items) }
{
    let mut found = Found::new(rt.alloc(), registry);
    for backup in 0..backups {
        find_next(rt, folders, &mut found, backup)?;
    }
    found.show_left();
    Ok(found)
}

/// Finds the next backup, which has this number.
fn find_next(
    rt: &HostRuntime,
    folders: &Folders,
    found: &mut Found<DiskFile, RegistryFile<DiskFile>>,
    backup: u64,
) -> Result<(), StoreFault>
    requires found { AreFoundHere found.old.places.items found.old.registry }
    requires next { length found.old.places.items ≡ backup }

    ensures found { AreFoundHere found.new.places.items found.new.registry }
    ensures count { OnOk result (length found.new.places.items ≡ backup + 1) }
    ensures registry { found.new.registry ≡ found.old.registry }
{
    match open_backup(rt, folders, found.registry(), backup)? {
        Some(member) => match found.add(member) {
            Ok(()) => Ok(()),
            Err(NoMemory) => Err(StoreFault::NoMemory),
        },
        None => match found.add_missing() {
            Ok(()) => Ok(()),
            Err(NoMemory) => Err(StoreFault::NoMemory),
        },
    }
}

/// Opens the file that the registry names as a backup's journal. `None` if it names none, or if the file isn't there.
fn open_backup(
    rt: &HostRuntime,
    folders: &Folders,
    registry: &RegistryFile<DiskFile>,
    backup: u64,
) -> Result<Option<Member<DiskFile>>, StoreFault>
    ensures { IfOk result (λ o. IfSome o (λ h. IsOf registry.now backup h)) }
{
    let id = registry.file(backup);
    if id == LOST {
        return Ok(None);
    }
    match open_file(rt, folders, FileName::Journal { backup, id })? {
        Some(opened) => match member_in(rt.alloc(), registry, backup, opened) {
            Ok(member) => Ok(Some(member)),
            Err(fault) => Err(fault),
        },
        None => Ok(None),
    }
}

/// The backup whose journal is in a file that the registry names as such.
pub fn member_in(
    alloc: Global,
    registry: &RegistryFile<DiskFile>,
    backup: u64,
    opened: Opened,
) -> Result<Member<DiskFile>, StoreFault>
    requires read { IsRead opened }

    ensures member { IfOk result (λ h. IsOf registry.now backup h) }
    ensures shows { IfOk result (λ h. ShowsUnder ((noted_by registry.now).span backup) (replicas_at h)
        opened.bytes.items) }

    // It is the journal of this store, of this backup, and of this id.
    ensures own { IfOk result (λ h. BeginsWith (first_text (kept_by registry.now).fleet.id backup h.id)
        opened.bytes.items) }
{
    let id = registry.file(backup);
    let file = FileName::Journal { backup, id };
    if !is_journal_of(&opened.bytes, registry.registry().fleet().id, backup, id) {
        return Err(StoreFault::Foreign(file));
    }
    match open_member(alloc, registry, backup, opened.file, &opened.bytes) {
        Ok(member) => Ok(member),
        Err(fault) => Err(of_journal(file, fault)),
    }
}
