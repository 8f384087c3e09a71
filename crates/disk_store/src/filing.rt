//! The backups of a store become a fleet: each gets a file that takes ops.

ghost use Rattle.std.specs.Prelude.{IfOk, OnOk};
ghost use Rattle.store_folders.specs.Files.{AreFoundHere, AreSafeHere};

use disk_file::DiskFile;
use file_fleet::Members;
use fleet_start::Found;
use registry_file::RegistryFile;
use store_folders::{Folders, StoreFault, put_fresh, renew};

/// Gives each missing backup a file of its own.
fn put_missing(
    rt: &HostRuntime,
    folders: &Folders,
    found: &mut Found<DiskFile, RegistryFile<DiskFile>>,
) -> Result<(), StoreFault>
    requires found { AreFoundHere found.old.places.items found.old.registry }
    ensures found { OnOk result (AreFoundHere found.new.places.items found.new.registry) }
{
    for backup in 0..found.backups() {
        if !found.has(backup) {
            if let Err(fault) = put_fresh(rt, folders, found, backup) {
                return Err(fault);
            }
        }
    }
    Ok(())
}

/// Whether the file of a backup failed in an earlier life.
fn has_failed(members: &Members<DiskFile, RegistryFile<DiskFile>>, backup: u64) -> bool {
    match members.list().get(backup as usize) {
        Some(member) => member.backup().is_out(),
        None => false,
    }
}

/// Gives another file to each backup whose own failed in an earlier life.
fn renew_failed(
    rt: &HostRuntime,
    folders: &Folders,
    members: &mut Members<DiskFile, RegistryFile<DiskFile>>,
) -> Result<(), StoreFault>
    requires { AreSafeHere members.old }
    ensures { AreSafeHere members.new }
{
    for backup in 0..members.backups() {
        if has_failed(members, backup) {
            if let Err(fault) = renew(rt, folders, members, backup) {
                return Err(fault);
            }
        }
    }
    Ok(())
}

/// The backups that were found, each with a file that takes ops.
pub(crate) fn members_of(
    rt: &HostRuntime,
    folders: &Folders,
    mut found: Found<DiskFile, RegistryFile<DiskFile>>,
) -> Result<Members<DiskFile, RegistryFile<DiskFile>>, StoreFault>
    requires { AreFoundHere found.places.items found.registry }
    ensures { IfOk result AreSafeHere }
{
    if let Err(fault) = put_missing(rt, folders, &mut found) {
        return Err(fault);
    }
    match found.into_members(rt.alloc()) {
        Ok(mut members) => match renew_failed(rt, folders, &mut members) {
            Ok(()) => Ok(members),
            Err(fault) => Err(fault),
        },
        Err(_) => Err(StoreFault::NoMemory),
    }
}
