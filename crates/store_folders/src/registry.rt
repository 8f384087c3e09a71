//! The registry of a store in folders.

ghost use Rattle.std.specs.Prelude.{◌≡◌, [], IfErr, IfNone, IfOk, IfSome};
ghost use Rattle.take_journal.specs.Frames.{recovered};
ghost use Rattle.registry_file.specs.File.{Shows, kept_by};
ghost use Rattle.registry_file.specs.Kept.{begun};
ghost use Rattle.store_folders.specs.Faults.{TellsOfRegistry};
ghost use Rattle.store_folders.specs.Files.{IsRead, IsSoundHere};

use crate::fault::{StoreFault, of_registry};
use crate::folders::Folders;
use crate::naming::FileName;
use crate::opening::{make_file, of_folder, open_file};
use disk_file::{DiskFile, Opened};
use fleet_start::{begin_registry, open_registry};
use registry_file::{RegistryFault, RegistryFile};
use std::alloc::Global;

/// Finds the registry of the store in these folders. `None` if there is no store: a process may have died as it made
/// one. What a crash left torn at the file's end is cut off, and nothing else is written. The fault is one of 1, 3, 6
/// and 7.
///
/// Cost: it reads the whole file, and has memory of twice its length for a time.
pub fn find_registry(
    rt: &HostRuntime,
    folders: &Folders,
) -> Result<Option<RegistryFile<DiskFile>>, StoreFault>
    ensures sound { IfOk result (λ o. IfSome o IsSoundHere) }
{
    if let Some(opened) = open_file(rt, folders, FileName::Registry)? {
        if let Some(registry) = registry_in(rt.alloc(), opened)? {
            return Ok(Some(registry));
        }
    }
    match folders.have_journals(rt) {
        Ok(false) => Ok(None),
        Ok(true) => Err(StoreFault::NoRegistry),
        Err(error) => Err(of_folder(error)),
    }
}

/// The registry that a file keeps. `None` if the file keeps nothing: then nothing in it was ever acknowledged.
pub fn registry_in(
    alloc: Global,
    opened: Opened,
) -> Result<Option<RegistryFile<DiskFile>>, StoreFault>
    requires read { IsRead opened }

    ensures sound { IfOk result (λ o. IfSome o IsSoundHere) }
    ensures shows { IfOk result (λ o. IfSome o (λ r. Shows (kept_by r) opened.bytes.items)) }
    ensures none { IfOk result (λ o. IfNone o (recovered opened.bytes.items ≡ [])) }

    // It is named damaged only if no crash can have left it.
    ensures refused { IfErr result (λ fault. TellsOfRegistry fault opened.bytes.items) }
{
    match open_registry(alloc, opened.file, &opened.bytes) {
        Ok(registry) => Ok(Some(registry)),
        Err(RegistryFault::NotBegun) => Ok(None),
        Err(fault) => Err(of_registry(fault)),
    }
}

/// Makes the registry of a new store, with a number of its own and with these options. It names no files yet, and no
/// master. Call it if `find_registry` found none. The fault is 6 or 7.
///
/// A process that dies amid the call leaves no store, or this one.
pub fn make_registry(
    rt: &HostRuntime,
    folders: &Folders,
    id: u64,
    options: &[u64],
) -> Result<RegistryFile<DiskFile>, StoreFault>
    ensures sound { IfOk result IsSoundHere }
    ensures begun { IfOk result (λ r. kept_by r ≡ begun (record { id = id; options = options.now })) }
{
    let file = make_file(rt, folders, FileName::Registry)?;
    match begin_registry(rt.alloc(), file, id, options) {
        Ok(registry) => Ok(registry),
        Err(fault) => Err(of_registry(fault)),
    }
}
