//! What the last life of a store left in its folders, and the table of it.

ghost use Rattle.std.specs.Prelude.{◌≡◌, IfErr, IfOk, IfSome, Some};
ghost use Rattle.file_fleet.specs.Noting.{noted_by};
ghost use Rattle.found_recovery.specs.Starts.{IsRecoveredOfStart};
ghost use Rattle.store_folders.specs.Files.{IsSoundHere};
ghost use Rattle.registry_file.specs.File.{kept_by};
ghost use Rattle.disk_store.specs.Opened.{AreKept, IsLeft, IsNoTable, IsTableOf, RegistryHere};

use crate::asked::{NUMBERS, asked_of, kept_of, numbers_of};
use crate::fault::NotOpened;
use disk_file::DiskFile;
use embedded::recovery::{GroupOrder, Rebuilt};
use embedded::whole_will;
use file_fleet::FleetRegistry;
use file_store::{NotStarted, Options, empty_table};
use fleet_start::Found;
use found_recovery::recover_found;
use registry_file::RegistryFile;
use std::alloc::Global;
use store_folders::{
    Folders, StoreFault, find_backups, find_registry, make_registry, test_options,
};
use tablet_will::WillFault;

/// Finds the registry of the folders, or makes one with this number.
fn registry_of(
    rt: &HostRuntime,
    folders: &Folders,
    options: &Options,
    id: u64,
) -> Result<RegistryFile<DiskFile>, StoreFault>
    ensures sound { IfOk result IsSoundHere }
{
    match find_registry(rt, folders) {
        Ok(Some(registry)) => Ok(registry),
        Ok(None) => make_registry(
            rt,
            folders,
            id,
            kept_of(&numbers_of(options, folders.count())),
        ),
        Err(fault) => Err(fault),
    }
}

/// Tests whether a store was made with so many folders. A store with one folder has no number of them.
fn test_folders(registry: &RegistryFile<DiskFile>, folders: u64) -> Result<(), StoreFault> {
    if folders == 1 && registry.registry().fleet().options.len() < NUMBERS {
        return Ok(());
    }
    let mut asked = [None; NUMBERS];
    asked[NUMBERS - 1] = Some(folders);
    test_options(registry, &asked)
}

/// Finds the registry and the backups of the folders. If there is no store, one is made with this number.
pub(crate) fn find(
    rt: &HostRuntime,
    folders: &Folders,
    options: &Options,
    id: u64,
) -> Result<Found<DiskFile, RegistryFile<DiskFile>>, StoreFault>
    ensures { IfOk result (λ f. IsLeft options.now f.registry f.places.items) }
{
    let registry = match registry_of(rt, folders, options, id) {
        Ok(registry) => registry,
        Err(fault) => return Err(fault),
    };
    if let Err(fault) = test_folders(&registry, folders.count()) {
        return Err(fault);
    }
    match test_options(&registry, &asked_of(options)) {
        Ok(()) => find_backups(rt, folders, registry, options.backups),
        Err(fault) => Err(fault),
    }
}

/// Recovers the table of the master that the registry names.
fn recovered(
    alloc: Global,
    found: &Found<DiskFile, RegistryFile<DiskFile>>,
    options: &Options,
    master: u64,
) -> Result<Rebuilt, NotOpened>
    requires named { (noted_by found.now.registry).master ≡ Some master }
    ensures table { IfOk result
        (IsRecoveredOfStart (noted_by found.now.registry) found.now.places.items master) }
    ensures none { IfErr result (IsNoTable options.now (noted_by found.now.registry) found.now.places.items) }
{
    let will = match whole_will(alloc, options) {
        Ok(will) => will,
        Err(WillFault::NoMemory) => return Err(NotOpened::NotStarted(NotStarted::NoMemory)),
        Err(_) => return Err(NotOpened::NotStarted(NotStarted::OtherFleet)),
    };
    match recover_found(alloc, found, master, &will, &GroupOrder::Forward) {
        Ok(table) => Ok(table),
        Err(fault) => Err(NotOpened::NotRecovered(fault)),
    }
}

/// The table of what was found. It has nothing if the registry names no master: then nothing was answered yet.
pub(crate) fn table_of(
    alloc: Global,
    found: &Found<DiskFile, RegistryFile<DiskFile>>,
    options: &Options,
) -> Result<Rebuilt, NotOpened>
    ensures table { IfOk result (IsTableOf (noted_by found.now.registry) found.now.places.items) }
    ensures none { IfErr result (IsNoTable options.now (noted_by found.now.registry) found.now.places.items) }
{
    match found.registry().master() {
        Some(master) => recovered(alloc, found, options, master),
        None => Ok(empty_table(alloc)),
    }
}

/// The options of a registry with these numbers. `None` if it lacks some.
fn options_in(kept: &[u64]) -> Option<Options>
    ensures { IfSome result (AreKept kept.now) }
{
    if kept.len() < NUMBERS - 1 {
        return None;
    }
    Some(Options {
        backups: kept[0],
        replicas: kept[1],
        step: kept[2],
        segment: kept[3],
        seglet: kept[4],
        seglets: kept[5],
        tables: kept[6],
        history: kept[7],
        format: kept[8],
        largest: kept[9],
        live: kept[10],
    })
}

/// The options with which the store of a folder was made. `None` if the folder has no store. A store in several folders
/// has its options in the first one. The fault is one of 1, 2, 3, 6 and 7.
///
/// It has the folder locked until it returns, and reads its registry.
pub fn kept_options(rt: &HostRuntime, path: &str) -> Result<Option<Options>, StoreFault>
    ensures { IfOk result (λ o. IfSome o (λ options. (registry : RegistryHere) × IsSoundHere registry
        × AreKept (kept_by registry).fleet.options options)) }
{
    let folders = Folders::open(rt, path, &[])?;
    match find_registry(rt, &folders) {
        Ok(Some(registry)) => Ok(options_in(&registry.registry().fleet().options)),
        Ok(None) => Ok(None),
        Err(fault) => Err(fault),
    }
}
