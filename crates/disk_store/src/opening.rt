//! A folder is opened: the next master begins with the table that was found in it.

ghost use Rattle.std.specs.Prelude.{◌≡◌, IfErr, IfOk, None, OnOk, length};
ghost use Rattle.embedded.specs.Options.{config_of};
ghost use Rattle.file_fleet.specs.Fleet.{fleet_state};
ghost use Rattle.file_fleet.specs.Noting.{noted_by};
ghost use Rattle.recovery.specs.master.Valid.{IsValid};
ghost use Rattle.recovery.specs.master.master_state.Config.{config_fault};
ghost use Rattle.store_folders.specs.Files.{AreFoundHere, AreSafeHere};
ghost use Rattle.disk_store.specs.Opened.{IsBegun, IsLeft, IsNoLoss, IsOpened, IsWhy};

use crate::fault::NotOpened;
use crate::filing::members_of;
use crate::finding::{find, table_of};
use crate::shortening::shorten;
use disk_file::DiskFile;
use embedded::configuration;
use embedded::recovery::Rebuilt;
use file_fleet::Members;
use file_store::{FileStore, NotStarted, Options, start};
use fleet_start::Found;
use registry_file::RegistryFile;
use std::alloc::Global;
use store_folders::{Folders, StoreFault};

/// A store that has its backups in the files of a folder, or of several.
#[derive(Drop)]
pub struct DiskStore {
    /// The store itself: `put`, `get`, `delete` and `value` are its methods.
    pub store: FileStore<DiskFile, RegistryFile<DiskFile>>,
    /// How many objects the last life left.
    pub recovered: u64,
    /// The folders. No other process has one of them as long as the store lives.
    pub folders: Folders,
}

/// Tests whether masters can be made with these options.
fn test(alloc: Global, options: &Options) -> Result<(), NotStarted>
    ensures { OnOk result (config_fault (config_of options.now 1) ≡ None) }
{
    let Ok(config) = configuration(alloc, options, 1) else {
        return Err(NotStarted::NoMemory);
    };
    match config.check() {
        Ok(()) => Ok(()),
        Err(fault) => Err(NotStarted::Options(fault)),
    }
}

/// The next master begins with a table, and frees what the last one left.
fn begin(
    alloc: Global,
    table: &Rebuilt,
    options: &Options,
    members: Members<DiskFile, RegistryFile<DiskFile>>,
) -> Result<FileStore<DiskFile, RegistryFile<DiskFile>>, NotOpened>
    requires { AreSafeHere members }
    ensures begun { IfOk result (λ s. IsBegun options.now table.now s.master) }
    ensures refused { IfErr result IsNoLoss }
{
    match start(alloc, table, options, members) {
        Ok(mut store) => match store.retire() {
            Ok(()) => Ok(store),
            Err(fault) => Err(NotOpened::NotFreed(fault)),
        },
        Err(fault) => Err(NotOpened::NotStarted(fault)),
    }
}

/// The next master begins with a table over the backups that were found.
fn begin_over(
    rt: &HostRuntime,
    folders: &Folders,
    table: &Rebuilt,
    options: &Options,
    found: Found<DiskFile, RegistryFile<DiskFile>>,
) -> Result<FileStore<DiskFile, RegistryFile<DiskFile>>, NotOpened>
    requires { AreFoundHere found.places.items found.registry }
    ensures begun { IfOk result (λ s. IsBegun options.now table.now s.master) }
    ensures refused { IfErr result IsNoLoss }
{
    match members_of(rt, folders, found) {
        Ok(members) => begin(rt.alloc(), table, options, members),
        Err(fault) => Err(NotOpened::Files(fault)),
    }
}

/// The same, with how many objects the table has.
fn begin_counted(
    rt: &HostRuntime,
    folders: &Folders,
    table: &Rebuilt,
    options: &Options,
    found: Found<DiskFile, RegistryFile<DiskFile>>,
) -> Result<(FileStore<DiskFile, RegistryFile<DiskFile>>, u64), NotOpened>
    requires { AreFoundHere found.places.items found.registry }
    ensures begun { IfOk result (λ s. IsBegun options.now table.now s.0.master) }
    ensures count { IfOk result (λ s. s.1 ≡ length table.now.objects) }
    ensures refused { IfErr result IsNoLoss }
{
    match begin_over(rt, folders, table, options, found) {
        Ok(store) => Ok((store, table.objects.len() as u64)),
        Err(refused) => Err(refused),
    }
}

/// The next master begins with the table of what was found.
fn go_on(
    rt: &HostRuntime,
    folders: &Folders,
    options: &Options,
    found: Found<DiskFile, RegistryFile<DiskFile>>,
) -> Result<(FileStore<DiskFile, RegistryFile<DiskFile>>, u64), NotOpened>
    requires { IsLeft options.now found.registry found.places.items }
    ensures opened { IfOk result (λ s. IsOpened options.now s.1 s.0) }
    ensures refused { IfErr result (IsWhy options.now) }
{
    match table_of(rt.alloc(), &found, options) {
        Ok(table) => begin_counted(rt, folders, &table, options, found),
        Err(refused) => Err(refused),
    }
}

/// Opens the store of these folders.
fn open_in(
    rt: &HostRuntime,
    folders: &Folders,
    options: &Options,
    id: u64,
) -> Result<(FileStore<DiskFile, RegistryFile<DiskFile>>, u64), NotOpened>
    ensures opened { IfOk result (λ s. IsOpened options.now s.1 s.0) }
    ensures refused { IfErr result (IsWhy options.now) }
{
    match find(rt, folders, options, id) {
        Ok(found) => go_on(rt, folders, options, found),
        Err(fault) => Err(NotOpened::Files(fault)),
    }
}

impl DiskStore {
    /// Opens a folder that is there, and locks it. It doesn't wait for the lock. The next master begins with the table
    /// that the last life left: each command that was answered Ok, None or Mismatch is in it, and a last one that
    /// wasn't answered may be. In a folder without a store, a new one is made with this number, and its table has
    /// nothing.
    ///
    /// The options are those that the store was made with: only `seglets`, `history`, `largest` and `live` may be
    /// others in each life. `kept_options` tells them. A backup whose file is missing or failed gets another file. If
    /// no more backups are missing than a segment can spare, nothing is lost.
    ///
    /// If the call is refused, what the last life left is there still.
    ///
    /// Cost: it reads all files, has what they hold in memory, and writes each live object to the log of the next
    /// master.
    pub fn open(
        rt: &HostRuntime,
        path: &str,
        options: &Options,
        id: u64,
    ) -> Result<DiskStore, NotOpened>
        ensures opened { IfOk result (λ s. IsOpened options.now s.recovered s.store) }
        ensures refused { IfErr result (IsWhy options.now) }
    {
        DiskStore::open_all(rt, path, &[], options, id)
    }

    /// Opens a store in several folders, as `open` does one in a folder. The first one has the registry. Of n folders,
    /// folder b mod n has the file of backup b: with a folder on each disk, a disk that is lost is some backups that
    /// are lost. The folders are as many as those that the store was made in, in the same order.
    pub fn open_all(
        rt: &HostRuntime,
        first: &str,
        others: &[&str],
        options: &Options,
        id: u64,
    ) -> Result<DiskStore, NotOpened>
        ensures opened { IfOk result (λ s. IsOpened options.now s.recovered s.store) }
        ensures refused { IfErr result (IsWhy options.now) }
    {
        if let Err(fault) = test(rt.alloc(), options) {
            return Err(NotOpened::NotStarted(fault));
        }
        match Folders::open(rt, first, others) {
            Ok(folders) => match open_in(rt, &folders, options, id) {
                Ok((store, recovered)) => Ok(DiskStore {
                    store,
                    recovered,
                    folders,
                }),
                Err(refused) => Err(refused),
            },
            Err(fault) => Err(NotOpened::Files(fault)),
        }
    }

    /// Writes the file of each backup anew that has grown long: it has more than twice as many bytes as the backup
    /// holds, and 16 MB more. The next file has what the backup holds, and the old one is removed. What the store
    /// answered stays on the disk at any moment. Call it once after `open`, and again from time to time.
    ///
    /// It ends at the first fault, which is 6 or 7, and the store goes on with the files that it has.
    ///
    /// Cost: it writes all that the backups hold, if their files are long. Else it counts the replicas of each backup
    /// whose file has more than 16 MB.
    pub fn shorten(&mut self, rt: &HostRuntime) -> Result<(), StoreFault>
        ensures knows { self.new.store.master.knows ≡ self.old.store.master.knows }
        ensures fleet { fleet_state noted_by self.new.store.master.fleet
            ≡ fleet_state noted_by self.old.store.master.fleet }
        ensures valid { IsValid self.new.store.master.knows (fleet_state noted_by self.new.store.master.fleet) }
    {
        shorten(rt, &self.folders, &mut self.store)
    }
}
