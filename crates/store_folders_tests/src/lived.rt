//! A store in two folders of the system, from start to start.

ghost use Rattle.std.specs.Prelude.{◌≡◌, ◌<◌, IfOk, OnOk, length};
ghost use Rattle.store_folders.specs.Files.{AreFoundHere, IsSoundHere};

use disk_file::DiskFile;
use file_fleet::{FileFleet, FleetRegistry};
use fleet_start::Found;
use registry_file::RegistryFile;
use std::{env, fs, process};
use store_folders::{
    Folders, StoreFault, find_backups, find_registry, make_registry, put_fresh, renew, rewrite,
    test_options,
};

/// The backups of a store, as a start found them.
type Backups = Found<DiskFile, RegistryFile<DiskFile>>;

/// Finds a registry or makes one, of a store with two backups and one replica.
fn registry_of(rt: &HostRuntime, folders: &Folders) -> Result<RegistryFile<DiskFile>, StoreFault>
    ensures { IfOk result IsSoundHere }
{
    match find_registry(rt, folders) {
        Ok(Some(registry)) => match test_options(&registry, &[Some(2), None]) {
            Ok(()) => Ok(registry),
            Err(fault) => Err(fault),
        },
        Ok(None) => make_registry(rt, folders, 9, &[2, 1]),
        Err(fault) => Err(fault),
    }
}

/// Gives a backup a file if it is missing, and answers whether it was.
fn put_missing(
    rt: &HostRuntime,
    folders: &Folders,
    found: &mut Backups,
    backup: u64,
) -> Result<bool, StoreFault>
    requires found { AreFoundHere found.old.places.items found.old.registry }
    requires within { backup < length found.old.places.items }
    ensures found { OnOk result (AreFoundHere found.new.places.items found.new.registry) }
    ensures count { length found.new.places.items ≡ length found.old.places.items }
{
    if found.has(backup) {
        return Ok(false);
    }
    match put_fresh(rt, folders, found, backup) {
        Ok(()) => Ok(true),
        Err(fault) => Err(fault),
    }
}

/// What a start answers: whether backup 1 was missing, and the ids of the last files of both backups.
type Answer = (bool, u64, u64);

/// Starts the store, renews the file of backup 0, and writes that of backup 1 anew. Backup 1 has its file in the other
/// folder.
fn start(rt: &HostRuntime, path: &str, other: &str) -> Result<Answer, StoreFault> {
    let folders = Folders::open(rt, path, &[other])?;
    let registry = registry_of(rt, &folders)?;
    let mut found = find_backups(rt, &folders, registry, 2)?;
    put_missing(rt, &folders, &mut found, 0)?;
    let was_missing = put_missing(rt, &folders, &mut found, 1)?;
    match found.into_members(rt.alloc()) {
        Ok(mut members) => {
            renew(rt, &folders, &mut members, 0)?;
            let mut fleet = FileFleet::new(rt.alloc(), members);
            rewrite(rt, &folders, &mut fleet, 1)?;
            let registry = fleet.members().registry();
            Ok((was_missing, registry.file(0), registry.file(1)))
        }
        Err(_) => Err(StoreFault::NoMemory),
    }
}

/// What a start answers, with the number of a fault.
fn answer_of(rt: &HostRuntime, path: &str, other: &str) -> Result<Answer, u8> {
    match start(rt, path, other) {
        Ok(answer) => Ok(answer),
        Err(fault) => Err(fault.number()),
    }
}

/// The path of a file in a folder.
fn path_of(rt: &HostRuntime, path: &str, name: &str) -> anyhow::Result<String> {
    Ok(format!(in rt.alloc(); "{path}/{name}")?)
}

/// The files that the store has, from time to time.
const FILES: [&str; 10] = [
    "registry",
    "backup-0-1",
    "backup-0-2",
    "backup-0-3",
    "backup-0-4",
    "backup-1-1",
    "backup-1-2",
    "backup-1-3",
    "backup-1-4",
    "backup-1-5",
];

/// Removes the files of the store from a folder, and answers how many were there.
fn clear(rt: &HostRuntime, path: &str) -> anyhow::Result<usize> {
    let mut removed = 0usize;
    for i in 0..FILES.len() {
        if fs::remove_file(rt, path_of(rt, path, FILES[i])?).is_ok() {
            removed = removed.saturating_add(1);
        }
    }
    Ok(removed)
}

/// Whether a store in these folders, which have no files, is started again and again as it should be.
fn lives(rt: &HostRuntime, path: &str, other: &str) -> anyhow::Result<bool> {
    let begins = answer_of(rt, path, other) == Ok((true, 2, 2));
    let goes_on = answer_of(rt, path, other) == Ok((false, 3, 3));

    // A backup whose file is gone gets another one.
    fs::remove_file(rt, path_of(rt, other, "backup-1-3")?)?;
    let puts = answer_of(rt, path, other) == Ok((true, 4, 5));

    // One folder can't be two.
    let is_one = answer_of(rt, path, path) == Err(2);

    // A file that isn't the backup's journal is refused, and so are folders without their registry.
    fs::write(rt, path_of(rt, other, "backup-1-5")?, "another text")?;
    let refuses = answer_of(rt, path, other) == Err(5);
    fs::remove_file(rt, path_of(rt, path, "registry")?)?;
    fs::remove_file(rt, path_of(rt, path, "backup-0-4")?)?;
    let misses = answer_of(rt, path, other) == Err(3);
    Ok(begins && goes_on && puts && is_one && refuses && misses)
}

#[test]
fn a_store_goes_on_in_its_folders(rt: HostRuntime) -> anyhow::Result<()> {
    let name = format!(in rt.alloc(); "ramlog-store-{}", process::id(rt.process()))?;
    let folder = env::temp_dir(&rt)?.join(rt.alloc(), name.as_str())?;
    let path = folder.to_str().unwrap_or("");
    let other = path_of(&rt, path, "other")?;
    // A run that was cut short may have left files.
    fs::create_dir_all(&rt, other.as_str())?;
    clear(&rt, path)?;
    clear(&rt, other.as_str())?;
    let lives = lives(&rt, path, other.as_str());
    let left = (clear(&rt, path)?, clear(&rt, other.as_str())?);
    fs::remove_dir(&rt, other.as_str())?;
    fs::remove_dir(&rt, path)?;
    assert!(rt; lives?);
    assert_eq!(rt; left, (0, 1));
    assert_eq!(rt; answer_of(&rt, path, path), Err(1));
    Ok(())
}
