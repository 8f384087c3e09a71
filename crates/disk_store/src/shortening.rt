//! Files that have grown long are written anew, and shorter.

ghost use Rattle.std.specs.Prelude.{◌≡◌};
ghost use Rattle.file_fleet.specs.Fleet.{fleet_state};
ghost use Rattle.file_fleet.specs.Noting.{noted_by};
ghost use Rattle.recovery.specs.master.Valid.{IsValid};

use disk_file::DiskFile;
use embedded::recovery::master::Master;
use file_fleet::{FileFleet, Member};
use file_store::FileStore;
use registry_file::RegistryFile;
use replica::{Fleet, Holding};
use std::alloc::Global;
use store_folders::{Folders, StoreFault, rewrite};

/// So many bytes more than twice what its backup holds a file may have.
const SLACK: u64 = 16 << 20;

/// A fleet with files on the disk.
type DiskFleet = FileFleet<DiskFile, RegistryFile<DiskFile>>;

/// How many bytes these replicas have.
fn bytes_in(holdings: &[Holding<'_>]) -> u64 {
    let mut sum = 0u64;
    for holding in holdings {
        sum = sum.saturating_add(holding.bytes.as_slice().len() as u64);
    }
    sum
}

/// How many bytes the file of a backup has, if the backup isn't out.
fn file_len(member: Option<&Member<DiskFile>>) -> u64 {
    match member {
        Some(member) if !member.backup().is_out() => member.backup().journal().len(),
        _ => 0,
    }
}

/// Whether the file of a backup is long: it has more than twice as many bytes as the backup holds, and `SLACK` more. If
/// memory runs out, it isn't.
fn is_long(alloc: Global, fleet: &DiskFleet, backup: u64) -> bool {
    let len = file_len(fleet.members().list().get(backup as usize));
    if len <= SLACK {
        return false;
    }
    match fleet.holdings(alloc, backup) {
        Ok(holdings) => len - SLACK > bytes_in(holdings.as_slice()).saturating_mul(2),
        Err(_) => false,
    }
}

/// Writes the file of a backup anew if it is long.
fn shorten_one(
    rt: &HostRuntime,
    folders: &Folders,
    master: &mut Master<DiskFleet>,
    backup: u64,
) -> Result<(), StoreFault>
    ensures knows { master.new.knows ≡ master.old.knows }
    ensures fleet { fleet_state noted_by master.new.fleet ≡ fleet_state noted_by master.old.fleet }
{
    if is_long(rt.alloc(), &master.fleet, backup) {
        return rewrite(rt, folders, &mut master.fleet, backup);
    }
    Ok(())
}

/// Writes each file of a store anew that is long: `DiskStore::shorten` says when. It is for those who have lent the
/// store and its folders apart.
pub fn shorten(
    rt: &HostRuntime,
    folders: &Folders,
    store: &mut FileStore<DiskFile, RegistryFile<DiskFile>>,
) -> Result<(), StoreFault>
    ensures knows { store.new.master.knows ≡ store.old.master.knows }
    ensures fleet { fleet_state noted_by store.new.master.fleet ≡ fleet_state noted_by store.old.master.fleet }
    ensures valid { IsValid store.new.master.knows (fleet_state noted_by store.new.master.fleet) }
{
    shorten_all(rt, folders, &mut store.master)
}

/// Writes each file anew that is long. The call ends at the first fault.
fn shorten_all(
    rt: &HostRuntime,
    folders: &Folders,
    master: &mut Master<DiskFleet>,
) -> Result<(), StoreFault>
    ensures knows { master.new.knows ≡ master.old.knows }
    ensures fleet { fleet_state noted_by master.new.fleet ≡ fleet_state noted_by master.old.fleet }
    ensures valid { IsValid master.new.knows (fleet_state noted_by master.new.fleet) }
{
    let mut result = Ok(());
    for backup in 0..master.fleet.members().backups() {
        if result.is_ok() {
            result = shorten_one(rt, folders, master, backup);
        }
    }
    master.show_valid();
    result
}
