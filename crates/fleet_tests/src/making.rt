//! Backups with files in memory, and what a start finds of them.

ghost use Rattle.std.specs.Prelude.{◌≡◌, IfSome, true};
ghost use Rattle.take_journal.specs.Memory.{memory_bytes, memory_has_failed, memory_leaves};
ghost use Rattle.file_fleet.specs.Members.{AreSafe};
ghost use Rattle.file_fleet.specs.Noting.{IsSound, noted_by};
ghost use Rattle.fleet_start.specs.Found.{AreFound};

use file_fleet::{FleetRegistry, Member, Members};
use fleet_start::{Found, begin_member, begin_registry, open_member, open_registry};
use registry_file::RegistryFile;
use std::alloc::Global;
use take_journal::{MemoryDevice, Tear};

/// A device that never stops.
pub(crate) const NEVER: u64 = u64::MAX;

/// What a stop leaves of a write: nothing.
pub(crate) const WHOLE: Tear = Tear {
    kept: 0,
    junk: None,
};

/// The registry of a new store. Its device stops at this call.
fn begun(
    alloc: Global,
    stops_at: u64,
    tear: Tear,
) -> Option<Found<MemoryDevice, RegistryFile<MemoryDevice>>>
    ensures { IfSome result (λ f. AreFound memory_bytes memory_leaves memory_has_failed (λ r. noted_by r)
        (λ r. IsSound memory_bytes memory_leaves memory_has_failed r) f.places.items f.registry) }
{
    let Ok(device) = MemoryDevice::new(alloc, b"", stops_at, tear) else {
        return None;
    };
    match begin_registry(alloc, device, 7, &[3]) {
        Ok(registry) => Some(Found::new(alloc, registry)),
        Err(_) => None,
    }
}

/// Adds a backup with a new file, whose device stops at this call.
fn add_fresh(
    alloc: Global,
    found: &mut Found<MemoryDevice, RegistryFile<MemoryDevice>>,
    stops_at: u64,
    tear: Tear,
) -> bool
    requires { AreFound memory_bytes memory_leaves memory_has_failed (λ r. noted_by r)
        (λ r. IsSound memory_bytes memory_leaves memory_has_failed r) found.old.places.items found.old.registry }
    ensures { result ≡ true → AreFound memory_bytes memory_leaves memory_has_failed (λ r. noted_by r)
        (λ r. IsSound memory_bytes memory_leaves memory_has_failed r) found.new.places.items found.new.registry }
{
    let Ok(device) = MemoryDevice::new(alloc, b"", stops_at, tear) else {
        return false;
    };
    let backup = found.backups();
    match begin_member(alloc, 7, backup, 1, device) {
        Ok(member) => {
            if found.add_missing().is_err() {
                return false;
            }
            found.put(alloc, backup, member).is_ok()
        }
        Err(_) => false,
    }
}

/// Three new backups, and their registry. The devices of the backups and of the registry stop at these calls. None if
/// one stops too early.
pub(crate) fn members(
    alloc: Global,
    stops: [u64; 3],
    registry: u64,
    tear: Tear,
) -> Option<Members<MemoryDevice, RegistryFile<MemoryDevice>>>
    ensures { IfSome result (λ m. AreSafe memory_bytes memory_leaves memory_has_failed (λ r. noted_by r)
        (λ r. IsSound memory_bytes memory_leaves memory_has_failed r) m) }
{
    let Some(mut found) = begun(alloc, registry, tear) else {
        return None;
    };
    for i in 0..3 {
        if !add_fresh(alloc, &mut found, stops[i], tear) {
            return None;
        }
    }
    match found.into_members(alloc) {
        Ok(members) => Some(members),
        Err(_) => None,
    }
}

/// Adds what a crash leaves of a backup now. The registry has to name the file that the backup goes on in.
fn add_left(
    alloc: Global,
    found: &mut Found<MemoryDevice, RegistryFile<MemoryDevice>>,
    left: &Member<MemoryDevice>,
) -> bool
    requires { AreFound memory_bytes memory_leaves memory_has_failed (λ r. noted_by r)
        (λ r. IsSound memory_bytes memory_leaves memory_has_failed r) found.old.places.items found.old.registry }
    ensures { AreFound memory_bytes memory_leaves memory_has_failed (λ r. noted_by r)
        (λ r. IsSound memory_bytes memory_leaves memory_has_failed r) found.new.places.items found.new.registry }
{
    let disk = left.backup().journal().device().disk();
    let Ok(device) = MemoryDevice::new(alloc, disk, NEVER, WHOLE) else {
        return false;
    };
    let backup = found.backups();
    if found.registry().file(backup) != left.id() {
        return false;
    }
    match open_member(alloc, found.registry(), backup, device, disk) {
        Ok(member) => found.add(member).is_ok(),
        Err(_) => false,
    }
}

/// What a crash leaves of a registry now.
fn left_registry(
    alloc: Global,
    left: &RegistryFile<MemoryDevice>,
) -> Option<Found<MemoryDevice, RegistryFile<MemoryDevice>>>
    ensures { IfSome result (λ f. AreFound memory_bytes memory_leaves memory_has_failed (λ r. noted_by r)
        (λ r. IsSound memory_bytes memory_leaves memory_has_failed r) f.places.items f.registry) }
{
    let disk = left.journal().device().disk();
    let Ok(device) = MemoryDevice::new(alloc, disk, NEVER, WHOLE) else {
        return None;
    };
    match open_registry(alloc, device, disk) {
        Ok(registry) => Some(Found::new(alloc, registry)),
        Err(_) => None,
    }
}

/// What a start finds of what a crash leaves of these backups now.
pub(crate) fn found_of(
    alloc: Global,
    left: &Members<MemoryDevice, RegistryFile<MemoryDevice>>,
) -> Option<Found<MemoryDevice, RegistryFile<MemoryDevice>>>
    ensures { IfSome result (λ f. AreFound memory_bytes memory_leaves memory_has_failed (λ r. noted_by r)
        (λ r. IsSound memory_bytes memory_leaves memory_has_failed r) f.places.items f.registry) }
{
    let Some(mut found) = left_registry(alloc, left.registry()) else {
        return None;
    };
    for member in left.list() {
        if !add_left(alloc, &mut found, member) {
            return None;
        }
    }
    Some(found)
}
