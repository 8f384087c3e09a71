//! The files of a fleet are opened, or begun.

ghost use Rattle.std.specs.Prelude.{◌≡◌, [], false, IfErr, IfOk};
ghost use Rattle.take_journal.specs.Device.{LeavesJust};
ghost use Rattle.registry_file.specs.File.{Shows, TellsWhy, kept_by};
ghost use Rattle.registry_file.specs.Kept.{begun};
ghost use Rattle.file_fleet.specs.Files.{ShowsUnder};
ghost use Rattle.file_fleet.specs.Members.{IsFresh, IsMember, IsUnder, replicas_at};
ghost use Rattle.file_fleet.specs.Noting.{IsSound};

use crate::first::first_text;
use file_backup::BackupFault;
use file_fleet::{FleetRegistry, Member};
use registry_file::{RegistryFault, RegistryFile};
use std::alloc::Global;
use take_journal::Device;

/// Opens the registry of a store, whose file has just these bytes. What a crash left torn at its end is cut off. A file
/// that is damaged, or of another version, isn't touched. The fault is NotBegun if the file keeps nothing: then nothing
/// that stands in it was ever acknowledged.
pub fn open_registry<D: Device + Drop>(
    alloc: Global,
    device: D,
    bytes: &[u8],
) -> Result<RegistryFile<D>, RegistryFault>
    requires bytes { bytes.now ≡ D.contents device }
    requires durable { LeavesJust bytes.now (D.may_leave device) }
    requires unfailed { D.has_failed device ≡ false }

    ensures sound { IfOk result (λ r. IsSound D.contents D.may_leave D.has_failed r) }
    ensures shows { IfOk result (λ r. Shows (kept_by r) bytes.now) }
    ensures refused { IfErr result (λ fault. TellsWhy fault bytes.now) }
{
    let mut registry = RegistryFile::new(alloc, device);
    match registry.open(alloc, bytes) {
        Ok(()) => Ok(registry),
        Err(fault) => Err(fault),
    }
}

/// Begins the registry of a store with this id and these options, in an empty file. NoMemory also if there are 2^16
/// options or more.
pub fn begin_registry<D: Device + Drop>(
    alloc: Global,
    device: D,
    id: u64,
    options: &[u64],
) -> Result<RegistryFile<D>, RegistryFault>
    requires empty { D.contents device ≡ [] }
    requires durable { LeavesJust [] (D.may_leave device) }
    requires unfailed { D.has_failed device ≡ false }

    ensures sound { IfOk result (λ r. IsSound D.contents D.may_leave D.has_failed r) }
    ensures begun { IfOk result (λ r. kept_by r ≡ begun (record { id = id; options = options.now })) }
{
    let mut registry = RegistryFile::new(alloc, device);
    match registry.begin(alloc, id, options) {
        Ok(()) => Ok(registry),
        Err(fault) => Err(fault),
    }
}

/// Opens the file that a registry names as the journal of a backup. It has just these bytes. What a crash left torn at
/// its end is cut off.
pub fn open_member<D: Device + Drop, R: FleetRegistry>(
    alloc: Global,
    registry: &R,
    backup: u64,
    device: D,
    bytes: &[u8],
) -> Result<Member<D>, BackupFault>
    requires bytes { bytes.now ≡ D.contents device }
    requires durable { LeavesJust bytes.now (D.may_leave device) }
    requires unfailed { D.has_failed device ≡ false }

    ensures member { IfOk result (λ h. IsMember D.contents D.may_leave D.has_failed h) }
    ensures under { IfOk result (λ h. IsUnder D.may_leave ((R.noted registry.now).span backup) h) }
    ensures named { IfOk result (λ h. (R.noted registry.now).file backup ≡ h.id) }
    ensures shows { IfOk result (λ h. ShowsUnder ((R.noted registry.now).span backup) (replicas_at h) bytes.now) }
{
    let mut member = Member::new(alloc, registry.file(backup), device);
    match member.open(alloc, registry.span(backup), bytes) {
        Ok(()) => Ok(member),
        Err(fault) => Err(fault),
    }
}

/// Begins a backup that holds nothing, in an empty file with this id, which no other file of the backup has.
pub fn begin_member<D: Device + Drop>(
    alloc: Global,
    store: u64,
    backup: u64,
    id: u64,
    device: D,
) -> Result<Member<D>, BackupFault>
    requires live { id ≡ 0 → ⊥ }
    requires empty { D.contents device ≡ [] }
    requires durable { LeavesJust [] (D.may_leave device) }
    requires unfailed { D.has_failed device ≡ false }

    ensures fresh { IfOk result (λ h. IsFresh D.contents D.may_leave D.has_failed h) }
    ensures id { IfOk result (λ h. h.id ≡ id) }
{
    let mut member = Member::new(alloc, id, device);
    let first = first_text(store, backup, id);
    match member.begin(alloc, &first) {
        Ok(()) => Ok(member),
        Err(fault) => Err(fault),
    }
}
