//! The crash images of a fleet are opened, as a start opens files.

ghost use Rattle.std.specs.Prelude.{◌≡◌, ◌↔◌, ◌<◌, ℕ, Contains, IfSome, IsTrue, length, true};
ghost use Rattle.registry_file.specs.File.{Shows, kept_by};
ghost use Rattle.file_fleet.specs.Files.{ShowsUnder};
ghost use Rattle.file_fleet.specs.Members.{IsMember, IsUnder, device_at, replicas_at};
ghost use Rattle.file_fleet.specs.Noting.{IsSound, file_of, noted_by};
ghost use Rattle.fleet_start.specs.Found.{AreFound, AreRead, is_found};
ghost use Rattle.crash_fleet.specs.Images.{images_of};
ghost use Rattle.crash_fleet.specs.Opened.{AreKept, IsOpened};

use crate::image::CrashImage;
use file_fleet::{FleetRegistry, Member, Members};
use fleet_start::{Found, open_member, open_registry};
use registry_file::RegistryFile;
use std::alloc::Global;

/// Opens the image of a registry's file. None if memory runs out, if the device fails, or if the image is damaged.
pub(crate) fn registry_in_image<D: CrashImage + Drop>(
    alloc: Global,
    left: &RegistryFile<D>,
) -> Option<RegistryFile<D>>
    ensures sound { IfSome result (λ r. IsSound D.Device.contents D.Device.may_leave D.Device.has_failed r) }
    ensures shows { IfSome result (λ r. Shows (kept_by r) (D.crash_image (file_of left.now))) }
{
    let image = left.journal().device().image();
    let Ok(device) = D::reopened(alloc, image) else {
        return None;
    };
    match open_registry(alloc, device, image) {
        Ok(registry) => Some(registry),
        Err(_) => None,
    }
}

/// Opens the image of a backup's file, if it is the one that the registry names. None if memory runs out, if the device
/// fails, or if the image is damaged.
pub(crate) fn member_in_image<D: CrashImage + Drop>(
    alloc: Global,
    registry: &RegistryFile<D>,
    backup: u64,
    left: &Member<D>,
) -> Option<Member<D>>
    ensures member { IfSome result (λ h. IsMember D.Device.contents D.Device.may_leave D.Device.has_failed h) }
    ensures under { IfSome result (λ h. IsUnder D.Device.may_leave ((noted_by registry.now).span backup) h) }
    ensures named { IfSome result (λ h. (noted_by registry.now).file backup ≡ h.id) }
    ensures shows { IfSome result (λ h. ShowsUnder ((noted_by registry.now).span backup) (replicas_at h)
        (D.crash_image (device_at left.now))) }
{
    let image = left.backup().journal().device().image();
    let Ok(device) = D::reopened(alloc, image) else {
        return None;
    };
    if registry.file(backup) != left.id() {
        return None;
    }
    match open_member(alloc, registry, backup, device, image) {
        Ok(member) => Some(member),
        Err(_) => None,
    }
}

/// Opens the image of the next backup's file, or leaves it out.
fn add_image<D: CrashImage + Drop>(
    alloc: Global,
    found: &mut Found<D, RegistryFile<D>>,
    left: &Member<D>,
    is_kept: bool,
) -> bool
    requires found { AreFound D.Device.contents D.Device.may_leave D.Device.has_failed (λ r. noted_by r)
        (λ r. IsSound D.Device.contents D.Device.may_leave D.Device.has_failed r) found.old.places.items
        found.old.registry }

    ensures found { AreFound D.Device.contents D.Device.may_leave D.Device.has_failed (λ r. noted_by r)
        (λ r. IsSound D.Device.contents D.Device.may_leave D.Device.has_failed r) found.new.places.items
        found.new.registry }
    ensures registry { found.new.registry ≡ found.old.registry }
    ensures opened { result ≡ true → IsOpened D.crash_image (noted_by found.old.registry) left.now is_kept
        found.old.places.items found.new.places.items }
{
    if !is_kept {
        return found.add_missing().is_ok();
    }
    let backup = found.backups();
    match member_in_image(alloc, found.registry(), backup, left) {
        Some(member) => found.add(member).is_ok(),
        None => false,
    }
}

/// Whether a backup is on a list.
fn is_listed(backups: &[u64], backup: u64) -> bool
    ensures { IsTrue result ↔ Contains backups.now backup }
{
    backups.contains(&backup)
}

/// What a start finds of the crash images: the registry, and the backups that are kept. The files of the others are
/// lost. None if memory runs out, or if an image isn't opened.
pub(crate) fn found_in_images<D: CrashImage + Drop>(
    alloc: Global,
    members: &Members<D, RegistryFile<D>>,
    kept: &[u64],
) -> Option<Found<D, RegistryFile<D>>>
    ensures found { IfSome result (λ f. AreFound D.Device.contents D.Device.may_leave D.Device.has_failed
        (λ r. noted_by r) (λ r. IsSound D.Device.contents D.Device.may_leave D.Device.has_failed r) f.places.items
        f.registry) }
    ensures read { IfSome result (λ f. AreRead (noted_by f.registry) f.places.items
        (images_of D.crash_image members.now)) }
    ensures count { IfSome result (λ f. length f.places.items ≡ length members.now.list.items) }
    ensures kept { IfSome result (λ f. AreKept kept.now f.places.items) }
{
    let Some(registry) = registry_in_image(alloc, members.registry()) else {
        return None;
    };
    let mut found = Found::new(alloc, registry);
    for member in members.list() {
        let is_kept = is_listed(kept, found.backups());
        if !add_image(alloc, &mut found, member, is_kept) {
            return None;
        }
    }
    Some(found)
}
