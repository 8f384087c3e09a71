//! A run of two hundred takes on a device that stops at each of its calls, and what the next start finds.

ghost use Rattle.std.specs.Prelude.{IfSome};
ghost use Rattle.take_journal.specs.Memory.{memory_bytes, memory_has_failed, memory_leaves};
ghost use Rattle.file_backup.specs.Mirror.{IsBacked};

use crate::memories::{OPS, is_after, op_of};
use file_backup::{BackupFault, FileBackup};
use std::alloc::Global;
use take_journal::{MemoryDevice, Tear};

/// The first text of the file.
pub(crate) const FIRST: &[u8] = b"\x01backup 0";

/// A device that never stops.
pub(crate) const WHOLE: Tear = Tear {
    kept: 0,
    junk: None,
};

/// A backup on an empty file, begun if the device doesn't stop before.
pub(crate) fn begun(alloc: Global, stops_at: u64, tear: Tear) -> Option<FileBackup<MemoryDevice>>
    ensures { IfSome result (λ backup. IsBacked memory_bytes memory_leaves memory_has_failed backup) }
{
    match MemoryDevice::new(alloc, b"", stops_at, tear) {
        Ok(device) => {
            let mut backup = FileBackup::new(alloc, device);
            let _is_begun = backup.begin(alloc, FIRST).is_ok();
            Some(backup)
        }
        Err(_) => None,
    }
}

/// Takes the ops up to one that is refused. How many were taken.
pub(crate) fn take_each(alloc: Global, backup: &mut FileBackup<MemoryDevice>) -> usize
    requires { IsBacked memory_bytes memory_leaves memory_has_failed backup.old }
{
    for number in 0..OPS {
        if backup.take(alloc, &op_of(number)).is_err() {
            return number;
        }
    }
    OPS
}

/// Whether the next start finds what was answered, with the op that was under way or without it.
fn is_found(alloc: Global, disk: &[u8], count: usize) -> bool {
    match MemoryDevice::new(alloc, disk, u64::MAX, WHOLE) {
        Ok(device) => {
            let mut backup = FileBackup::new(alloc, device);
            match backup.open(alloc, disk) {
                Ok(()) => {
                    is_after(alloc, backup.memory(), count)
                        || (count < OPS && is_after(alloc, backup.memory(), count + 1))
                }
                Err(fault) => fault == BackupFault::NotBegun && count == 0,
            }
        }
        Err(_) => false,
    }
}

/// Whether memory holds what was answered, and so does the file after a stop.
fn survives(alloc: Global, stops_at: u64, tear: Tear) -> bool {
    match begun(alloc, stops_at, tear) {
        Some(mut backup) => {
            let count = take_each(alloc, &mut backup);
            is_after(alloc, backup.memory(), count)
                && backup.is_out() == (count < OPS)
                && is_found(alloc, backup.journal().device().disk(), count)
        }
        None => false,
    }
}

/// The first stop after which something is lost. A take makes four calls of the device, and so does what comes before.
fn first_loss(alloc: Global, tear: Tear) -> Option<u64> {
    for stops_at in 1..4 * OPS as u64 + 10 {
        if !survives(alloc, stops_at, tear) {
            return Some(stops_at);
        }
    }
    None
}

#[test]
fn each_stop_leaves_what_was_answered(rt: HostRuntime) {
    let alloc = rt.alloc();
    assert_eq!(rt; first_loss(alloc, WHOLE), None);
    let junk = Tear {
        kept: 3,
        junk: Some(1),
    };
    assert_eq!(rt; first_loss(alloc, junk), None);
}
