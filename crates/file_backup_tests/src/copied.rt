//! A backup that is copied to a new file, and goes on there.

ghost use Rattle.take_journal.specs.Memory.{memory_bytes, memory_has_failed, memory_leaves};
ghost use Rattle.file_backup.specs.Mirror.{IsBacked};

use crate::memories::{OPS, hold_same, is_after, op_of};
use crate::stopped::{FIRST, WHOLE, begun, take_each};
use backup::MemoryBackup;
use file_backup::{BackupFault, FileBackup};
use std::alloc::Global;
use take_journal::{Journal, MemoryDevice};

/// Whether a file shows what memory holds.
fn shows(alloc: Global, disk: &[u8], memory: &MemoryBackup) -> bool {
    match MemoryDevice::new(alloc, disk, u64::MAX, WHOLE) {
        Ok(device) => {
            let mut backup = FileBackup::new(alloc, device);
            backup.open(alloc, disk).is_ok() && hold_same(alloc, backup.memory(), memory)
        }
        Err(_) => false,
    }
}

/// Whether the backup goes on in a new file, which is shorter and shows the same.
fn goes_on(alloc: Global, backup: &mut FileBackup<MemoryDevice>) -> bool {
    match MemoryDevice::new(alloc, b"", u64::MAX, WHOLE) {
        Ok(device) => {
            let mut journal = Journal::new(device);
            match backup.copy_to(alloc, FIRST, &mut journal) {
                Ok(_) => {
                    let own = backup.go_on_with(journal);
                    let disk = backup.journal().device().disk();
                    disk.len() < own.device().disk().len() && shows(alloc, disk, backup.memory())
                }
                Err(_) => false,
            }
        }
        Err(_) => false,
    }
}

fn is_copied(alloc: Global) -> bool {
    match begun(alloc, u64::MAX, WHOLE) {
        Some(mut backup) => {
            take_each(alloc, &mut backup) == OPS
                && goes_on(alloc, &mut backup)
                && is_after(alloc, backup.memory(), OPS)
        }
        None => false,
    }
}

#[test]
fn a_copy_shows_the_same(rt: HostRuntime) {
    assert!(rt; is_copied(rt.alloc()));
}

/// A file that no take has made, and why it is refused.
struct Row {
    file: &'static [u8],
    fault: BackupFault,
}

/// A first text, and a Free of a replica that isn't there.
const FREE: &[u8] = b"\x01\x00\x00\x00\x01\x01\
    \x01\x00\x00\x00\x11\x05\x00\x00\x00\x00\x00\x00\x00\x01\x00\x00\x00\x00\x00\x00\x00\x02\x00";

const ROWS: &[Row] = &[
    Row {
        file: b"",
        fault: BackupFault::NotBegun,
    },
    Row {
        file: b"\x01\x00\x00\x00\x01\x02\x00",
        fault: BackupFault::OtherVersion,
    },
    Row {
        file: b"\x01\x00\x00\x00\x01\x01\x01\x00\x00\x00\x00\x00",
        fault: BackupFault::WrongFrame(1),
    },
    Row {
        file: FREE,
        fault: BackupFault::WrongFrame(1),
    },
    Row {
        file: b"\x01\x00\x00\x00\x01\x01\x01\x00",
        fault: BackupFault::Damaged(6),
    },
];

fn is_refused(alloc: Global, row: &Row) -> bool {
    match MemoryDevice::new(alloc, row.file, u64::MAX, WHOLE) {
        Ok(device) => {
            let mut backup = FileBackup::new(alloc, device);
            match backup.open(alloc, row.file) {
                Ok(()) => false,
                Err(fault) => fault == row.fault,
            }
        }
        Err(_) => false,
    }
}

fn first_other(alloc: Global) -> Option<usize> {
    for i in 0..ROWS.len() {
        if !is_refused(alloc, &ROWS[i]) {
            return Some(i);
        }
    }
    None
}

#[test]
fn wrong_files_are_refused(rt: HostRuntime) {
    assert_eq!(rt; first_other(rt.alloc()), None);
}
